// The theory of the watch: automata, runs, the deciding rule and the ledger. Each function is a theorem, which its contract states. The text reader and the
// watch share the patterns and the fixed states.
#![tactic(auto)]

ghost use Rattle.topl.specs.Theorems.{Bounded, Certain, Enumerates, FewSteps, Finding, Gains, LabelsJoin, LargerRulesAlike, Needs, Persists, PlacesAgree, Recognizes, Replays, RuleInWords, Stepping, Tested, Verdicts, Watching};
ghost use Rattle.topl.specs.History.{Answered, BooksCount, Determined, DrawsTakeOne, JudgesEachOnce, OneRun, Refusing, Ruled, StaysSound, Telling, TellingOn};
ghost use Rattle.topl.specs.Days.{TellsOf, Worked, stale_end};
ghost use Rattle.topl.specs.Examples.{Examples, Excluded};

use kinds::kind::Kind;
use kinds::phase::Phase;

pub mod pattern;
pub mod states;

// Settled runs persist: events that come later, and the end of the list, leave them runs with the same steps.
pub fn settled_runs_persist()
    ensures { Persists }
{}

// A list is in the language of the property's automaton exactly if some run of the closed list reaches `error`.
pub fn runs_decide_the_language()
    ensures { Recognizes }
{}

// What is reached at a position can be listed: all of it, nothing else, and each once.
pub fn runs_are_enumerated()
    ensures { Enumerates }
{}

// A run is known by its steps.
pub fn steps_are_runs()
    ensures { Replays }
{}

// What one more event, or the end, adds comes from moves out of the last four positions.
pub fn an_event_gains()
    ensures { Gains }
{}

// The same over rows of configurations, as code keeps them.
pub fn rows_step()
    ensures { Stepping }
{}

// The executable deciding rule says exactly the rule in words.
pub fn the_lowest_position_decides()
    ensures { RuleInWords }
{}

// The first position that rules decides, as a loop finds it.
pub fn the_first_ruling_decides()
    ensures { Finding }
{}

// A feed or a close has to look only at the last positions.
pub fn the_watch_resumes()
    ensures { Watching }
{}

// While the watch runs, fewer events are judged than the book has entries.
pub fn judged_events_are_few()
    ensures { Bounded }
{}

// What is decided is right by the language.
pub fn verdicts_agree_with_the_language()
    ensures { Verdicts }
{}

// Every call keeps what the ledger's phase says true.
pub fn the_ledger_stays_sound()
    ensures { StaysSound }
{}

// Every history of calls is true as a whole: at every moment, and in every call.
pub fn histories_are_true()
    ensures { Telling }
{}

// So is every history from a moment whose ledger is sound.
pub fn true_histories_go_on()
    ensures { TellingOn }
{}

// All paths that a history writes are those of one run.
pub fn paths_show_one_run()
    ensures { OneRun }
{}

// Every call has an answer at every moment.
pub fn every_call_is_answered()
    ensures { Answered }
{}

// Only the shown run is free.
pub fn answers_are_determined()
    ensures { Determined }
{}

// The worked days.
pub fn worked_days_hold()
    ensures { Worked }
{}

// Worked histories for clauses that no worked day shows.
pub fn worked_examples_hold()
    ensures { Examples }
{}

// Three readings that the rules exclude.
pub fn other_readings_fail()
    ensures { Excluded }
{}

// The test of a lawful table says exactly that it is one.
pub fn lawful_tables_are_tested()
    ensures { Tested }
{}

// A statement's matchers are those of its labels in turn.
pub fn labels_join()
    ensures { LabelsJoin }
{}

// Every step of a run is at most 65.
pub fn steps_fit_a_byte()
    ensures { FewSteps }
{}

// The settled runs of a list are those that every longer list keeps.
pub fn settled_runs_are_the_certain_ones()
    ensures { Certain }
{}

// The need is the number of configurations that count, each once at its position.
pub fn the_need_is_counted()
    ensures { Needs }
{}

// Each refusal is answered exactly if its condition holds and no earlier one does.
pub fn refusals_are_tried_in_order()
    ensures { Refusing }
{}

// The judged list is the events of the feeds and draws answered running or broken, each once, in call order.
pub fn judged_events_are_the_answered_ones()
    ensures { JudgesEachOnce }
{}

// A draw takes the first waiting event, or nothing where the phase refuses it.
pub fn draws_take_one_event()
    ensures { DrawsTakeOne }
{}

// The phase after a feed or a close is the one that the deciding rule names.
pub fn phases_come_by_the_rule()
    ensures { Ruled }
{}

// A larger cap and a larger book change no ruling but spilled and full.
pub fn a_larger_book_rules_alike()
    ensures { LargerRulesAlike }
{}

// The rule counts the entries of the book, and 16,384 where it has more.
pub fn long_books_count_alike()
    ensures { BooksCount }
{}

// The class of a place is the place of the classes, for every kind.
pub fn places_have_their_classes<K: Kind>()
    ensures { PlacesAgree K.Kind.class K.Kind.nothing }
{}

// What a broken watch tells of a day.
pub struct Told {
    pub phase: Phase,
    pub judged: usize,
    pub position: usize,
    pub path: [u8; 3],
}

// The worked day of Stale, as code tells it.
pub fn told_of_stale() -> Told
    ensures { TellsOf result stale_end }
{
    Told {
        phase: Phase::Broken,
        judged: 4,
        position: 4,
        path: [1, 2, 3],
    }
}
