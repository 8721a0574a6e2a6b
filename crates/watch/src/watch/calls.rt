// Making a watch, and its calls.
ghost use Rattle.std.specs.Prelude.{◌≡◌, ℕ, List, map, Ok, vec_len};
ghost use Rattle.kinds.specs.declared.phase.Phase.TheVariants.{Running};
ghost use Rattle.topl.specs.Theorems.{seen};
ghost use Rattle.topl.specs.Ledger.{Ledger, fresh, verdict as verdict_of, path_on, Begins, Feeds, Closes, Draws};
ghost use Rattle.tables.specs.Meant.{meant};
ghost use Rattle.watch.specs.Answers.{began, told, drew, paged, tells};
ghost use Rattle.watch.specs.Stages.{phase_of};
ghost use Rattle.watch.specs.Turning.{Turned, counted as counted_of, rests, in_stage, stands};
ghost use Rattle.watch.specs.Shows.{Shows, Turns, meaning};

use crate::held::{Held, Stage};
use crate::standing::{Asked, Standing, Verdict};
use crate::watch::Watch;
use engine::book::MOST_ENTRIES;
use engine::entry::Entry;
use engine::front::Decision;
use engine::rows::Rows;
use kinds::kind::Kind;
use kinds::phase::Phase;
use kinds::refusal::Refusal;
use kinds::watch_reason::WatchReason;
use sources::source::Source;
use tables::table::Table;

impl<'a, K: Kind> Watch<'a, K> {
    // A blank watch over a board and a book of any content and length.
    pub fn new(board: Vec<K::Value>, book: Vec<Entry>) -> Self
        ensures { Shows result (fresh (vec_len board) (vec_len book)) }
    {
        Watch {
            rows: Rows::<K>::new(board, book),
            held: Held::blank(),
        }
    }

    // The phase, the judged count and, if it is broken, the position.
    pub fn verdict(&self) -> Verdict
        ensures { (l : Ledger) → Shows self.now l → tells result ≡ verdict_of l }
    {
        Verdict {
            phase: Phase::from(self.held.stage),
            judged: self.held.judged,
            position: self.held.stage.position(),
        }
    }

    // Writes the steps of the shown run into the front of a page and tells their count.
    pub fn path(&self, page: &mut [u8]) -> Result<usize, Refusal>
        ensures { (l : Ledger) → Shows self.now l → paged result page.new ≡ path_on l page.old }
    {
        let Stage::Broken(breach) = self.held.stage else {
            return Err(self.refuse(WatchReason::NotBroken));
        };
        let short = self.refuse(WatchReason::SmallPage);
        self.rows.path(breach.last, page).ok_or(short)
    }

    // Begins with a table, the constants' values in order of first appearance, and a cap.
    pub fn begin(
        &mut self,
        table: &'a Table,
        constants: &[K::Value],
        cap: usize,
    ) -> Result<(), Refusal>
        ensures { Turns self.old (λ l r. Begins l (meant table.now) (map K.Kind.class constants.now) cap r) (began result) self.new }
    {
        self.may_begin(constants.len(), table.constants().len(), cap)?;
        // The rows cannot refuse here: `may_begin` has tried all that they ask.
        let small = self.refuse(WatchReason::SmallBoard);
        self.rows.open(table, constants, cap).or(Err(small))?;
        self.held.stage = Stage::Running(table);
        Ok(())
    }

    // Takes one event: an id and values of any content.
    pub fn feed(&mut self, id: u32, values: &[K::Value]) -> Result<Standing, Refusal>
        ensures { Turns self.old (λ l r. Feeds l (seen K.Kind.class id values.now) r) (told result) self.new }
    {
        let table = self.running()?;
        self.may_take(table.methods(), id, values.len())?;
        let judged = self.held.judged;
        let ruling = self.rows.take_event(table, judged, id, values);
        self.turn(ruling, Asked::Event)
    }

    // Ends the list of events.
    pub fn close(&mut self) -> Result<Standing, Refusal>
        ensures { Turns self.old Closes (told result) self.new }
    {
        let table = self.running()?;
        let judged = self.held.judged;
        let ruling = self.rows.end_list(table, judged);
        self.turn(ruling, Asked::End)
    }

    // Feeds the next event of a source.
    pub fn draw<S: Source<K>>(&mut self, source: &mut S) -> Result<Option<Standing>, Refusal>
        ensures { Turns self.old
            (λ l r. Draws l (meaning K.Kind.class (S.Source.waiting source.old) (S.Source.ending source.old)) r
            (meaning K.Kind.class (S.Source.waiting source.new) (S.Source.ending source.new)))
            (drew result) self.new }
    {
        self.running()?;
        let Some(event) = source.next()? else {
            return Ok(None);
        };
        let standing = self.feed(event.id(), event.values())?;
        Ok(Some(standing))
    }

    // Sets the stage and the judged count by the deciding rule's word.
    fn turn(&mut self, ruling: Result<(), Decision>, asked: Asked) -> Result<Standing, Refusal>
        requires { phase_of self.old.held.stage ≡ Running }
        ensures { Turned self.old.held self.new.held ruling asked result × (self.new.rows ≡ self.old.rows) }
    {
        match ruling {
            Ok(()) => {
                self.held.judged = counted(self.held.judged, asked);
                self.go_on(asked)
            }
            Err(Decision::Spills) => {
                self.held.stage = Stage::Spilled;
                Err(self.refuse(WatchReason::IsSpilled))
            }
            Err(Decision::Overfills) => {
                self.held.stage = Stage::Full;
                Err(self.refuse(WatchReason::IsFull))
            }
            Err(Decision::Breaks(breach)) => {
                self.held = Held {
                    stage: Stage::Broken(breach),
                    judged: counted(self.held.judged, asked),
                };
                Ok(Standing::Broken(breach.position))
            }
        }
    }

    // Where nothing decides, an event leaves the watch running, and at the end of the list the property is kept.
    // Kept a match on the watch's own stage and the call, which changes the stage in place: a fixed form of the project; the pairs that cannot come
    // are proved unreachable.
    fn go_on(&mut self, asked: Asked) -> Result<Standing, Refusal>
        requires { phase_of self.old.held.stage ≡ Running }
        ensures { (self.new.held ≡ in_stage (rests asked self.old.held.stage) self.old.held) × (result ≡ Ok (stands asked)) × (self.new.rows ≡ self.old.rows) }
    {
        match (self.held.stage, asked) {
            (Stage::Running(_), Asked::Event) => Ok(Standing::Running),
            (Stage::Running(_), Asked::End) => {
                self.held.stage = Stage::Kept;
                Ok(Standing::Kept)
            }
            _ => unreachable(),
        }
    }
}

// How many events are judged once the rule has been asked and does not refuse.
fn counted(judged: usize, asked: Asked) -> usize
    ensures { result ≡ counted_of asked judged }
{
    match asked {
        Asked::Event => judged.min(MOST_ENTRIES - 1) + 1,
        Asked::End => judged,
    }
}
