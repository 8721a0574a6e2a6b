// The watch's way through a day: its making, its draws, its close, and what it then shows.
ghost use Rattle.std.specs.Prelude.{◌≡◌, [], List, None, Ok, length, map, IfOk};
ghost use Rattle.kinds.specs.declared.phase.Phase.TheVariants.{Broken};
ghost use Rattle.topl.specs.Ledger.{Ledger, fresh, initial};
ghost use Rattle.topl.specs.Lists.{Class};
ghost use Rattle.topl.specs.Table.{Table as Property, Event};
ghost use Rattle.kinds.specs.Refusals.{Ending};
ghost use Rattle.tables.specs.Meant.{meant};
ghost use Rattle.watch.specs.Shows.{Shows};
ghost use Rattle.judging.specs.Outcomes.{Ends, broken, refused, watch_refuses};
ghost use Rattle.judging.specs.Ways.{Gives, ComesOut, Drawn, HasBegun, Stood, events, running_on};
ghost use Rattle.kinds.specs.declared.refusal.Reason.TheVariants.{Watch as of_watch};
ghost use Rattle.kinds.specs.declared.watch_reason.WatchReason.TheVariants.{OtherConstants};

use crate::outcome::Outcome;
use crate::stop::Stop;
use engine::book::MOST_ENTRIES;
use engine::entry::Entry;
use kinds::kind::Kind;
use kinds::refusal::Refusal;
use sources::source::Source;
use std::alloc::{AllocError, Global};
use tables::table::Table;
use watch::standing::Standing;
use watch::watch::Watch;

// At most so many configurations are kept at a position.
const CAP: usize = 64;

// So many values has the board for them.
const BOARD_LEN: usize = 40 * CAP + 64;

// A blank watch over a board and a book of a day's size.
fn make<'a, K: Kind>(heap: Global) -> Result<Watch<'a, K>, AllocError>
    ensures { IfOk result (λ w. Shows w (fresh 2624 16384)) }
{
    let board = vec![in heap; K::nothing(); BOARD_LEN]?;
    let book = vec![in heap; Entry { parent: 0, step: 0 }; MOST_ENTRIES]?;
    Ok(Watch::<K>::new(board, book))
}

// A watch that has begun a day with the values of the constants.
pub(crate) fn begin<'a, K: Kind>(
    heap: Global,
    table: &'a Table,
    constants: &[K::Value],
) -> Result<Watch<'a, K>, Stop>
    ensures { let ks = map K.Kind.class constants.now in Gives
        (λ w. (length constants.now ≡ length (meant table.now).constants) × Shows w (running_on (meant table.now) ks []))
        (λ f. ¬ (length constants.now ≡ length (meant table.now).constants) × (refused f ≡ watch_refuses (of_watch OtherConstants) 0)) result }
{
    let mut watch = make::<K>(heap)?;
    watch.begin(table, constants, CAP)?;
    Ok(watch)
}

// Draws until no event is left, or until the watch breaks: where it does.
fn draw_all<K: Kind, S: Source<K>>(
    watch: &mut Watch<'_, K>,
    source: &mut S,
) -> Result<Option<usize>, Refusal>
    requires { HasBegun watch.old }
    ensures { (P : Property) (ks : List Class) → Shows watch.old (running_on P ks []) →
        Drawn P ks (events K.Kind.class (S.Source.waiting source.old)) (S.Source.ending source.old) result watch.new }
{
    while let Some(standing) = watch.draw(source)? {
        if let Standing::Broken(position) = standing {
            return Ok(Some(position));
        }
    }
    Ok(None)
}

// Ends the list: where the watch breaks, if it does.
fn close<K: Kind>(watch: &mut Watch<'_, K>) -> Result<Option<usize>, Refusal>
    ensures { (P : Property) (ks : List Class) (es : List Event) (n : Ending) → Drawn P ks es n (Ok None) watch.old → Stood P ks es n result watch.new }
{
    match watch.close()? {
        Standing::Broken(position) => Ok(Some(position)),
        _ => Ok(None),
    }
}

// Judges every event that waits and then the end of the list: where the watch breaks, if it does.
fn judge_all<K: Kind, S: Source<K>>(
    watch: &mut Watch<'_, K>,
    source: &mut S,
) -> Result<Option<usize>, Refusal>
    requires { HasBegun watch.old }
    ensures { (P : Property) (ks : List Class) → Shows watch.old (running_on P ks []) →
        Stood P ks (events K.Kind.class (S.Source.waiting source.old)) (S.Source.ending source.old) result watch.new }
{
    match draw_all(watch, source)? {
        None => close(watch),
        broken => Ok(broken),
    }
}

// What a broken watch shows.
fn shown<K: Kind>(heap: Global, watch: &Watch<'_, K>, position: usize) -> Result<Outcome, Stop>
    ensures { (l : Ledger) → Shows watch.now l → l.phase ≡ Broken → ComesOut (λ o. o ≡ broken (length l.judged) position l.shown) result }
{
    let mut steps = vec![in heap; 0; MOST_ENTRIES]?;
    let count = watch.path(&mut steps)?;
    steps.truncate(count);
    Ok(Outcome::Broken {
        judged: watch.verdict().judged,
        position,
        steps,
    })
}

// Judges the events of a source by a watch that has begun.
pub(crate) fn run<K: Kind, S: Source<K>>(
    heap: Global,
    watch: &mut Watch<'_, K>,
    source: &mut S,
) -> Result<Outcome, Stop>
    requires { HasBegun watch.old }
    ensures { (P : Property) (ks : List Class) → Shows watch.old (running_on P ks []) →
        ComesOut (Ends P (initial P ks) (events K.Kind.class (S.Source.waiting source.old)) (S.Source.ending source.old)) result }
{
    match judge_all(watch, source)? {
        Some(position) => shown(heap, watch, position),
        None => Ok(Outcome::Kept {
            judged: watch.verdict().judged,
        }),
    }
}
