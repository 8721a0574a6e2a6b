// What the tests share: properties, watches, and what is expected of them.
use engine::entry::Entry;
use kinds::kind::Kind;
use kinds::label::Label;
use kinds::labels::Labels;
use kinds::numbers::Numbers;
use kinds::phase::Phase;
use kinds::refusal::{Layer, Reason, Refusal};
use kinds::watch_reason::WatchReason;
use std::alloc::Global;
use std::process::Abort;
use std::test::Fail;
use tables::table::Table;
use tables::text::read;
use watch::standing::{Standing, Verdict};
use watch::watch::Watch;

mod days;
mod draws;
mod histories;
mod phases;
mod room;
mod values;

// A schedule that is applied after midnight as it was fetched before.
const STALE: &[u8] = b"property Stale
method fetch 3 1
method apply 4 2
method midnight 5 0
start -> held: S := fetch(F)
held -> stale: call midnight()
stale -> error: call apply(f, s)
";

// After g and p, r may come only with z behind it.
const WAIT: &[u8] = b"property Wait
method g 1 0
method p 2 0
method r 3 0
method z 4 0
start -> a: call g()
a -> done: call p(); call r(); call z()
a -> error: call r()
";

// The table of a property text.
fn table(heap: Global, text: &[u8]) -> Result<Table, Fail> {
    let mut table = Table::empty(heap);
    match read(heap, text, &mut table) {
        Ok(()) => Ok(table),
        Err(_) => Err(Fail::new("the property is refused")),
    }
}

// A blank watch over a board and a book of so many values and entries.
fn blank<'a, K: Kind>(heap: Global, board: usize, book: usize) -> Result<Watch<'a, K>, Fail> {
    let board = vec![in heap; K::nothing(); board]?;
    let book = vec![in heap; Entry { parent: 0, step: 0 }; book]?;
    Ok(Watch::new(board, book))
}

// A watch that runs over a board just long enough for its cap, without constants.
fn running<'a, K: Kind>(
    heap: Global,
    table: &'a Table,
    cap: usize,
    book: usize,
) -> Result<Watch<'a, K>, Fail> {
    let mut watch = blank::<K>(heap, 40 * cap.min(64) + 64, book)?;
    watch.begin(table, &[], cap)?;
    Ok(watch)
}

// What the watch refuses after so many judged events.
fn refusal<R: Into<Reason>>(reason: R, judged: usize) -> Refusal {
    Layer::Watch.refusal(reason.into(), judged)
}

// The watch tells its phase, the judged count and, if it is broken, the position.
fn tells<K: Kind>(
    rt: &impl Abort,
    watch: &Watch<'_, K>,
    phase: Phase,
    judged: usize,
    position: Option<usize>,
) {
    let verdict = watch.verdict();
    assert_eq!(rt; verdict.phase, phase);
    assert_eq!(rt; verdict.judged, judged);
    assert_eq!(rt; verdict.position, position);
}

// Each event in turn leaves the watch running.
fn runs_on<K: Kind>(rt: &impl Abort, watch: &mut Watch<'_, K>, events: &[(u32, &[K::Value])]) {
    for (id, values) in events {
        assert_eq!(rt;
            watch.feed(*id, values),
            Ok(Standing::Running),
            "at event {id}"
        );
    }
}

// The watch is broken at a position, by an event, and shows these steps.
fn breaks<K: Kind>(
    rt: &impl Abort,
    watch: &mut Watch<'_, K>,
    (id, values): (u32, &[K::Value]),
    position: usize,
    steps: &[u8],
) {
    assert_eq!(rt; watch.feed(id, values), Ok(Standing::Broken(position)));
    shows(rt, watch, steps);
}

// The watch shows these steps, on a page that has room for them.
fn shows<K: Kind>(rt: &impl Abort, watch: &Watch<'_, K>, steps: &[u8]) {
    let mut page = [0u8; 16];
    assert_eq!(rt; watch.path(&mut page), Ok(steps.len()));
    assert!(rt; page.starts_with(steps), "{page:?}");
}

// The label that a text writes after its length.
fn label(bytes: &[u8]) -> Result<Label, Fail> {
    let (label, _) = Labels::read(bytes)?;
    Ok(label)
}

// A number as a value.
fn number(n: u64) -> Option<u64> {
    Some(n)
}
