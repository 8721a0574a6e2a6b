// Watches two days of a heating hub, event by event, and shows how the property breaks on the first.
#![tactic(auto)]

use anyhow::anyhow;
use engine::book::MOST_ENTRIES;
use engine::entry::Entry;
use kinds::numbers::Numbers;
use kinds::phase::Phase;
use kinds::refusal::Refusal;
use std::alloc::Global;
use std::io::Print;
use tables::table::Table;
use tables::text::read;
use watch::standing::Standing;
use watch::watch::Watch;

// No schedule is applied after midnight as it was fetched before.
const STALE: &[u8] = b"property Stale
method fetch 3 1
method apply 4 2
method midnight 5 0
start -> held: S := fetch(F)
held -> stale: call midnight()
stale -> error: call apply(f, s)
";

// The numbers of the methods.
const FETCH: u16 = 3;

const APPLY: u16 = 4;

const MIDNIGHT: u16 = 5;

// How many configurations a position may have.
const CAP: usize = 64;

// The id of a call of a method.
fn call(method: u16) -> u32 {
    2 * u32::from(method)
}

// The id of a return of a method.
fn return_of(method: u16) -> u32 {
    2 * u32::from(method) + 1
}

fn main(rt: HostRuntime) -> anyhow::Result<()> {
    let table = stale(rt.alloc())?;
    for applied in [900, 901] {
        watch_day(&rt, rt.alloc(), &table, applied)?;
    }
    Ok(())
}

// The table of the property.
fn stale(heap: Global) -> anyhow::Result<Table> {
    let mut table = Table::empty(heap);
    match read(heap, STALE, &mut table) {
        Ok(()) => Ok(table),
        Err(_) => Err(anyhow!("the property is refused, or memory is short")),
    }
}

// Feeds a day to a watch: schedule 900 is fetched for flat 12, and after midnight some schedule is applied. Tells what each call answers, and the verdict.
fn watch_day(rt: &impl Print, heap: Global, table: &Table, applied: u64) -> anyhow::Result<()> {
    let board = vec![in heap; None; 40 * CAP + 64]?;
    let book = vec![in heap; Entry { parent: 0, step: 0 }; MOST_ENTRIES]?;
    let mut watch = Watch::<Numbers>::new(board, book);
    watch
        .begin(table, &[], CAP)
        .map_err(|refusal| anyhow!("{refusal}"))?;
    let day: [(u32, &[Option<u64>]); 4] = [
        (call(FETCH), &[Some(12)]),
        (return_of(FETCH), &[Some(900)]),
        (call(MIDNIGHT), &[]),
        (call(APPLY), &[Some(12), Some(applied)]),
    ];
    for (id, values) in day {
        let answer = watch.feed(id, values);
        tell(rt, &watch, answer)?;
    }
    if watch.verdict().phase == Phase::Running {
        let answer = watch.close();
        tell(rt, &watch, answer)?;
    }
    let verdict = watch.verdict();
    println!(rt; "verdict {} {}", verdict.phase, verdict.judged)?;
    Ok(())
}

// What a feed or a close is answered.
fn tell(
    rt: &impl Print,
    watch: &Watch<'_, Numbers>,
    answer: Result<Standing, Refusal>,
) -> anyhow::Result<()> {
    match answer {
        Ok(Standing::Running) => println!(rt; "running")?,
        Ok(Standing::Kept) => println!(rt; "kept")?,
        Ok(Standing::Broken(position)) => show(rt, watch, position)?,
        Err(refusal) => println!(rt; "refused {refusal}")?,
    }
    Ok(())
}

// Where the property breaks, and the steps that lead there: a statement's number, 65 for the implied one, 0 for a skip.
fn show(rt: &impl Print, watch: &Watch<'_, Numbers>, position: usize) -> anyhow::Result<()> {
    println!(rt; "broken at {position}")?;
    let mut page = [0u8; 256];
    let count = watch
        .path(&mut page)
        .map_err(|refusal| anyhow!("{refusal}"))?;
    for step in page.iter().take(count) {
        println!(rt; "step {step}")?;
    }
    Ok(())
}
