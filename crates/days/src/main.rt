// Judges days whose first line is known: it compares each whole report, walks each run that is shown, and prints what differs.
#![tactic(auto)]

mod long;
mod misstep;
mod shown;
mod tally;
#[cfg(test)]
mod tests;
mod walk;

use crate::long::long_days;
use crate::misstep::Misstep;
use crate::shown::Shown;
use crate::tally::Tally;
use anyhow::{Context, anyhow};
use day::report::report;
use std::alloc::Global;
use std::fs;
use vectors::day::Day;

// The files of days, a day in each line.
const FILES: [&str; 4] = ["days.txt", "texts.txt", "journals.txt", "limits.txt"];

fn main(rt: HostRuntime) -> anyhow::Result<()> {
    run(&rt)
}

// The whole report that is expected of a day: its line, and of a broken day a second one with the steps that are shown, if they are those of a run.
fn expected_report(heap: Global, day: &Day, report: &str) -> Result<String, Misstep> {
    let first = day.expected.as_str();
    if !first.starts_with("broken ") {
        return Ok(format!(in heap; "{first}\n")?);
    }
    let shown = Shown::of(heap, report)?;
    shown.walk(heap, &day.text, &day.journal, &day.constants)?;
    Ok(shown.report(heap, first)?)
}

// Judges a day and prints what differs, after the place of the day and its number there; tells whether nothing does.
fn passes(rt: &HostRuntime, day: &Day, place: &str, number: usize) -> anyhow::Result<bool> {
    let heap = rt.alloc();
    let bytes = report(heap, &day.text, &day.journal, &day.constants)?;
    let got = String::from_utf8(bytes)?;
    match expected_report(heap, day, got.as_str()) {
        Ok(expected) if got == expected => return Ok(true),
        Ok(expected) => {
            println!(rt; "{place} {number}: expected {expected:?}, got {got:?}")?;
        }
        Err(misstep) => {
            println!(rt;
                "{place} {number}: expected {:?}, got {got:?}: {misstep}",
                day.expected
            )?;
        }
    }
    Ok(false)
}

// Judges each day of a file.
fn judge_file(rt: &HostRuntime, file: &str, tally: &mut Tally) -> anyhow::Result<()> {
    let lines = fs::read_to_string(rt, file).context(format_args!("cannot read {file}"))?;
    for (i, line) in lines.lines().enumerate() {
        let number = i.saturating_add(1);
        let day = Day::read(rt.alloc(), line).map_err(|fault| anyhow!(
            "{file} {number}: {fault:?}"
        ))?;
        tally.count(passes(rt, &day, file, number)?);
    }
    Ok(())
}

// Judges each long day.
fn judge_long_days(rt: &HostRuntime, tally: &mut Tally) -> anyhow::Result<()> {
    for (i, long) in long_days().iter().enumerate() {
        let day = long.day(rt.alloc())?;
        tally.count(passes(rt, &day, "long day", i.saturating_add(1))?);
    }
    Ok(())
}

// Judges every day and prints how many came out as expected.
fn run(rt: &HostRuntime) -> anyhow::Result<()> {
    let mut tally = Tally::new();
    for file in FILES {
        judge_file(rt, file, &mut tally)?;
    }
    judge_long_days(rt, &mut tally)?;
    println!(rt; "{tally}")?;
    Ok(())
}
