// Judges the day of the files of its folder as `daywatch` does, as often as it is told, and says how long one judged event took.
#![tactic(auto)]

use anyhow::Context;
use day::listing::MOST_BYTES;
use day::report::{MOST_CONSTANTS, report};
use judging::judge::judge;
use judging::outcome::Outcome;
use kinds::kind::Kind;
use kinds::labels::Labels;
use std::env;
use std::fs::File;
use std::io::{ErrorKind, Read, Write};
use std::time::Instant;

// The most bytes that so many values of constants take.
const MOST_CONSTANT_BYTES: usize = MOST_CONSTANTS * Labels::LONGEST;

fn main(rt: HostRuntime) -> anyhow::Result<()> {
    run(&rt)
}

// What a day is judged by.
#[derive(Drop)]
struct Day {
    text: Vec<u8>,
    journal: Vec<u8>,
    constants: Vec<u8>,
}

// The bytes of a file, of which no more than so many count, and none where there is no such file.
fn bytes_of(rt: &HostRuntime, path: &str, most: u64) -> anyhow::Result<Vec<u8>> {
    let mut bytes = Vec::new(rt.alloc());
    match File::open(rt, path) {
        Ok(file) => {
            file.take(most)
                .read_to_end(&mut bytes)
                .context(format_args!("cannot read {path}"))?;
        }
        Err(error) if error.kind() == ErrorKind::NotFound => {}
        Err(error) => return Err(error).context(format_args!("cannot open {path}")),
    }
    Ok(bytes)
}

// The day of property.txt, constants.bin and the journal on standard input.
fn read_day(rt: &HostRuntime) -> anyhow::Result<Day> {
    let text = bytes_of(rt, "property.txt", u64::MAX)?;
    let constants = bytes_of(rt, "constants.bin", MOST_CONSTANT_BYTES as u64)?;
    let mut journal = Vec::new(rt.alloc());
    // One byte more than a journal may have, so that a longer one is told from it.
    rt.stdin()
        .take(MOST_BYTES as u64 + 1)
        .read_to_end(&mut journal)?;
    Ok(Day {
        text,
        journal,
        constants,
    })
}

// How often the day is to be judged, if the command line says it.
fn rounds(rt: &HostRuntime) -> anyhow::Result<Option<u32>> {
    let Some(word) = env::args(rt)?.nth(1) else {
        return Ok(None);
    };
    let rounds = word
        .as_str()
        .parse()
        .ok()
        .context(format_args!("no count of rounds: {word}"))?;
    Ok(Some(rounds))
}

// How many events of the day are judged.
fn judged_events(rt: &HostRuntime, day: &Day) -> anyhow::Result<usize> {
    let outcome = judge(rt.alloc(), &day.text, &day.journal, &day.constants)?;
    Ok(match outcome {
        Outcome::Kept { judged } | Outcome::Broken { judged, .. } => judged,
        Outcome::Refused(refusal) => refusal.place,
    })
}

// Judges the day so many times: how many nanoseconds one event took.
fn nanoseconds(rt: &HostRuntime, day: &Day, rounds: u32) -> anyhow::Result<u128> {
    let events = judged_events(rt, day)?;
    let start = Instant::now(rt)?;
    for _ in 0..rounds {
        report(rt.alloc(), &day.text, &day.journal, &day.constants)?;
    }
    let spent = start.elapsed(rt)?.as_nanos();
    Ok(spent / u128::from(rounds.max(1)) / events.max(1) as u128)
}

// Prints the report of the day; and, where a count of rounds is given, how long an event took.
fn run(rt: &HostRuntime) -> anyhow::Result<()> {
    let day = read_day(rt)?;
    let out = report(rt.alloc(), &day.text, &day.journal, &day.constants)?;
    rt.stdout().write_all(&out)?;
    match rounds(rt)? {
        None => println!(rt; "rounds 1")?,
        Some(rounds) => {
            let spent = nanoseconds(rt, &day, rounds)?;
            println!(rt; "rounds {rounds}\nnanoseconds {spent}")?;
        }
    }
    Ok(())
}
