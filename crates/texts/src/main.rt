// Checks the first line that is printed of each text in texts.txt, texts whose first line is known.
#![tactic(auto)]

use anyhow::{Context, anyhow};
use day::check::first_line;
use std::fs::File;
use std::io::{BufRead, BufReader};
use vectors::day::Day;

// The file of the texts.
const PATH: &str = "texts.txt";

fn main(rt: HostRuntime) -> anyhow::Result<()> {
    run(&rt)
}

// Checks the text in the line of a number, and prints what differs; tells whether nothing does.
fn passes(rt: &HostRuntime, day: &Day, number: usize) -> anyhow::Result<bool> {
    let line = String::from_utf8(first_line(rt.alloc(), &day.text)?)?;
    let wanted = day.expected.as_str();
    if line.strip_suffix('\n') == Some(wanted) {
        return Ok(true);
    }
    println!(rt; "{PATH} {number}: expected {wanted}, got {line:?}")?;
    Ok(false)
}

// Checks every line of the file, and prints how many pass and fail.
fn run(rt: &HostRuntime) -> anyhow::Result<()> {
    let file = File::open(rt, PATH).context(format_args!("cannot open {PATH}"))?;
    let mut passed = 0u64;
    let mut failed = 0u64;
    for (i, written) in BufReader::new(rt.alloc(), file)?
        .lines(rt.alloc())
        .enumerate()
    {
        let number = i.saturating_add(1);
        let written = written?;
        let day = Day::read(rt.alloc(), written.as_str()).map_err(|fault| anyhow!(
            "{PATH} {number}: {fault:?}"
        ))?;
        if passes(rt, &day, number)? {
            passed = passed.saturating_add(1);
        } else {
            failed = failed.saturating_add(1);
        }
    }
    println!(rt; "{passed} passed, {failed} failed")?;
    Ok(())
}
