// Judges the day of the journal on standard input by the property in property.txt, with the values of its constants in constants.bin.
#![tactic(auto)]

use anyhow::Context;
use day::listing::MOST_BYTES;
use day::report::{MOST_CONSTANTS, report};
use kinds::kind::Kind;
use kinds::labels::Labels;
use std::fs::File;
use std::io::{ErrorKind, Read, Write};

// The most bytes that so many values of constants take.
const MOST_CONSTANT_BYTES: usize = MOST_CONSTANTS * Labels::LONGEST;

fn main(rt: HostRuntime) -> anyhow::Result<()> {
    run(&rt)
}

// The bytes of a file, of which no more than so many count, and none where there is no such file.
fn bytes_of(rt: &HostRuntime, path: &str, most: u64) -> anyhow::Result<Vec<u8>> {
    let mut bytes = Vec::new(rt.alloc());
    match File::open(rt, path) {
        Ok(file) => {
            file.take(most)
                .read_to_end(&mut bytes)
                .context(format_args!("cannot read {path}"))?;
        }
        Err(error) if error.kind() == ErrorKind::NotFound => {}
        Err(error) => return Err(error).context(format_args!("cannot open {path}")),
    }
    Ok(bytes)
}

// Prints the report of the day.
fn run(rt: &HostRuntime) -> anyhow::Result<()> {
    let text = bytes_of(rt, "property.txt", u64::MAX)?;
    let constants = bytes_of(rt, "constants.bin", MOST_CONSTANT_BYTES as u64)?;
    let mut journal = Vec::new(rt.alloc());
    // One byte more than a journal may have, so that a longer one is told from it.
    rt.stdin()
        .take(MOST_BYTES as u64 + 1)
        .read_to_end(&mut journal)?;
    let out = report(rt.alloc(), &text, &journal, &constants)?;
    rt.stdout().write_all(&out)?;
    Ok(())
}
