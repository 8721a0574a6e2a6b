// Prints what a journal on standard input holds, event by event; words on the command line choose the methods.
#![tactic(auto)]

use anyhow::Context;
use day::listing::{MOST_BYTES, listing};
use day::methods::method_named;
use std::env;
use std::io::{Read, Write};

fn main(rt: HostRuntime) -> anyhow::Result<()> {
    run(&rt)
}

// The methods that the command line names.
fn methods(rt: &HostRuntime) -> anyhow::Result<Vec<u16>> {
    env::args(rt)?
        .skip(1)
        .map(|word| {
            method_named(word.as_str()).context(format_args!("no method from 0 to 65535: {word}"))
        })
        .try_collect(rt.alloc())
}

// Lists the journal on standard input.
fn run(rt: &HostRuntime) -> anyhow::Result<()> {
    let methods = methods(rt)?;
    let chosen = (!methods.is_empty()).then_some(methods.as_slice());
    let mut bytes = Vec::new(rt.alloc());
    // One byte more than a journal may have, so that a longer one is told from it.
    rt.stdin()
        .take(MOST_BYTES as u64 + 1)
        .read_to_end(&mut bytes)?;
    let text = listing(rt.alloc(), &bytes, chosen)?;
    rt.stdout().write_all(&text)?;
    Ok(())
}
