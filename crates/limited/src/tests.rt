// What the tests share. The expected lines are worked out by hand from the rules of property texts.
use day::check::{check, first_line};
use std::alloc::Global;
use std::process::Abort;
use std::test::Fail;

mod built;
mod lines;
mod outputs;
mod told;

// The first line of a text is this one.
fn says(rt: &impl Abort, heap: Global, text: &str, line: &str) -> Result<(), Fail> {
    let got = String::from_utf8(first_line(heap, text.as_bytes())?)?;
    assert_eq!(rt; got.strip_suffix('\n'), Some(line), "{text}");
    Ok(())
}

// All that is printed of a text is this.
fn prints(rt: &impl Abort, heap: Global, text: &str, all: &str) -> Result<(), Fail> {
    let got = String::from_utf8(check(heap, text.as_bytes())?)?;
    assert_eq!(rt; got.as_str(), all, "{text}");
    Ok(())
}
