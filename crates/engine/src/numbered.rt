// Statements with their numbers, and how they fare.
ghost use Rattle.std.specs.Prelude.{◌≤◌, length};

use tables::parts::Matcher;

// A statement with its number.
// Kept apart from `Statement`: it borrows the matchers, so that none is copied where a statement is tried.
#[derive(Clone, Copy)]
pub struct Numbered<'a> {
    pub number: u8,
    pub source: u8,
    pub target: u8,
    pub events: &'a [Matcher],
    ghost some: { 1 ≤ length events.now },
    ghost few: { length events.now ≤ 4 },
}

// How a statement fares on the events that come next: where it passes, with the registers that it leaves.
#[derive(Clone, Copy)]
pub enum Outcome<V> {
    Passes([V; 8]),
    Fails,
    Hangs,
}
