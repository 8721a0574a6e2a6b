// What the statements of a table are made of.
ghost use Rattle.std.specs.Prelude.{◌≡◌, ◌<◌, ◌≤◌, length};
ghost use Rattle.tables.specs.Few.{few_items};

use crate::few::Few;
use topl::pattern::Pattern;

// One of the eight registers.
#[derive(Clone, Copy)]
pub struct Register {
    at: u8,
    ghost eight: { at < 8 },
}

impl Register {
    // The register at a place among the eight.
    pub(crate) fn at(place: usize) -> Register
        requires { place < 8 }
        ensures { result.at ≡ place }
    {
        Register { at: place as u8 }
    }

    // Its place among the eight.
    pub fn place(self) -> usize
        ensures is { result ≡ self.at }
        ensures eight { result < 8 }
    {
        usize::from(self.at)
    }
}

// An event of this id whose places from 0 on fit the patterns.
#[derive(Clone, Copy)]
pub struct Guard {
    pub id: u32,
    pub patterns: Few<Pattern<Register>, 6>,
    ghost six: { length (few_items patterns) ≤ 6 },
}

// What one event has to meet: nothing at all, or a guard.
// Kept an enum of its own: the None of an Option would read as a matcher that nothing meets.
#[derive(Clone, Copy)]
pub enum Matcher {
    Any,
    Event(Guard),
}

// A statement: from one state to another over one to four events.
#[derive(Clone, Copy)]
pub struct Statement {
    pub source: u8,
    pub target: u8,
    pub events: Few<Matcher, 4>,
    ghost some: { 1 ≤ length (few_items events) },
    ghost few: { length (few_items events) ≤ 4 },
}
