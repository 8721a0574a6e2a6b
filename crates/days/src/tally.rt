// How many days came out as expected.
use std::fmt;

// So many did, and so many did not.
#[derive(Clone, Copy)]
pub(crate) struct Tally {
    passed: u64,
    failed: u64,
}

impl Tally {
    // Before the first day.
    pub(crate) fn new() -> Tally {
        Tally {
            passed: 0,
            failed: 0,
        }
    }

    // Counts a day.
    pub(crate) fn count(&mut self, passed: bool) {
        let count = if passed {
            &mut self.passed
        } else {
            &mut self.failed
        };
        *count = count.saturating_add(1);
    }
}

impl fmt::Display for Tally {
    fn fmt<W: fmt::Write>(&self, f: &mut fmt::Formatter<W>) -> fmt::Result {
        write!(f, "{} passed, {} failed", self.passed, self.failed)
    }
}
