// Faults by number and place, and which of two comes first.
ghost use Rattle.std.specs.Prelude.{◌≡◌, ℕ, ◌<◌, ◌≤◌, ◌⊎◌, Decides};
ghost use Rattle.forms.specs.Forms.{Before};

use std::fmt;

// A fault that was found: its place and its number. Findings are ordered by place, and at one place by number.
// Kept a number for the fault: faults of any language are ordered here, each language has reasons of its own, and the definition Before compares their numbers.
#[derive(Clone, Copy, PartialEq, Eq, PartialOrd, Ord)]
pub struct Finding {
    pub place: usize,
    pub number: u8,
}

impl Finding {
    // Whether this fault decides before another: it lies lower, or as low with a number no higher.
    pub fn before(self, other: Finding) -> bool
        ensures { Decides result (Before self.number self.place other.number other.place) }
    {
        self <= other
    }
}

// Kept written by hand: the order needs the place as the first field, and people read the number first.
impl fmt::Debug for Finding {
    fn fmt<W: fmt::Write>(&self, f: &mut fmt::Formatter<W>) -> fmt::Result {
        f.debug_struct("Finding")
            .field("number", &self.number)
            .field("place", &self.place)
            .finish()
    }
}
