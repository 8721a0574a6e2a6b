// The states and the book entries of the configurations at five positions; and what the deciding rule decides.
ghost use Rattle.std.specs.Prelude.{◌≡◌, ℕ, ◌≤◌, length, slice_index};

use crate::entry::Entry;
use crate::slot::Slot;

mod calls;

// Sixty-four places for each of five positions, of which the first `counts` are in use; whether more configurations came than may be.
// Kept plain tables of states and of entries, arrays of 320: a fixed form of the project, since a position's states are searched as one slice and a watch
// allocates nothing once it is made.
// Kept a flag for the spill, not an early return: moves that are still to be tried may reach `error`, which decides first.
#[derive(Clone, Copy)]
pub struct Front {
    pub states: [u8; 320],
    pub entries: [u16; 320],
    pub counts: [usize; 5],
    pub spilled: bool,
    ghost long: { length states ≡ 320 },
    ghost as_long: { length entries ≡ 320 },
    ghost few: { (k : ℕ) → slice_index counts k ≤ 64 },
}

// A configuration's state, and its entry in the book.
#[derive(Clone, Copy)]
pub struct Mark {
    pub state: u8,
    pub entry: u16,
}

// Where a run reaches `error`, and the last step of the run that is shown.
#[derive(Clone, Copy, Debug)]
pub struct Breach {
    pub position: usize,
    pub last: Entry,
}

// What the deciding rule decides: a run reaches `error`, a position has more configurations than it may have, or the book has too few entries.
#[derive(Clone, Copy, Debug)]
pub enum Decision {
    Breaks(Breach),
    Spills,
    Overfills,
}
