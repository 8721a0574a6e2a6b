// A table of methods.
ghost use Rattle.std.specs.Prelude.{◌≤◌};

pub mod table;

// The most methods that a table has.
pub(crate) const MOST_METHODS: usize = 32;

// Some methods; the numbers past the count mean nothing.
// Kept an array and a count: this public type is `Copy`, which its callers may use, and an `ArrayVec` is not.
#[derive(Clone, Copy)]
pub struct Methods {
    numbers: [u16; MOST_METHODS],
    count: usize,
    ghost few: { count ≤ 32 },
}
