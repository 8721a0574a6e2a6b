// Why a watch refuses.

ghost use Rattle.std.specs.Prelude.{◌≡◌};
ghost use Rattle.kinds.specs.Refusals.{watch_number};

// The reasons that only a watch has.
#[derive(Clone, Copy, PartialEq, Eq, Debug)]
pub enum WatchReason {
    // a feed, a draw or a close before any begin
    NotBegun = 20,
    // a begin after another
    BegunAlready = 21,
    // the cap is 0 or over 64
    BadCap = 22,
    // the count of constants differs from the property's
    OtherConstants = 23,
    // the board is short or the book is empty
    SmallBoard = 24,
    // a call of a declared method has another count of values than its arity
    OtherArity = 30,
    // the phase is broken
    IsBroken = 31,
    // the phase is spilled, or becomes so by this call
    IsSpilled = 32,
    // the phase is full, or becomes so by this call
    IsFull = 33,
    // the phase is kept
    IsKept = 34,
    // a path is asked and the phase is not broken
    NotBroken = 40,
    // the path has more steps than the page has bytes
    SmallPage = 41,
}

impl WatchReason {
    // The reason's number, as it is printed.
    pub fn number(self) -> u8
        ensures { result ≡ watch_number self }
    {
        self as u8
    }
}
