// The places of the positions.
ghost use Rattle.std.specs.Prelude.{◌≡◌, ◌%◌, ◌<◌};

// The place of a position among the five that are kept.
#[derive(Clone, Copy)]
pub(crate) struct Slot {
    pub(crate) at: usize,
    ghost five: { at < 5 },
}

impl Slot {
    // The place of position p: five positions on, it is another's.
    pub(crate) fn of(p: usize) -> Slot
        ensures { result.at ≡ p % 5 }
    {
        Slot { at: p % 5 }
    }
}
