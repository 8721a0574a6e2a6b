// Where a reader stands, and the guard that puts it back.
ghost use Rattle.std.specs.Prelude.{◌≡◌, ◌+◌, ◌≤◌, drop, length, IfOk, OnErr};
ghost use Rattle.std.specs.Fn.{FnReturnsAt};
ghost use Rattle.sources.specs.Format.{moved};
ghost use Rattle.sources.specs.Steps.{told};

use kinds::refusal::{Fault, Refusal};

// A reader's bytes and its place in them.
#[derive(Clone, Copy)]
pub struct Place<'a> {
    pub(crate) bytes: &'a [u8],
    pub at: usize,
    ghost within: { at ≤ length bytes.now },
}

impl Place<'_> {
    // What a reading finds at the place, which then moves past it; a fault is placed there, and nothing moves.
    // Kept a closure for each reading: a function by its name "does not fit the bound `Fn` yet", says the checker.
    pub(crate) fn take<V: Copy, R: Fn(&[u8]) -> Result<(V, usize), Fault>>(
        &mut self,
        read: R,
    ) -> Result<V, Refusal>
        requires callable { R.IsAlwaysCallable read }
        requires short { (s : _) (r : _) → R.post read s r → IfOk r (λ t. t.1 ≤ length s.now) }
        ensures tells { (r : _) × FnReturnsAt R.Fn read (drop self.old.at self.old.bytes.now) r × (told result self.new.at ≡ moved self.old.at r) }
        ensures stays { OnErr result (self.new.at ≡ self.old.at) }
        ensures same { self.new.bytes ≡ self.old.bytes }
    {
        let start = self.at;
        let (value, count) = read(&self.bytes[start..]).map_err(|fault| fault.at(start))?;
        self.at += count;
        Ok(value)
    }
}

// Puts the reader back to where a record starts, unless the record is accepted.
pub(crate) struct Guard<'a, 'b> {
    pub(crate) place: &'a mut Place<'b>,
    pub(crate) start: usize,
    ghost back: { start ≤ length place.now.bytes.now },
}

impl Guard<'_, '_> {
    // The record is accepted: the reader stays where it is.
    pub(crate) fn accept(self)
        ensures { self.exit.0.now ≡ self.entry.place.now }
    {
        let Guard { place: _, start: _ } = self;
    }
}

impl Drop for Guard<'_, '_> {
    fn drop(self)
        ensures back { self.exit.0.now.at ≡ self.entry.start }
        ensures same { self.exit.0.now.bytes ≡ self.entry.place.now.bytes }
    {
        self.place.at = self.start;
        let Guard { place: _, start: _ } = self;
    }
}
