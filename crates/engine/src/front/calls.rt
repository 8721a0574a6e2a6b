// What is read of the front, and written.
ghost use Rattle.std.specs.Prelude.{◌≡◌, ℕ, ◌+◌, ◌*◌, ◌<◌, ◌≤◌, length, slice_index};
ghost use Rattle.engine.specs.Fronts.{Added, Bare, Cleared, states_at};

use crate::front::{Front, Mark};
use crate::slot::Slot;

impl Front {
    // No configuration at any position.
    pub(crate) fn new() -> Front
        ensures { Bare result }
    {
        Front {
            states: [0; 320],
            entries: [0; 320],
            counts: [0; 5],
            spilled: false,
        }
    }

    // How many configurations a position has.
    pub(crate) fn count_at(&self, slot: Slot) -> usize
        ensures is { result ≡ slice_index self.now.counts slot.at }
        ensures few { result ≤ 64 }
    {
        self.counts[slot.at]
    }

    // The states at a position.
    pub(crate) fn states_of(&self, slot: Slot) -> &[u8]
        ensures are { result.now ≡ states_at self.now slot.at }
        ensures long { length result.now ≡ slice_index self.now.counts slot.at }
    {
        let from = 64 * slot.at;
        let to = from + self.count_at(slot);
        &self.states[from..to]
    }

    // The state and the entry of configuration i of a position.
    pub(crate) fn mark_at(&self, slot: Slot, i: usize) -> Mark
        requires { i < 64 }
        ensures { result ≡ record { state = slice_index self.now.states (64 * slot.at + i); entry = slice_index self.now.entries (64 * slot.at + i) } }
    {
        Mark {
            state: self.states[64 * slot.at + i],
            entry: self.entries[64 * slot.at + i],
        }
    }

    // Takes all configurations from a position.
    pub(crate) fn clear(&mut self, slot: Slot)
        ensures { Cleared self.old self.new slot.at }
    {
        self.counts[slot.at] = 0;
    }

    // One configuration more at a position that has room: its state, and its entry in the book.
    pub(crate) fn add(&mut self, slot: Slot, state: u8, entry: u16)
        requires { slice_index self.old.counts slot.at < 64 }
        ensures { Added self.old self.new slot.at state entry }
    {
        let count = self.count_at(slot);
        self.states[64 * slot.at + count] = state;
        self.entries[64 * slot.at + count] = entry;
        self.counts[slot.at] = count + 1;
    }
}
