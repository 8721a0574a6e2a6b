// The book: for each configuration that was reached the entry that it was reached from, and the step.
ghost use Rattle.std.specs.Prelude.{◌≡◌, ℕ, ◌+◌, ◌<◌, ◌≤◌, min, [], ◌∷◌, ◌++◌, length, drop, vec_len};
ghost use Rattle.engine.specs.Trails.{Linked, steps_to, room_of, Enters};

use crate::entry::Entry;

// So many entries count at most, and so many events are judged: each has a position, and each position an entry.
pub const MOST_ENTRIES: usize = 16_384;

// The first `used` entries count. Entry 0 is the start; every other comes after its parent.
// Kept a count of the entries in use, which name their parents by number: the vector is handed over at its full length, and nothing is allocated or
// freed afterwards.
#[derive(Drop)]
pub struct Book {
    pub(crate) entries: Vec<Entry>,
    pub(crate) used: usize,
    ghost within: { used ≤ min (vec_len entries) 16384 },
    ghost linked: { Linked entries.items used },
}

impl Book {
    // A book over entries of any content, none of which counts.
    pub(crate) fn new(entries: Vec<Entry>) -> Book
        ensures entries { result.entries ≡ entries }
        ensures used { result.used ≡ 0 }
    {
        Book { entries, used: 0 }
    }

    // How many entries may count.
    pub(crate) fn room(&self) -> usize
        ensures { result ≡ room_of self.now.entries.items }
    {
        self.entries.len().min(MOST_ENTRIES)
    }

    // Begins the book anew with the entry of the start, if there is room for one.
    pub(crate) fn begin(&mut self)
        ensures entries { self.new.entries ≡ self.old.entries }
        ensures used { self.new.used ≡ min 1 (room_of self.old.entries.items) }
    {
        self.used = self.room().min(1);
    }

    // One entry more, if there is room: its number; else its parent's.
    // Kept a number in both cases, not an Option: its one caller gives the front an entry either way, and a position that the book has no room for is
    // refused later.
    pub(crate) fn enter(&mut self, from: Entry) -> u16
        requires { from.parent < self.old.used }
        ensures { Enters self.old.entries.items self.old.used from self.new.entries.items self.new.used result }
    {
        let at = self.used;
        if at >= self.room() {
            return from.parent;
        }
        self.entries[at] = from;
        self.used = at + 1;
        // Kept `as`: it is less than 16,384, so `try_from` would have an error case that cannot come.
        at as u16
    }

    // How many steps lead from the start to an entry.
    pub(crate) fn depth(&self, entry: u16) -> usize
        requires { 0 < entry → entry < self.now.used }
        ensures { result ≡ length (steps_to self.now.entries.items entry) }
    {
        // Kept a counted walk: with `successors`, `take_while` and `count` the goals `count-requires-clause-can` and `-finite` stay open.
        let mut at = entry;
        let mut count = 0;
        while at != 0 {
            count += 1;
            at = self.entries[usize::from(at)].parent;
        }
        count
    }

    // Writes the steps that lead to an entry into the front of a page that has room for them.
    pub(crate) fn write(&self, entry: u16, page: &mut [u8])
        requires { (0 < entry → entry < self.now.used) × (length (steps_to self.now.entries.items entry) ≤ length page.old) }
        ensures { page.new ≡ steps_to self.now.entries.items entry ++ drop (length (steps_to self.now.entries.items entry)) page.old }
    {
        // Kept a counted walk: after a write through `iter_mut` the checker knows a page's length and not its elements, so its steps could not be promised.
        let mut at = entry;
        let mut left = self.depth(entry);
        while at != 0 {
            left -= 1;
            let line = self.entries[usize::from(at)];
            page[left] = line.step;
            at = line.parent;
        }
    }
}
