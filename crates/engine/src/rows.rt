// The rows and the book of a watch, for any caller.
ghost use Rattle.std.specs.Prelude.{◌≡◌, ℕ, ◌<◌, List, [], ◌∷◌, ◌++◌, map, length, vec_len, Ok};
ghost use Rattle.topl.specs.Table.{Event as Happening};
ghost use Rattle.topl.specs.Runs.{Registers, so_far, closing};
ghost use Rattle.topl.specs.Theorems.{Steady, seen as shown};
ghost use Rattle.engine.specs.Trails.{room_of, steps_by, Written};
ghost use Rattle.tables.specs.Meant.{meant};
ghost use Rattle.engine.specs.States.{Follows, ComesTo, Stays};
ghost use Rattle.engine.specs.Opening.{Opens};

use crate::book::{Book, MOST_ENTRIES};
use crate::entry::Entry;
use crate::front::{Decision, Front};
use crate::grid::Grid;
use crate::mode::Mode;
use crate::open::open_rows;
use crate::remember::{forget, witness};
use crate::settle::settle;
use crate::slot::Slot;
use crate::state::State;
use crate::window::{Window, Witnessed};
use kinds::kind::Kind;
use tables::table::Table;

// The table, the values, the cap, the board and the book do not suit each other.
#[derive(Clone, Copy, Debug)]
pub struct Unsuited;

// What a watch keeps of the runs.
#[derive(Drop)]
pub struct Rows<K: Kind> {
    pub(crate) state: State<K::Value>,
}

impl<K: Kind> Rows<K> {
    // No row yet, over a board and a book of any content and length.
    pub fn new(board: Vec<K::Value>, entries: Vec<Entry>) -> Self
        ensures board { result.state.grid.board ≡ board }
        ensures book { result.state.grid.book.entries ≡ entries }
    {
        let grid = Grid {
            front: Front::new(),
            board,
            book: Book::new(entries),
            cap: 0,
        };
        let blank = Witnessed {
            id: 0,
            places: [K::nothing(); 6],
        };
        let window = Window {
            events: [blank; 4],
            seen: 0,
        };
        Rows {
            state: State { grid, window },
        }
    }

    // How many values the board has.
    pub fn board_len(&self) -> usize
        ensures { result ≡ vec_len self.now.state.grid.board }
    {
        self.state.grid.board.len()
    }

    // How many entries the book has.
    pub fn book_len(&self) -> usize
        ensures { result ≡ length self.now.state.grid.book.entries.items }
    {
        self.state.grid.book.entries.len()
    }

    // Begins with a table, its constants' values and a cap, if they fit each other, the board and the book.
    pub fn open(&mut self, table: &Table, values: &[K::Value], cap: usize) -> Result<(), Unsuited>
        ensures { Opens K.Kind.class self.old.state self.new.state (meant table.now) values.now cap result }
    {
        let constants = table.constants();
        if cap == 0 || cap > 64 || constants.len() != values.len() {
            return Err(Unsuited);
        }
        if self.state.grid.board.len() < 40 * cap || self.state.grid.book.room() == 0 {
            return Err(Unsuited);
        }
        open_rows::<K>(&mut self.state, constants, values, cap);
        Ok(())
    }

    // One event more after so many judged ones: the rows of the positions from judged - 2 to judged + 1 are filled in order, by moves from judged - 3 on.
    pub fn take_event(
        &mut self,
        table: &Table,
        judged: usize,
        id: u32,
        values: &[K::Value],
    ) -> Result<(), Decision>
        ensures stays { Stays self.old.state self.new.state result }
        ensures rules { (k : Registers) (L : List Happening)
            → Steady (meant table.now) k self.old.state.grid.cap (room_of self.old.state.grid.book.entries.items) L
            → judged ≡ length L
            → Follows K.Kind.class self.old.state (meant table.now) k L
            → ComesTo self.old.state self.new.state (meant table.now) k L (so_far (L ++ shown K.Kind.class id values.now ∷ [])) result
            × (result ≡ Ok tt → Follows K.Kind.class self.new.state (meant table.now) k (L ++ shown K.Kind.class id values.now ∷ [])) }
    {
        let judged = judged.min(MOST_ENTRIES);
        let state = &mut self.state;
        forget::<K>(&mut state.window);
        witness::<K>(&mut state.window, id, values);
        state.grid.front.clear(Slot::of(judged + 1));
        settle::<K>(
            state,
            table,
            Mode::Settled,
            judged.saturating_sub(3),
            judged,
        )
    }

    // The list has ended after so many judged events.
    pub fn end_list(&mut self, table: &Table, judged: usize) -> Result<(), Decision>
        ensures stays { Stays self.old.state self.new.state result }
        ensures rules { (k : Registers) (L : List Happening)
            → Steady (meant table.now) k self.old.state.grid.cap (room_of self.old.state.grid.book.entries.items) L
            → judged ≡ length L
            → Follows K.Kind.class self.old.state (meant table.now) k L
            → ComesTo self.old.state self.new.state (meant table.now) k L (closing L) result }
    {
        let judged = judged.min(MOST_ENTRIES);
        let state = &mut self.state;
        forget::<K>(&mut state.window);
        settle::<K>(state, table, Mode::Closed, judged.saturating_sub(3), judged)
    }

    // Writes the steps of a run into the front of a page and tells their count: those that lead to an entry of the book, and one more.
    pub fn path(&self, from: Entry, page: &mut [u8]) -> Option<usize>
        ensures { Written (from.parent < self.now.state.grid.book.used) (steps_by self.now.state.grid.book.entries.items from) page.old page.new result }
    {
        let parent = from.parent;
        if usize::from(parent) >= self.state.grid.book.used {
            return None;
        }
        let before = self.state.grid.book.depth(parent);
        if before >= page.len() {
            return None;
        }
        self.state.grid.book.write(parent, page);
        page[before] = from.step;
        Some(before + 1)
    }
}
