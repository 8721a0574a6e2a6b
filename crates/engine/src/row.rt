// Rows of configurations: states and entries on the front, registers on the board.
ghost use Rattle.std.specs.Prelude.{◌≡◌, ℕ, ◌+◌, ◌*◌, ◌<◌, ◌≤◌, [], length, take, drop, slice_index, slice_index_or, vec_len};
ghost use Rattle.topl.specs.Lists.{holds};
ghost use Rattle.topl.specs.Runs.{alikeᶜ, first_configuration};
ghost use Rattle.engine.specs.Fronts.{stands_for, row, stored, count_at, entries_at};
ghost use Rattle.engine.specs.Grids.{row_of, ArrivesAt};

use crate::configuration::{Configuration, Entered};
use crate::entry::Entry;
use crate::grid::Grid;
use crate::slot::Slot;
use kinds::kind::Kind;

// Does a row hold a configuration, that is one of its state with registers of the same classes?
pub(crate) fn find<K: Kind>(states: &[u8], values: &[K::Value], c: &Configuration<K::Value>) -> bool
    requires { 8 * length states.now ≤ length values.now }
    ensures { result ≡ holds alikeᶜ (row K.Kind.class states.now values.now) (stands_for K.Kind.class c.now) }
{
    // Kept a nested search left by a label: a fixed form of the project, since the first register that differs ends the look at its configuration alone.
    // Kept an index for the values: with a `zip` over `chunks_exact(8)` the goal `returns-in-configurations` stays open.
    'configurations: for (i, s) in states.iter().enumerate() {
        if *s != c.state {
            continue 'configurations;
        }
        for (r, value) in c.registers.iter().enumerate() {
            if !K::same(value, &values[8 * i + r]) {
                continue 'configurations;
            }
        }
        return true;
    }
    false
}

// Where a position's part of the board starts.
fn start<V>(grid: &Grid<V>, slot: Slot) -> usize
    ensures at { result ≡ slot.at * (8 * grid.now.cap) }
    ensures within { result + 8 * grid.now.cap ≤ 40 * grid.now.cap }
{
    slot.at * (8 * grid.cap)
}

// A position's part of the board.
fn part_of<V: Copy>(grid: &Grid<V>, slot: Slot) -> &[V]
    ensures is { result.now ≡ take (8 * grid.now.cap) (drop (slot.at * (8 * grid.now.cap)) grid.now.board.items) }
    ensures long { length result.now ≡ 8 * grid.now.cap }
{
    let from = start(grid, slot);
    let to = from + 8 * grid.cap;
    &grid.board[from..to]
}

// Writes some values over a part, from a place on.
pub(crate) fn write_at<V: Copy>(part: &mut [V], from: usize, values: &[V])
    requires { from + length values.now ≤ length part.old }
    ensures { part.new ≡ stored part.old from values.now }
{
    let to = from + values.len();
    let place = &mut part[from..to];
    place.copy_from_slice(values);
}

// Writes the registers of configuration i of a position.
// Kept the position's part of the board lent on to be written: a fixed form of the project, so that no other position's registers are in reach of the write.
pub(crate) fn put_configuration<V: Copy>(
    grid: &mut Grid<V>,
    slot: Slot,
    i: usize,
    registers: &[V; 8],
)
    requires { i < grid.old.cap }
    ensures written { grid.new.board.items ≡ stored grid.old.board.items (slot.at * (8 * grid.old.cap) + 8 * i) registers.now }
    ensures board { vec_len grid.new.board ≡ vec_len grid.old.board }
    ensures others { (grid.new.front ≡ grid.old.front) × (grid.new.book ≡ grid.old.book) × (grid.new.cap ≡ grid.old.cap) }
{
    let from = start(grid, slot);
    let to = from + 8 * grid.cap;
    let part = &mut grid.board[from..to];
    write_at(part, 8 * i, registers);
}

// The registers of configuration i of a position.
fn registers_at<K: Kind>(grid: &Grid<K::Value>, slot: Slot, i: usize) -> [K::Value; 8]
    requires { i < grid.now.cap }
    ensures are { result ≡ take 8 (drop (8 * i) (drop (slot.at * (8 * grid.now.cap)) grid.now.board.items)) }
    ensures eight { length result ≡ 8 }
{
    let from = start(grid, slot) + 8 * i;
    let to = from + 8;
    let mut held = [K::nothing(); 8];
    held.copy_from_slice(&grid.board[from..to]);
    held
}

// Configuration i of a position, with its entry.
pub(crate) fn entered_at<K: Kind>(grid: &Grid<K::Value>, slot: Slot, i: usize) -> Entered<K::Value>
    requires { i < count_at grid.now.front slot.at }
    ensures stands { stands_for K.Kind.class result.configuration ≡ slice_index_or (row_of K.Kind.class grid.now slot.at) i (first_configuration []) }
    ensures entry { result.entry ≡ slice_index (entries_at grid.now.front slot.at) i }
    ensures known { result.entry < grid.now.book.used }
{
    let mark = grid.front.mark_at(slot, i);
    let registers = registers_at::<K>(grid, slot, i);
    Entered {
        configuration: Configuration::new(mark.state, registers),
        entry: mark.entry,
    }
}

// The position has as many configurations as it may have.
#[derive(Clone, Copy)]
pub(crate) struct Crowded;

// A configuration comes to a position, by a step from an entry: unless the position holds it, it is added and entered.
pub(crate) fn arrive<K: Kind>(
    grid: &mut Grid<K::Value>,
    slot: Slot,
    from: Entry,
    c: &Configuration<K::Value>,
) -> Result<(), Crowded>
    requires { from.parent < grid.old.book.used }
    ensures arrives { ArrivesAt K.Kind.class slot.at from (stands_for K.Kind.class c.now) grid.old grid.new result }
    ensures cap { grid.new.cap ≡ grid.old.cap }
    ensures board { vec_len grid.new.board ≡ vec_len grid.old.board }
{
    let count = grid.front.count_at(slot);
    if find::<K>(grid.front.states_of(slot), part_of(grid, slot), c) {
        return Ok(());
    }
    if count >= grid.cap {
        return Err(Crowded);
    }
    put_configuration(grid, slot, count, &c.registers);
    let entry = grid.book.enter(from);
    grid.front.add(slot, c.state, entry);
    Ok(())
}
