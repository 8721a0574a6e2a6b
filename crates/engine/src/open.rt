// What the rows hold before the first event.
ghost use Rattle.std.specs.Prelude.{◌≡◌, ◌*◌, ◌≤◌, [], map, length, replicate, vec_len};
ghost use Rattle.topl.specs.Table.{Table as TheTable};
ghost use Rattle.topl.specs.Ledger.{sets, initial};
ghost use Rattle.engine.specs.Trails.{room_of};
ghost use Rattle.engine.specs.States.{Follows};
ghost use Rattle.tables.specs.Views.{number};

use crate::front::Front;
use crate::row::put_configuration;
use crate::slot::Slot;
use crate::state::State;
use kinds::kind::Kind;
use tables::parts::Register;
use topl::states::START;

// The registers at the start: the constants in theirs, and nothing in the others.
fn start_registers<K: Kind>(constants: &[Register], values: &[K::Value]) -> [K::Value; 8]
    requires { length constants.now ≡ length values.now }
    ensures are { map K.Kind.class result ≡ sets (replicate 8 []) (map number constants.now) (map K.Kind.class values.now) }
    ensures eight { length result ≡ 8 }
{
    let mut registers = [K::nothing(); 8];
    for (r, v) in constants.iter().zip(values) {
        registers[r.place()] = *v;
    }
    registers
}

// Begins anew with so many configurations allowed at a position: one configuration at position 0, in `start`, by no step.
pub(crate) fn open_rows<K: Kind>(
    s: &mut State<K::Value>,
    constants: &[Register],
    values: &[K::Value],
    cap: usize,
)
    requires { (length constants.now ≡ length values.now) × (1 ≤ cap) × (cap ≤ 64)
        × (40 * cap ≤ vec_len s.old.grid.board) × (1 ≤ room_of s.old.grid.book.entries.items) }
    ensures cap { s.new.grid.cap ≡ cap }
    ensures board { vec_len s.new.grid.board ≡ vec_len s.old.grid.board }
    ensures book { s.new.grid.book.entries.items ≡ s.old.grid.book.entries.items }
    ensures follows { (P : TheTable) → P.constants ≡ map number constants.now → Follows K.Kind.class s.new P (initial P (map K.Kind.class values.now)) [] }
{
    let registers = start_registers::<K>(constants, values);
    let slot = Slot::of(0);
    s.window.seen = 0;
    let grid = &mut s.grid;
    grid.cap = cap;
    grid.front = Front::new();
    put_configuration(grid, slot, 0, &registers);
    grid.front.add(slot, START, 0);
    grid.book.begin();
}
