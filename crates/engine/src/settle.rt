// The deciding rule on what a watch holds.
ghost use Rattle.std.specs.Prelude.{◌≡◌, ◌+◌, ◌≤◌, List, drop};
ghost use Rattle.topl.specs.Table.{Event as Happening};
ghost use Rattle.topl.specs.Runs.{Registers, World};
ghost use Rattle.tables.specs.Meant.{meant};
ghost use Rattle.engine.specs.Modes.{mode_of};
ghost use Rattle.engine.specs.Grids.{grid_of};
ghost use Rattle.engine.specs.Fills.{Since};
ghost use Rattle.engine.specs.Judging.{StartsAt, DecidedBy};
ghost use Rattle.engine.specs.Windows.{Remembers};
ghost use Rattle.engine.specs.States.{Stays};

use crate::front::Decision;
use crate::judge::judge;
use crate::mode::Mode;
use crate::scene::Scene;
use crate::state::State;
use kinds::kind::Kind;
use tables::table::Table;

// What the events of the window come to, from position `base` on, where so many events were judged before.
pub(crate) fn settle<K: Kind>(
    s: &mut State<K::Value>,
    table: &Table,
    mode: Mode,
    base: usize,
    judged: usize,
) -> Result<(), Decision>
    requires { base ≤ 16384 }
    ensures stays { Stays s.old s.new result }
    ensures window { s.new.window ≡ s.old.window }
    ensures decides { (k : Registers) (L : List Happening) (w : World) → w.mode ≡ mode_of mode
        → Remembers K.Kind.class s.old.window (drop base w.events)
        → Since K.Kind.class s.old.grid.cap s.old.grid.front.counts judged (grid_of s.old.grid) base (base + s.old.window.seen) (meant table.now) k L w
        → StartsAt K.Kind.class base (base + s.old.window.seen) (meant table.now) k L w s.old.grid
        → DecidedBy K.Kind.class base (base + s.old.window.seen) (meant table.now) k L w s.old.grid s.new.grid result }
{
    let before = s.grid.front.counts;
    let window = &s.window;
    let seen = window.seen;
    let events = &window.events[..seen];
    let scene = Scene {
        statements: table.statements(),
        base,
        events,
        mode,
        judged,
        before: &before,
    };
    judge::<K>(&mut s.grid, &scene)
}
