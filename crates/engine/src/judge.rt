// The deciding rule, position by position.
ghost use Rattle.std.specs.Prelude.{◌≡◌, ℕ, ◌+◌, ◌%◌, ◌<◌, List, length, vec_len, Err};
ghost use Rattle.topl.specs.Table.{Event as Happening, Table as TheTable};
ghost use Rattle.topl.specs.Runs.{Registers, World};
ghost use Rattle.engine.specs.declared.front.Breach as B;
ghost use Rattle.engine.specs.declared.front.Decision.TheVariants.{Breaks};
ghost use Rattle.engine.specs.Fills.{ReadyFor, Since, SinceAt, Keeps, Watched, shown_entry};
ghost use Rattle.engine.specs.Grids.{grid_of};
ghost use Rattle.engine.specs.Judging.{Balance, JudgedAt, StartsAt, DecidedBy};

use crate::fill::fill_position;
use crate::front::Decision;
use crate::grid::Grid;
use crate::scene::{Position, Scene};
use crate::slot::Slot;
use kinds::kind::Kind;

// Fills a position, and rules on it: `error` first, then the cap, then the book.
fn judge_position<K: Kind>(
    grid: &mut Grid<K::Value>,
    position: &Position<'_, K::Value>,
) -> Result<(), Decision>
    ensures safe { Keeps position.now grid.old grid.new (shown_entry result) }
    ensures rules { (P : TheTable) (k : Registers) (L : List Happening) (w : World) → Watched K.Kind.class position.now.scene.now P w
        → ReadyFor K.Kind.class position.now P k L w grid.old
        → Balance grid.old.book.used position.now.number P k L w
        → SinceAt K.Kind.class position.now P k L w grid.old
        → JudgedAt K.Kind.class position.now P k L w grid.old grid.new result }
{
    let slot = Slot::of(position.number);
    let used = grid.book.used;
    let before = grid.front.count_at(slot);
    fill_position::<K>(grid, position)?;
    let after = grid.front.count_at(slot);
    let need = (used + after).saturating_sub(before);
    if grid.book.room() < need {
        return Err(Decision::Overfills);
    }
    Ok(())
}

// Goes through the scene's positions, lowest first, up to one at which something is decided.
pub(crate) fn judge<K: Kind>(
    grid: &mut Grid<K::Value>,
    scene: &Scene<'_, K::Value>,
) -> Result<(), Decision>
    ensures cap { grid.new.cap ≡ grid.old.cap }
    ensures board { vec_len grid.new.board ≡ vec_len grid.old.board }
    ensures long { length grid.new.book.entries.items ≡ length grid.old.book.entries.items }
    ensures known { (b : B.Breach) → result ≡ Err (Breaks b) → b.last.parent < grid.new.book.used }
    ensures decides { (P : TheTable) (k : Registers) (L : List Happening) (w : World) → Watched K.Kind.class scene.now P w
        → Since K.Kind.class grid.old.cap scene.now.before.now scene.now.judged (grid_of grid.old) scene.now.base (scene.now.base + length scene.now.events.now) P k L w
        → StartsAt K.Kind.class scene.now.base (scene.now.base + length scene.now.events.now) P k L w grid.old
        → DecidedBy K.Kind.class scene.now.base (scene.now.base + length scene.now.events.now) P k L w grid.old grid.new result }
{
    let last = scene.base + scene.events.len();
    for number in scene.base..=last {
        let position = Position {
            scene: &*scene,
            number,
        };
        judge_position::<K>(grid, &position)?;
    }
    Ok(())
}
