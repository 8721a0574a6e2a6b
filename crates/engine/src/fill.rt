// What the moves from earlier positions bring to one position.
ghost use Rattle.std.specs.Prelude.{◌≡◌, ℕ, ◌+◌, ◌-◌, ◌%◌, ◌<◌, ◌≤◌, true, List, [], ◌∷◌, map, ◌≢◌, slice_index, slice_index_or};
ghost use Rattle.std.specs.List.{list_all};
ghost use Rattle.topl.specs.Lists.{each, ◌∈◌};
ghost use Rattle.topl.specs.Table.{Event as Happening, Table as TheTable, numbered, implied};
ghost use Rattle.topl.specs.Runs.{Configuration as TheConfiguration, Registers, World, first_configuration, Reach, quiet, calm, calms, fares, lands, skips, moves};
ghost use Rattle.topl.specs.Rows.{landed, incoming};
ghost use Rattle.tables.specs.declared.parts.Matcher.TheVariants.{Any};
ghost use Rattle.engine.specs.Modes.{mode_of};
ghost use Rattle.tables.specs.Views.{matcher, statement};
ghost use Rattle.engine.specs.Views.{stated, Seen};
ghost use Rattle.engine.specs.Trails.{steps_to, steps_by};
ghost use Rattle.engine.specs.Fronts.{stands_for, count_at, entries_at};
ghost use Rattle.engine.specs.Grids.{row_of};
ghost use Rattle.engine.specs.Fills.{Had, is_away, is_near, Told, Known, SinceAt, ReadyFor, FilledBy, Watched, Safe, Keeps, Tracks, Brings, ComesBy, ReachedBy, shown_entry};

use crate::attempt::attempt_statement;
use crate::configuration::{Configuration, Entered};
use crate::entry::Entry;
use crate::front::{Breach, Decision};
use crate::grid::Grid;
use crate::numbered::{Numbered, Outcome};
use crate::row::{arrive, entered_at};
use crate::scene::{Position, Scene};
use crate::slot::Slot;
use kinds::kind::Kind;
use tables::parts::{Matcher, Statement};
use topl::states::{ERROR, START};

// The number of a skip.
const SKIP: u8 = 0;

// The number of the implied statement.
const IMPLIED: u8 = 65;

// A written statement with its number: the one at place i has i + 1.
fn written_at(i: usize, t: &Statement) -> Numbered<'_>
    requires { i < 64 }
    ensures number { result.number ≡ i + 1 }
    ensures stands { stated result ≡ statement t.now }
{
    // Kept `as`: there are at most 64 statements, so `try_from` would have an error case that cannot come.
    Numbered {
        number: i as u8 + 1,
        source: t.source,
        target: t.target,
        events: &t.events,
    }
}

// The statement start -> start: *, by its matcher.
// Kept the matcher as a parameter: as a constant the checker refuses it (`unsupported-static`: a borrow of a value that holds a struct with a ghost field).
fn implied_by(any: &[Matcher; 1]) -> Numbered<'_>
    ensures number { result.number ≡ 65 }
    ensures stands { any.now ≡ Any ∷ [] → stated result ≡ implied }
{
    Numbered {
        number: IMPLIED,
        source: START,
        target: START,
        events: any,
    }
}

// A configuration comes to a position: told where its state is `error`; noted where there are more than the position may have.
// Kept the bound on the entry as a `requires`, here and in the moves below: it is against the book, which grows while the entry is held.
fn land<K: Kind>(
    grid: &mut Grid<K::Value>,
    slot: Slot,
    from: Entry,
    c: &Configuration<K::Value>,
) -> Result<(), Entry>
    requires { from.parent < grid.old.book.used }
    ensures safe { Safe slot.at grid.old grid.new result }
    ensures brings { (P : TheTable) (k : Registers) (w : World) (p : ℕ)
        → Reach P k w p (stands_for K.Kind.class c.now) (steps_by grid.old.book.entries.items from)
        → Brings K.Kind.class slot.at P k w p grid.old grid.new (stands_for K.Kind.class c.now ∷ []) result }
{
    if c.state == ERROR {
        return Err(from);
    }
    if arrive::<K>(grid, slot, from, c).is_err() {
        grid.front.spilled = true;
    }
    Ok(())
}

// Does a statement that leaves the state, by its matchers, let a skip go on: it fails or, once the list has ended, hangs?
fn is_calm<K: Kind>(
    scene: &Scene<'_, K::Value>,
    matchers: &[Matcher],
    c: &Configuration<K::Value>,
) -> bool
    ensures { (es : List Happening) → Seen K.Kind.class scene.now.events.now es
        → result ≡ calm (mode_of scene.now.mode) (fares (map matcher matchers.now) (map K.Kind.class c.now.registers) es) }
{
    match attempt_statement::<K>(scene.events, matchers, &c.registers) {
        Outcome::Passes(_) => false,
        Outcome::Fails => true,
        Outcome::Hangs => scene.mode.lets_hang(),
    }
}

// Do all written statements that leave the state let a skip go on?
fn are_written_calm<K: Kind>(scene: &Scene<'_, K::Value>, c: &Configuration<K::Value>) -> bool
    ensures { (P : TheTable) (w : World) → Watched K.Kind.class scene.now P w
        → result ≡ list_all (λ t. calms w scene.now.base (stands_for K.Kind.class c.now) (0, statement t)) scene.now.statements.now }
{
    scene.statements.iter().all(
        |t| -> bool
            ensures { (P : TheTable) (w : World) → Watched K.Kind.class scene.entry.now P w
                → result ≡ calms w scene.entry.now.base (stands_for K.Kind.class c.entry.now) (0, statement t.now) }
        { t.source != c.state || is_calm::<K>(scene, &t.events, c) },
    )
}

// Do all statements that leave the state let a skip go on?
fn is_quiet<K: Kind>(scene: &Scene<'_, K::Value>, c: &Configuration<K::Value>) -> bool
    ensures { (P : TheTable) (w : World) → Watched K.Kind.class scene.now P w
        → result ≡ quiet w scene.now.base (stands_for K.Kind.class c.now) (numbered P) }
{
    are_written_calm::<K>(scene, c) && (c.state != START || is_calm::<K>(scene, &[Matcher::Any], c))
}

// What one statement brings from a configuration at the scene's first position to the position.
fn step_statement<K: Kind>(
    grid: &mut Grid<K::Value>,
    position: &Position<'_, K::Value>,
    t: &Numbered<'_>,
    at: &Entered<K::Value>,
) -> Result<(), Entry>
    requires { at.now.entry < grid.old.book.used }
    ensures safe { Keeps position.now grid.old grid.new result }
    ensures brings { (P : TheTable) (k : Registers) (w : World) → Watched K.Kind.class position.now.scene.now P w
        → (t.now.number, stated t.now) ∈ numbered P
        → ReachedBy K.Kind.class position.now P k w grid.old at.now
        → ComesBy K.Kind.class position.now P k w grid.old grid.new
        (landed position.now.number (lands w position.now.scene.now.base (stands_for K.Kind.class at.now.configuration) (t.now.number, stated t.now))) result }
{
    let scene = position.scene;
    let c = &at.configuration;
    if t.source != c.state {
        return Ok(());
    }
    if scene.base + t.events.len() != position.number {
        return Ok(());
    }
    let from = Entry {
        parent: at.entry,
        step: t.number,
    };
    match attempt_statement::<K>(scene.events, t.events, &c.registers) {
        Outcome::Passes(registers) => {
            let next = Configuration::new(t.target, registers);
            land::<K>(grid, Slot::of(position.number), from, &next)
        }
        Outcome::Fails | Outcome::Hangs => Ok(()),
    }
}

// What a skip brings from a configuration at the scene's first position to the position.
fn step_skip<K: Kind>(
    grid: &mut Grid<K::Value>,
    position: &Position<'_, K::Value>,
    at: &Entered<K::Value>,
) -> Result<(), Entry>
    requires { at.now.entry < grid.old.book.used }
    ensures safe { Keeps position.now grid.old grid.new result }
    ensures brings { (P : TheTable) (k : Registers) (w : World) → Watched K.Kind.class position.now.scene.now P w
        → ReachedBy K.Kind.class position.now P k w grid.old at.now
        → ComesBy K.Kind.class position.now P k w grid.old grid.new
        (landed position.now.number (skips P w position.now.scene.now.base (stands_for K.Kind.class at.now.configuration))) result }
{
    let scene = position.scene;
    if scene.base + 1 != position.number {
        return Ok(());
    }
    if !is_quiet::<K>(scene, &at.configuration) {
        return Ok(());
    }
    let from = Entry {
        parent: at.entry,
        step: SKIP,
    };
    land::<K>(grid, Slot::of(position.number), from, &at.configuration)
}

// What the moves from a configuration at the scene's first position bring to the position. Where an earlier call decided its statements, only its skip is
// looked at: what they brought is there.
fn step_configuration<K: Kind>(
    grid: &mut Grid<K::Value>,
    position: &Position<'_, K::Value>,
    at: &Entered<K::Value>,
    is_decided: bool,
) -> Result<(), Entry>
    requires { at.now.entry < grid.old.book.used }
    ensures safe { Keeps position.now grid.old grid.new result }
    ensures brings { (P : TheTable) (k : Registers) (w : World) → Watched K.Kind.class position.now.scene.now P w
        → ReachedBy K.Kind.class position.now P k w grid.old at.now
        → (is_decided ≡ true → Told (row_of K.Kind.class grid.old (position.now.number % 5)) P w position.now.scene.now.base position.now.number position.now.scene.now.judged (stands_for K.Kind.class at.now.configuration))
        → ComesBy K.Kind.class position.now P k w grid.old grid.new
        (landed position.now.number (moves P w position.now.scene.now.base (stands_for K.Kind.class at.now.configuration))) result }
{
    step_skip::<K>(grid, position, at)?;
    if is_decided {
        return Ok(());
    }
    for (i, t) in position.scene.statements.iter().enumerate() {
        step_statement::<K>(grid, position, &written_at(i, t), at)?;
    }
    step_statement::<K>(grid, position, &implied_by(&[Matcher::Any]), at)
}

// Does each written statement leave another state, or lead from the scene's first position past the position or not so far?
fn are_written_away<V>(position: &Position<'_, V>, state: u8) -> bool
    ensures { result ≡ list_all (is_away state (position.now.number - position.now.scene.now.base)) position.now.scene.now.statements.now }
{
    let span = position.number - position.scene.base;
    position.scene.statements.iter().all(
        |t| -> bool
            ensures { result ≡ is_away state span t.now }
        { t.source != state || t.events.len() != span },
    )
}

// Does each written statement leave another state, or span no more than the events from the scene's first position on that had come before this call?
fn are_written_near<V>(position: &Position<'_, V>, state: u8) -> bool
    ensures { result ≡ list_all (is_near state (position.now.scene.now.judged - position.now.scene.now.base)) position.now.scene.now.statements.now }
{
    let most = position.scene.judged.saturating_sub(position.scene.base);
    position.scene.statements.iter().all(
        |t| -> bool
            ensures { result ≡ is_near state most t.now }
        { t.source != state || t.events.len() <= most },
    )
}

// Is all that a configuration of this state at the scene's first position brings to the position held there, where an earlier call may have decided its
// statements? It decided the skip too where it saw all their events; and one in `start` never skips, since the implied statement passes at every event.
fn brings_nothing<V>(position: &Position<'_, V>, state: u8, is_decided: bool) -> bool
    requires { position.now.scene.now.base < position.now.number }
    ensures { (P : TheTable) (w : World) (c : TheConfiguration) (row : List TheConfiguration)
        → P.statements ≡ map statement position.now.scene.now.statements.now → c.state ≡ state
        → (is_decided ≡ true → Told row P w position.now.scene.now.base position.now.number position.now.scene.now.judged c)
        → result ≡ true → Had row (landed position.now.number (moves P w position.now.scene.now.base c)) }
{
    if position.scene.base + 1 == position.number {
        return is_decided && (state == START || are_written_near(position, state));
    }
    are_written_away(position, state)
}

// What the moves from configuration i at the scene's first position bring to the position; where they bring nothing new, it is not looked at.
fn step_from<K: Kind>(
    grid: &mut Grid<K::Value>,
    position: &Position<'_, K::Value>,
    i: usize,
    is_decided: bool,
) -> Result<(), Entry>
    requires { (i < count_at grid.old.front (position.now.scene.now.base % 5)) × (position.now.scene.now.base < position.now.number) }
    ensures safe { Keeps position.now grid.old grid.new result }
    ensures brings { (P : TheTable) (k : Registers) (w : World) → Watched K.Kind.class position.now.scene.now P w
        → let c = slice_index_or (row_of K.Kind.class grid.old (position.now.scene.now.base % 5)) i (first_configuration []) in
        Reach P k w position.now.scene.now.base c (steps_to grid.old.book.entries.items (slice_index (entries_at grid.old.front (position.now.scene.now.base % 5)) i))
        → (is_decided ≡ true → Told (row_of K.Kind.class grid.old (position.now.number % 5)) P w position.now.scene.now.base position.now.number position.now.scene.now.judged c)
        → ComesBy K.Kind.class position.now P k w grid.old grid.new (landed position.now.number (moves P w position.now.scene.now.base c)) result }
{
    let source = Slot::of(position.scene.base);
    if brings_nothing(position, grid.front.mark_at(source, i).state, is_decided) {
        return Ok(());
    }
    let at = entered_at::<K>(grid, source, i);
    step_configuration::<K>(grid, position, &at, is_decided)
}

// What the moves from all configurations at the scene's first position bring to the position, a later one.
fn step_row<K: Kind>(
    grid: &mut Grid<K::Value>,
    position: &Position<'_, K::Value>,
) -> Result<(), Entry>
    requires { position.now.scene.now.base < position.now.number }
    ensures safe { Keeps position.now grid.old grid.new result }
    ensures brings { (P : TheTable) (k : Registers) (w : World) → Watched K.Kind.class position.now.scene.now P w
        → Tracks K.Kind.class P k w position.now.scene.now.base grid.old (position.now.scene.now.base % 5)
        → Known K.Kind.class position.now P w position.now.scene.now.base grid.old
        → ComesBy K.Kind.class position.now P k w grid.old grid.new
        (each (λ c. landed position.now.number (moves P w position.now.scene.now.base c)) (row_of K.Kind.class grid.old (position.now.scene.now.base % 5))) result }
{
    let source = Slot::of(position.scene.base);
    let count = grid.front.count_at(source);
    let decided = position.decided();
    // Kept an index loop: the grid that the row stands in is changed on the way, so no iterator can hold the row.
    for i in position.first_tried()..count {
        step_from::<K>(grid, position, i, i < decided)?;
    }
    Ok(())
}

// What the moves from the positions before it bring to a position, from the scene's first on.
fn step_rows<K: Kind>(
    grid: &mut Grid<K::Value>,
    position: &Position<'_, K::Value>,
) -> Result<(), Entry>
    ensures safe { Keeps position.now grid.old grid.new result }
    ensures brings { (P : TheTable) (k : Registers) (w : World) → Watched K.Kind.class position.now.scene.now P w
        → ((q : ℕ) → position.now.scene.now.base ≤ q → q < position.now.number → Tracks K.Kind.class P k w q grid.old (q % 5))
        → ((q : ℕ) → position.now.scene.now.base ≤ q → q < position.now.number → Known K.Kind.class position.now P w q grid.old)
        → ComesBy K.Kind.class position.now P k w grid.old grid.new
        (incoming P w (λ q. row_of K.Kind.class grid.old (q % 5)) position.now.number position.now.scene.now.base (position.now.number - position.now.scene.now.base)) result }
{
    let number = position.number;
    for q in position.scene.base..number {
        let scene = position.scene.past(q - position.scene.base);
        let past = Position {
            scene: &scene,
            number,
        };
        step_row::<K>(grid, &past)?;
    }
    Ok(())
}

// Fills a position from those before it, from the scene's first on. It decides where a run reaches `error`, or else where the position spills.
pub(crate) fn fill_position<K: Kind>(
    grid: &mut Grid<K::Value>,
    position: &Position<'_, K::Value>,
) -> Result<(), Decision>
    ensures safe { Keeps position.now grid.old grid.new (shown_entry result) }
    ensures fills { (P : TheTable) (k : Registers) (L : List Happening) (w : World) → Watched K.Kind.class position.now.scene.now P w
        → ReadyFor K.Kind.class position.now P k L w grid.old
        → SinceAt K.Kind.class position.now P k L w grid.old
        → FilledBy K.Kind.class position.now P k w grid.old grid.new result }
{
    grid.front.spilled = false;
    // Kept an `if let`: the closure of `map_err` would need its promise written out, which is longer.
    if let Err(last) = step_rows::<K>(grid, position) {
        let position = position.number;
        return Err(Decision::Breaks(Breach { position, last }));
    }
    if grid.front.spilled {
        return Err(Decision::Spills);
    }
    Ok(())
}
