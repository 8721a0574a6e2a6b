// What a watch remembers of an event, and forgets.
ghost use Rattle.std.specs.Prelude.{◌≡◌, ℕ, ◌+◌, ◌-◌, ◌≤◌, List, [], ◌∷◌, ◌++◌, length, drop};
ghost use Rattle.topl.specs.Table.{Event as Happening};
ghost use Rattle.topl.specs.Theorems.{seen as shown, value_places};
ghost use Rattle.engine.specs.Windows.{Remembers};

use crate::window::{Window, Witnessed};
use kinds::kind::Kind;
use sources::event::make::place_of;
use std::array;

// The six places of an event.
fn places_for<K: Kind>(id: u32, values: &[K::Value]) -> [K::Value; 6]
    ensures { result ≡ value_places K.Kind.nothing id values.now }
{
    array::from_fn(|i| place_of(K::nothing(), id, values, i))
}

// Forgets the first of four events: no statement that starts there can wait any more.
pub(crate) fn forget<K: Kind>(window: &mut Window<K::Value>)
    ensures few { window.new.seen ≤ 3 }
    ensures rest { (L : List Happening) → Remembers K.Kind.class window.old (drop (length L - 4) L) → Remembers K.Kind.class window.new (drop (length L - 3) L) }
{
    if window.seen < 4 {
        return;
    }
    window.events.copy_within(1..4, 0);
    window.seen = 3;
}

// One event more.
pub(crate) fn witness<K: Kind>(window: &mut Window<K::Value>, id: u32, values: &[K::Value])
    requires { window.old.seen ≤ 3 }
    ensures more { window.new.seen ≡ window.old.seen + 1 }
    ensures last { (es : List Happening) → Remembers K.Kind.class window.old es
        → Remembers K.Kind.class window.new (es ++ shown K.Kind.class id values.now ∷ []) }
{
    let at = window.seen;
    let places = places_for::<K>(id, values);
    window.events[at] = Witnessed { id, places };
    window.seen = at + 1;
}
