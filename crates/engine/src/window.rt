// The last events that a watch remembers.
ghost use Rattle.std.specs.Prelude.{◌≡◌, ◌≤◌, length, All};

// An event as the moves see it: its id, and its six places.
// Kept no ghost field that says the six: over a type parameter `Clone` cannot be derived beside one. The window says it of its events.
#[derive(Clone, Copy)]
pub struct Witnessed<V> {
    pub(crate) id: u32,
    pub(crate) places: [V; 6],
}

// At most four events, of which the first `seen` count.
// Kept a count beside the array: an `ArrayVec` takes an element out only of a type with a default, which a kind's values need not have.
#[derive(Drop)]
pub struct Window<V> {
    pub(crate) events: [Witnessed<V>; 4],
    pub(crate) seen: usize,
    ghost four: { length events ≡ 4 },
    ghost six: { All (λ x. length x.places ≡ 6) events },
    ghost few: { seen ≤ 4 },
}
