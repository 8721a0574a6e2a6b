// A lawful event, as it is held.
ghost use Rattle.sources.specs.Events.{LawfulCount};

pub mod make;

// A call or a return of a method with its values; those past the count mean nothing.
// Kept an array with a count: an `ArrayVec` that is not full is made only of values with a default, which a kind's values need not have.
#[derive(Drop)]
pub struct Event<V> {
    id: u32,
    count: usize,
    values: [V; 5],
    ghost lawful: { LawfulCount id count },
}
