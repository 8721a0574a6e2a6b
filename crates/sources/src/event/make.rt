// Making events, and asking what they say.
ghost use Rattle.std.specs.Prelude.{◌≡◌, ◌+◌, ◌/◌, ◌<◌, ◌≤◌, [], ◌∷◌, ◌++◌, length, slice_index_or};
ghost use Rattle.sources.specs.Events.{index_at, is_return, most, places};
ghost use Rattle.sources.specs.Sayings.{Judged, says};

use crate::event::Event;
use kinds::refusal::Reason;

// The greatest id: the return of method 65,535.
pub const LAST_ID: u32 = 131_071;

// The method that an event of an id calls or returns from.
pub fn method_of(id: u32) -> u32
    ensures { result ≡ id / 2 }
{
    id / 2
}

// Whether an event of an id is a return.
pub fn is_return(id: u32) -> bool
    ensures { result ≡ is_return id }
{
    id % 2 == 1
}

// How many values an event of an id may carry.
pub fn most_values(id: u32) -> usize
    ensures { result ≡ most id }
{
    if is_return(id) { 1 } else { 5 }
}

impl<V: Copy> Event<V> {
    // The event of an id with some values, or why there is none; `nothing` fills the places that are left.
    pub fn new(nothing: V, id: u32, values: &[V]) -> Result<Event<V>, Reason>
        ensures { Judged (record { id = id; values = values.now }) result }
    {
        if id > LAST_ID {
            return Err(Reason::WildId);
        }
        if values.len() > most_values(id) {
            return Err(Reason::TooManyValues);
        }
        let mut held = [nothing; 5];
        held[..values.len()].copy_from_slice(values);
        Ok(Event {
            id,
            count: values.len(),
            values: held,
        })
    }

    // The event of an id with no value yet.
    pub(crate) fn bare(nothing: V, id: u32) -> Event<V>
        requires { id ≤ 131071 }
        ensures { says result ≡ record { id = id; values = [] } }
    {
        Event {
            id,
            count: 0,
            values: [nothing; 5],
        }
    }

    // One value more.
    pub(crate) fn push(&mut self, value: V)
        requires { length (says self.old).values < most (says self.old).id }
        ensures { says self.new ≡ record { id = (says self.old).id; values = (says self.old).values ++ (value ∷ []) } }
    {
        self.values[self.count] = value;
        self.count += 1;
    }

    // Twice the method, and one more for a return.
    pub fn id(&self) -> u32
        ensures { result ≡ (says self.now).id }
    {
        self.id
    }

    // The method that is called or returns.
    pub fn method(&self) -> u32
        ensures { result ≡ (says self.now).id / 2 }
    {
        method_of(self.id)
    }

    // Whether the method returns.
    pub fn is_return(&self) -> bool
        ensures { result ≡ is_return (says self.now).id }
    {
        is_return(self.id)
    }

    // The values that were given, in order.
    pub fn values(&self) -> &[V]
        ensures { result.now ≡ (says self.now).values }
    {
        &self.values[..self.count]
    }

    // What stands at one of the six places: 0 has the returned value, 1 to 5 the parameters; `nothing` where none was given.
    pub fn place(&self, nothing: V, place: usize) -> V
        ensures { result ≡ slice_index_or (places nothing (says self.now)) place nothing }
    {
        place_of(nothing, self.id, self.values(), place)
    }
}

// What stands at one of the six places of an event of an id with some values; `nothing` where none was given.
pub fn place_of<V: Copy>(nothing: V, id: u32, values: &[V], place: usize) -> V
    ensures { result ≡ slice_index_or (places nothing (record { id = id; values = values.now })) place nothing }
{
    index_at(id, place)
        .and_then(|i| values.get(i))
        .copied()
        .unwrap_or(nothing)
}

// Which value stands at a place: a return has its value at 0, and a call its first at 1.
fn index_at(id: u32, place: usize) -> Option<usize>
    ensures { result ≡ index_at (is_return id) place }
{
    if is_return(id) {
        Some(place)
    } else {
        place.checked_sub(1)
    }
}
