// Code over any source.
ghost use Rattle.std.specs.Prelude.{◌≡◌, ℕ, [], map, drop, IfOk, MatchResult};
ghost use Rattle.sources.specs.Sayings.{says};

use crate::event::Event;
use crate::source::Source;
use kinds::kind::Kind;
use kinds::refusal::Refusal;
use std::alloc::{AllocError, Global};

// The events of a source, and how they end.
#[derive(Drop)]
pub struct Drained<V> {
    pub events: Vec<Event<V>>,
    pub ending: Result<(), Refusal>,
}

// Takes every event that waits, in order, and tells the ending; where memory gives out some first events are lost.
pub fn drain<K: Kind, S: Source<K>>(
    heap: Global,
    source: &mut S,
) -> Result<Drained<K::Value>, AllocError>
    ensures gives { IfOk result (λ d. (map says d.events.items ≡ S.Source.waiting source.old) × (d.ending ≡ S.Source.ending source.old)) }
    ensures leaves { MatchResult result (λ _. S.Source.waiting source.new ≡ []) (λ _. (n : ℕ) × (S.Source.waiting source.new ≡ drop n (S.Source.waiting source.old))) }
    ensures stays { S.Source.ending source.new ≡ S.Source.ending source.old }
{
    let mut events = Vec::new(heap);
    let ending = loop {
        match source.next() {
            Ok(Some(event)) => events.push(event)?,
            Ok(None) => break Ok(()),
            Err(refusal) => break Err(refusal),
        }
    };
    Ok(Drained { events, ending })
}
