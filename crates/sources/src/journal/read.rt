// Reading a journal: a head, and then records of an id, a count of values and the values.
ghost use Rattle.std.specs.Prelude.{◌≡◌, ℕ, ◌+◌, ◌*◌, ◌^◌, ◌<◌, ◌≤◌, drop, length, IfOk, Some, None, MatchResult, OnErr};
ghost use Rattle.kinds.specs.Numbers.{number_read};
ghost use Rattle.sources.specs.Events.{most};
ghost use Rattle.sources.specs.Format.{at, event_at, record_at};
ghost use Rattle.sources.specs.Lawfulness.{means_lawful};
ghost use Rattle.sources.specs.Opening.{Opened, ahead, head_refusal};
ghost use Rattle.sources.specs.Sources.{Next};
ghost use Rattle.sources.specs.Steps.{event_told};

use crate::event::Event;
use crate::event::make::{LAST_ID, most_values};
use crate::journal::Journal;
use crate::place::{Guard, Place};
use crate::source::Source;
use kinds::kind::Kind;
use kinds::number::read_number;
use kinds::refusal::{Layer, Reason, Refusal};
use std::marker::PhantomData;

// The most bytes that a journal has.
pub const MOST_BYTES: usize = 65_536;

// The version of the format.
const VERSION: u8 = 1;

// The event of an id with as many values, which stand at the place.
#[tactic(auto, using(crate::proofs::Gathered::one_refused, crate::proofs::Gathered::event_refused))]
fn take_event<K: Kind>(
    place: &mut Place<'_>,
    id: u32,
    count: usize,
) -> Result<Event<K::Value>, Refusal>
    requires lawful { (id ≤ 131071) × (count ≤ most id) }
    ensures tells { event_told result place.new.at ≡ event_at K.Kind.reads place.old.bytes.now place.old.at id count }
    ensures same { place.new.bytes ≡ place.old.bytes }
{
    let mut event = Event::bare(K::nothing(), id);
    // Kept a counted loop: each turn takes one value, and no index is read.
    for _i in 0..count {
        event.push(place.take(|b: &[u8]| K::read(b))?);
    }
    Ok(event)
}

// Refuses a journal that cannot be opened under a kind's number.
fn check_head(bytes: &[u8], number: u8) -> Result<(), Refusal>
    ensures { MatchResult result (λ _. head_refusal number bytes.now ≡ None) (λ f. head_refusal number bytes.now ≡ Some f) }
{
    if bytes.len() > MOST_BYTES {
        return Err(Layer::Journal.refusal(Reason::TooLong, 0));
    }
    match bytes {
        [VERSION, kind, ..] if *kind == number => Ok(()),
        [VERSION, _, ..] => Err(Layer::Journal.refusal(Reason::OtherHead, 1)),
        [_, _, ..] => Err(Layer::Journal.refusal(Reason::OtherHead, 0)),
        _ => Err(Layer::Journal.refusal(Reason::Cut, 0)),
    }
}

impl<'a, K: Kind> Journal<'a, K> {
    // A reader of the bytes that stands at their first record, or why their head is refused.
    pub fn open(bytes: &'a [u8]) -> Result<Journal<'a, K>, Refusal>
        ensures { MatchResult result (λ j. Opened K.Kind.reads K.Kind.LONGEST K.Kind.NUMBER bytes.now j) (λ f. head_refusal K.Kind.NUMBER bytes.now ≡ Some f) }
    {
        check_head(bytes, K::NUMBER)?;
        Ok(Journal {
            place: Place { bytes, at: 2 },
            kind: PhantomData,
        })
    }

    // The first byte that is not read yet.
    pub fn place(&self) -> usize
        ensures { result ≡ self.now.place.at }
    {
        self.place.at
    }

    // The record at the reader's place; one that is refused leaves the reader at its first byte.
    fn record(&mut self) -> Result<Event<K::Value>, Refusal>
        ensures tells { event_told result self.new.place.at ≡ record_at K.Kind.reads self.old.place.bytes.now self.old.place.at }
        ensures back { OnErr result (self.new.place.at ≡ self.old.place.at) }
        ensures same { self.new.place.bytes ≡ self.old.place.bytes }
    {
        let start = self.place.at;
        let guard = Guard {
            place: &mut self.place,
            start,
        };
        let id = guard.place.take(|b: &[u8]| read_number(b))?;
        let Ok(id @ ..=LAST_ID) = u32::try_from(id) else {
            return Err(Layer::Journal.refusal(Reason::WildId, start));
        };
        let count = guard.place.take(|b: &[u8]| read_number(b))?;
        let count = match usize::try_from(count) {
            Ok(count) if count <= most_values(id) => count,
            _ => return Err(Layer::Journal.refusal(Reason::TooManyValues, start)),
        };
        let event = take_event::<K>(guard.place, id, count)?;
        guard.accept();
        Ok(event)
    }
}

impl<K: Kind> Source<K> for Journal<'_, K> {
    ghost waiting = { λ j. (ahead K.Kind.reads j).waits };

    ghost ending = { λ j. (ahead K.Kind.reads j).ends };

    ghost lawful = { λ j. means_lawful K.Kind.reads j.place.bytes.now j.place.at };

    // A record that is refused leaves the reader at its first byte.
    fn next(&mut self) -> Result<Option<Event<K::Value>>, Refusal>
        ensures hands { Next (ahead K.Kind.reads self.old).waits (ahead K.Kind.reads self.old).ends result (ahead K.Kind.reads self.new).waits (ahead K.Kind.reads self.new).ends }
        ensures back { OnErr result (self.new.place.at ≡ self.old.place.at) }
        ensures same { self.new.place.bytes.now ≡ self.old.place.bytes.now }
    {
        if self.place.at >= self.place.bytes.len() {
            return Ok(None);
        }
        Ok(Some(self.record()?))
    }
}
