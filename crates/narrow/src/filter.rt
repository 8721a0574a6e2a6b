// A source without the events of other methods.
ghost use Rattle.std.specs.Prelude.{◌≡◌, take};
ghost use Rattle.narrow.specs.Narrowing.{listed, only, only_lawful};

use crate::methods::Methods;
use kinds::kind::Kind;
use kinds::refusal::Refusal;
use sources::event::Event;
use sources::source::Source;

// The source below, and the methods whose events are handed over.
#[derive(Drop)]
pub struct Narrow<S> {
    below: S,
    methods: Methods,
}

impl<S> Narrow<S> {
    // Narrows a source to some methods, of which the first 32 count.
    pub fn new(below: S, list: &[u16]) -> Narrow<S>
        ensures { (result.below ≡ below) × (listed result.methods ≡ take 32 list.now) }
    {
        Narrow {
            below,
            methods: Methods::new(list),
        }
    }

    // The source below, with what then waits in it.
    pub fn into_below(self) -> S
        ensures { result ≡ self.below }
    {
        self.below
    }
}

impl<K: Kind, S: Source<K>> Source<K> for Narrow<S> {
    ghost waiting = { λ n. only (listed n.methods) (S.Source.waiting n.below) };

    ghost ending = { λ n. S.Source.ending n.below };

    ghost lawful = { λ n. only_lawful (listed n.methods) (S.Source.waiting n.below) (S.Source.lawful n.below) };

    fn next(&mut self) -> Result<Option<Event<K::Value>>, Refusal> {
        while let Some(event) = self.below.next()? {
            if self.methods.has(event.method()) {
                return Ok(Some(event));
            }
        }
        Ok(None)
    }
}
