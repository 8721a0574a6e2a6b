// Putting events into a mailbox, and taking them out.
ghost use Rattle.std.specs.Prelude.{◌≡◌, min, [], IfOk, Ok};
ghost use Rattle.mailbox.specs.Mail.{Put, all_lawful, places, waits};

use crate::held::Mailbox;
use kinds::kind::Kind;
use kinds::refusal::{Layer, Reason, Refusal};
use sources::event::Event;
use sources::source::Source;
use std::alloc::{AllocError, Global};
use std::collections::VecDeque;

// The most places that a mailbox has.
const MOST_PLACES: usize = 64;

impl<K: Kind> Mailbox<K> {
    // An empty mailbox with so many places, and never with more than 64.
    pub fn new(heap: Global, room: usize) -> Result<Mailbox<K>, AllocError>
        ensures { IfOk result (λ m. (waits m ≡ []) × (places m ≡ min room 64)) }
    {
        let queue = VecDeque::with_capacity(heap, room.min(MOST_PLACES))?;
        Ok(Mailbox { queue })
    }

    // Puts an event behind the others, or tells why it cannot be put.
    pub fn put(&mut self, id: u32, values: &[K::Value]) -> Result<(), Refusal>
        ensures put { Put (places self.old) (waits self.old) (record { id = id; values = values.now }) result (waits self.new) }
        ensures room { places self.new ≡ places self.old }
    {
        let place = self.queue.len();
        let refusal = |reason| Layer::Mailbox.refusal(reason, place);
        let event = Event::new(K::nothing(), id, values).map_err(refusal)?;
        if place >= self.queue.capacity() {
            return Err(refusal(Reason::NoRoom));
        }
        self.queue.push_back_reserved(event);
        Ok(())
    }
}

impl<K: Kind> Source<K> for Mailbox<K> {
    ghost waiting = { λ m. waits m };

    ghost ending = { λ _. Ok tt };

    ghost lawful = { λ m. all_lawful m.queue.items };

    fn next(&mut self) -> Result<Option<Event<K::Value>>, Refusal> {
        Ok(self.queue.pop_front())
    }
}
