// A mailbox, as it is held.
ghost use Rattle.std.specs.Prelude.{◌≤◌};
ghost use Rattle.std.specs.VecDeque.{deque_capacity, deque_len};

use kinds::kind::Kind;
use sources::event::Event;
use std::collections::VecDeque;

pub mod post;

// Events in the order in which they were put, in room that was reserved when the mailbox was made.
#[derive(Drop)]
pub struct Mailbox<K: Kind> {
    queue: VecDeque<Event<K::Value>>,
    ghost bounded: { (deque_len queue ≤ deque_capacity queue) × (deque_capacity queue ≤ 64) },
}
