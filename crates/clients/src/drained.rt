// What is left of a source below one narrowing or two.
ghost use Rattle.std.specs.Prelude.{◌≡◌, map, take, IfOk, Ok};
ghost use Rattle.kinds.specs.Numbers.{number_value};
ghost use Rattle.mailbox.specs.Mail.{waits};
ghost use Rattle.narrow.specs.Narrowing.{only};
ghost use Rattle.sources.specs.Opening.{ahead};
ghost use Rattle.sources.specs.Sayings.{says};

use kinds::label::Label;
use kinds::labels::Labels;
use kinds::numbers::Numbers;
use mailbox::held::Mailbox;
use narrow::filter::Narrow;
use sources::drain::{Drained, drain};
use sources::journal::Journal;
use std::alloc::{AllocError, Global};

// The events of some methods that wait in a mailbox of labels.
pub fn drain_mailbox(
    heap: Global,
    mailbox: Mailbox<Labels>,
    methods: &[u16],
) -> Result<Drained<Label>, AllocError>
    ensures { IfOk result (λ d. (map says d.events.items ≡ only (take 32 methods.now) (waits mailbox)) × (d.ending ≡ Ok tt)) }
{
    drain::<Labels, _>(heap, &mut Narrow::new(mailbox, methods))
}

// The events of a journal of numbers whose methods two lists have.
pub fn drain_twice(
    heap: Global,
    journal: Journal<'_, Numbers>,
    some: &[u16],
    others: &[u16],
) -> Result<Drained<Option<u64>>, AllocError>
    ensures { IfOk result (λ d. (map says d.events.items ≡ only (take 32 others.now) (only (take 32 some.now) (ahead number_value journal.entry).waits)) × (d.ending ≡ (ahead number_value journal.entry).ends)) }
{
    drain::<Numbers, _>(heap, &mut Narrow::new(Narrow::new(journal, some), others))
}
