use crate::drained::{drain_mailbox, drain_twice};
use kinds::kind::Kind;
use kinds::labels::Labels;
use kinds::numbers::Numbers;
use kinds::refusal::{Layer, Reason};
use mailbox::held::Mailbox;
use sources::journal::Journal;
use sources::source::Source;
use std::test::Fail;

// The worked day, of which the second list leaves one call, and then a record that is cut.
#[test]
fn narrows_twice(rt: HostRuntime) -> Result<(), Fail> {
    let day = [1, 1, 6, 1, 12, 7, 1, 0x84, 7, 10, 0, 8, 2, 12, 0x84, 7, 6];
    let journal: Journal<Numbers> = Journal::open(&day)?;
    let left = drain_twice(rt.alloc(), journal, &[3, 5], &[9, 5])?;
    assert_eq!(rt; left.events.len(), 1);
    assert_eq!(rt; left.ending, Err(Layer::Number.refusal(Reason::Cut, 17)));
    Ok(())
}

// A record that is refused is refused again, and the reader stays at its first byte.
#[test]
fn stays_at_a_refused_record(rt: HostRuntime) -> Result<(), Fail> {
    let day = [1, 2, 10, 0, 6, 1, 2, 0x48, 0x20];
    let mut journal: Journal<Labels> = Journal::open(&day)?;
    assert!(rt; journal.next()?.is_some());
    let bad = Layer::Value.refusal(Reason::BadLabel, 6);
    for _ in 0..2 {
        assert_eq!(rt; journal.next().err(), Some(bad));
        assert_eq!(rt; journal.place(), 4);
    }
    Ok(())
}

// A mailbox of two places: what does not fit is told, and a taken event frees its place.
#[test]
fn fills_a_mailbox(rt: HostRuntime) -> Result<(), Fail> {
    let (label, _) = Labels::read(b"\x05HW-12")?;
    let mut mailbox: Mailbox<Labels> = Mailbox::new(rt.alloc(), 2)?;
    assert_eq!(rt;
        mailbox.put(131_072, &[]),
        Err(Layer::Mailbox.refusal(Reason::WildId, 0))
    );
    assert_eq!(rt;
        mailbox.put(7, &[label, label]),
        Err(Layer::Mailbox.refusal(Reason::TooManyValues, 0))
    );
    mailbox.put(6, &[label])?;
    mailbox.put(8, &[])?;
    assert_eq!(rt;
        mailbox.put(10, &[]),
        Err(Layer::Mailbox.refusal(Reason::NoRoom, 2))
    );
    assert!(rt; mailbox.next()?.is_some());
    mailbox.put(10, &[])?;
    let left = drain_mailbox(rt.alloc(), mailbox, &[5])?;
    assert_eq!(rt; left.events.len(), 1);
    assert_eq!(rt; left.ending, Ok(()));
    Ok(())
}
