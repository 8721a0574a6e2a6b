// Draws from each source: a journal, a mailbox, and a narrowing of each.
use super::*;
use mailbox::held::Mailbox;
use narrow::filter::Narrow;
use sources::journal::Journal;
use sources::source::Source;

// The stale day in numbers, with a call of method 10 before midnight.
const DAY: &[u8] = &[
    1, 1, 6, 1, 12, 7, 1, 0x84, 7, 20, 0, 10, 0, 8, 2, 12, 0x84, 7,
];

// The same day in labels, applied in the other case.
const LABELLED: &[u8] =
    b"\x01\x02\x06\x01\x05HW-12\x07\x01\x05day-1\x14\x00\x0a\x00\x08\x02\x05hw-12\x05DAY-1";

// What a draw is answered.
type Drawn = Result<Option<Standing>, Refusal>;

const RUNNING: Drawn = Ok(Some(Standing::Running));

// Each draw in turn is answered so.
fn draws<K: Kind, S: Source<K>>(
    rt: &impl Abort,
    watch: &mut Watch<'_, K>,
    source: &mut S,
    says: &[Drawn],
) {
    for told in says {
        assert_eq!(rt; watch.draw(&mut *source), *told);
    }
}

// The stale day out of a source: broken at the last of so many events, by these steps, and then nothing more is drawn.
fn draws_the_stale_day<K: Kind, S: Source<K>>(
    rt: &impl Abort,
    heap: Global,
    source: &mut S,
    events: usize,
    steps: &[u8],
) -> Result<(), Fail> {
    let stale = table(heap, STALE)?;
    let mut watch = running::<K>(heap, &stale, 64, 16_384)?;
    for _ in 1..events {
        draws(rt, &mut watch, &mut *source, &[RUNNING]);
    }
    let broken = Ok(Some(Standing::Broken(events)));
    let refused = Err(refusal(WatchReason::IsBroken, events));
    draws(rt, &mut watch, source, &[broken, refused]);
    shows(rt, &watch, steps);
    Ok(())
}

// A mailbox that holds the events of a journal.
fn posted<K: Kind>(heap: Global, journal: &[u8]) -> Result<Mailbox<K>, Fail> {
    let mut mailbox = Mailbox::new(heap, 8)?;
    let mut journal: Journal<K> = Journal::open(journal)?;
    for _ in 0..8 {
        let Some(event) = journal.next()? else {
            break;
        };
        mailbox.put(event.id(), event.values())?;
    }
    Ok(mailbox)
}

// A call of a method that no line declares is an event of a journal and of a mailbox: it is skipped.
fn draws_every_event<K: Kind>(rt: &impl Abort, heap: Global, day: &[u8]) -> Result<(), Fail> {
    let mut journal: Journal<K> = Journal::open(day)?;
    draws_the_stale_day::<K, _>(rt, heap, &mut journal, 5, &[1, 0, 2, 3])?;
    assert_eq!(rt; journal.place(), day.len());
    let mut mailbox = posted::<K>(heap, day)?;
    draws_the_stale_day::<K, _>(rt, heap, &mut mailbox, 5, &[1, 0, 2, 3])?;
    assert!(rt; mailbox.next()?.is_none());
    Ok(())
}

// Narrowed to the declared methods, once or twice, the other call is no event.
fn draws_narrowed<K: Kind>(rt: &impl Abort, heap: Global, day: &[u8]) -> Result<(), Fail> {
    let journal: Journal<K> = Journal::open(day)?;
    let mut once = Narrow::new(journal, &[3, 4, 5]);
    draws_the_stale_day::<K, _>(rt, heap, &mut once, 4, &[1, 2, 3])?;
    let journal: Journal<K> = Journal::open(day)?;
    let mut twice = Narrow::new(Narrow::new(journal, &[3, 4, 5, 10]), &[5, 4, 3, 9]);
    draws_the_stale_day::<K, _>(rt, heap, &mut twice, 4, &[1, 2, 3])?;
    let mut once = Narrow::new(posted::<K>(heap, day)?, &[5, 4, 3]);
    draws_the_stale_day::<K, _>(rt, heap, &mut once, 4, &[1, 2, 3])?;
    let mut twice = Narrow::new(Narrow::new(posted::<K>(heap, day)?, &[5, 3, 4]), &[3, 4, 5]);
    draws_the_stale_day::<K, _>(rt, heap, &mut twice, 4, &[1, 2, 3])
}

// The stale day in numbers, out of each source.
#[test]
fn draws_numbers(rt: HostRuntime) -> Result<(), Fail> {
    draws_every_event::<Numbers>(&rt, rt.alloc(), DAY)?;
    draws_narrowed::<Numbers>(&rt, rt.alloc(), DAY)
}

// The stale day in labels, out of each source.
#[test]
fn draws_labels(rt: HostRuntime) -> Result<(), Fail> {
    draws_every_event::<Labels>(&rt, rt.alloc(), LABELLED)?;
    draws_narrowed::<Labels>(&rt, rt.alloc(), LABELLED)
}

// A draw takes no more than its event.
#[test]
fn takes_one_event(rt: HostRuntime) -> Result<(), Fail> {
    let stale = table(rt.alloc(), STALE)?;
    let mut watch = running::<Numbers>(rt.alloc(), &stale, 64, 16_384)?;
    let mut journal: Journal<Numbers> = Journal::open(DAY)?;
    for place in [5, 9, 11, 13] {
        draws(&rt, &mut watch, &mut journal, &[RUNNING]);
        assert_eq!(rt; journal.place(), place);
    }
    Ok(())
}

// A source that refuses: the refusal is passed on, at each draw, and the watch and the source stay as they were.
#[test]
fn passes_on_a_refusal(rt: HostRuntime) -> Result<(), Fail> {
    let stale = table(rt.alloc(), STALE)?;
    let mut watch = running::<Numbers>(rt.alloc(), &stale, 64, 16_384)?;
    let cut = Err(Layer::Number.refusal(Reason::Cut, 10));
    let mut journal: Journal<Numbers> = Journal::open(&DAY[..10])?;
    draws(&rt, &mut watch, &mut journal, &[RUNNING, RUNNING, cut, cut]);
    assert_eq!(rt; journal.place(), 9);
    tells(&rt, &watch, Phase::Running, 2, None);
    let mut narrow = Narrow::new(journal, &[3]);
    draws(&rt, &mut watch, &mut narrow, &[cut, cut]);
    runs_on(&rt, &mut watch, &[(10, &[])]);
    breaks(
        &rt,
        &mut watch,
        (8, &[number(12), number(900)]),
        4,
        &[1, 2, 3],
    );
    Ok(())
}

// An empty source has no event, and the watch runs on.
#[test]
fn draws_from_nothing(rt: HostRuntime) -> Result<(), Fail> {
    let stale = table(rt.alloc(), STALE)?;
    let mut watch = running::<Numbers>(rt.alloc(), &stale, 64, 16_384)?;
    let mut journal: Journal<Numbers> = Journal::open(&DAY[..2])?;
    draws(&rt, &mut watch, &mut journal, &[Ok(None), Ok(None)]);
    let mut mailbox: Mailbox<Numbers> = Mailbox::new(rt.alloc(), 1)?;
    draws(&rt, &mut watch, &mut mailbox, &[Ok(None), Ok(None)]);
    let journal: Journal<Numbers> = Journal::open(DAY)?;
    draws(
        &rt,
        &mut watch,
        &mut Narrow::new(journal, &[]),
        &[Ok(None), Ok(None)],
    );
    tells(&rt, &watch, Phase::Running, 0, None);
    Ok(())
}

// A draw that the phase refuses takes nothing.
#[test]
fn draws_nothing_while_blank(rt: HostRuntime) -> Result<(), Fail> {
    let mut watch = blank::<Numbers>(rt.alloc(), 2624, 16_384)?;
    let mut journal: Journal<Numbers> = Journal::open(DAY)?;
    draws(
        &rt,
        &mut watch,
        &mut journal,
        &[Err(refusal(WatchReason::NotBegun, 0)); 2],
    );
    assert_eq!(rt; journal.place(), 2);
    tells(&rt, &watch, Phase::Blank, 0, None);
    Ok(())
}

// A drawn event that the feed refuses for its arity is gone, and not judged.
#[test]
fn loses_an_event_of_another_arity(rt: HostRuntime) -> Result<(), Fail> {
    let stale = table(rt.alloc(), STALE)?;
    let mut watch = running::<Numbers>(rt.alloc(), &stale, 64, 16_384)?;
    let mut mailbox: Mailbox<Numbers> = Mailbox::new(rt.alloc(), 2)?;
    mailbox.put(6, &[])?;
    mailbox.put(6, &[number(12)])?;
    draws(
        &rt,
        &mut watch,
        &mut mailbox,
        &[Err(refusal(WatchReason::OtherArity, 0)), RUNNING, Ok(None)],
    );
    tells(&rt, &watch, Phase::Running, 1, None);
    Ok(())
}

// A drawn event that spills the watch, or fills its book, is gone; those behind it stay.
#[test]
fn loses_the_event_that_is_too_much(rt: HostRuntime) -> Result<(), Fail> {
    let stale = table(rt.alloc(), STALE)?;
    let day = &[1, 1, 6, 1, 12, 7, 1, 0x84, 7, 10, 0, 8, 2, 12, 0x84, 7];
    for (cap, book, judged, reason, place) in [
        (1, 16_384, 1, WatchReason::IsSpilled, 9),
        (2, 5, 2, WatchReason::IsFull, 11),
    ] {
        let mut watch = running::<Numbers>(rt.alloc(), &stale, cap, book)?;
        let mut journal: Journal<Numbers> = Journal::open(day)?;
        for _ in 0..judged {
            draws(&rt, &mut watch, &mut journal, &[RUNNING]);
        }
        draws(
            &rt,
            &mut watch,
            &mut journal,
            &[Err(refusal(reason, judged)); 2],
        );
        assert_eq!(rt; journal.place(), place);
    }
    Ok(())
}
