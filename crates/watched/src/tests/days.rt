// The worked days, in both kinds of values.
use super::*;

// What is said of one schedule in one kind: the flat and the schedule as they were fetched and as they were applied, and another schedule.
#[derive(Clone, Copy)]
struct Said<V> {
    flat: V,
    fetched: V,
    same_flat: V,
    applied: V,
    other: V,
}

// The worked day in numbers.
fn numbers() -> Said<Option<u64>> {
    Said {
        flat: Some(12),
        fetched: Some(900),
        same_flat: Some(12),
        applied: Some(900),
        other: Some(901),
    }
}

// The worked day in labels, applied in the other case.
fn labels() -> Result<Said<Label>, Fail> {
    Ok(Said {
        flat: label(b"\x05HW-12")?,
        fetched: label(b"\x05day-1")?,
        same_flat: label(b"\x05hw-12")?,
        applied: label(b"\x05DAY-1")?,
        other: label(b"\x05day-2")?,
    })
}

// The schedule is applied after midnight as it was fetched: broken at 4, also over a book just long enough, and over one that is longer than counts.
fn applies_a_stale_schedule<K: Kind>(
    rt: &impl Abort,
    heap: Global,
    said: &Said<K::Value>,
) -> Result<(), Fail> {
    let stale = table(heap, STALE)?;
    for (cap, book) in [(2, 6), (64, 6), (2, 16_384), (64, 16_384), (64, 20_000)] {
        let mut watch = running::<K>(heap, &stale, cap, book)?;
        runs_on(
            rt,
            &mut watch,
            &[(6, &[said.flat]), (7, &[said.fetched]), (10, &[])],
        );
        tells(rt, &watch, Phase::Running, 3, None);
        breaks(
            rt,
            &mut watch,
            (8, &[said.same_flat, said.applied]),
            4,
            &[1, 2, 3],
        );
        tells(rt, &watch, Phase::Broken, 4, Some(4));
    }
    Ok(())
}

// Another schedule is applied: kept, and every event is judged.
fn applies_another_schedule<K: Kind>(
    rt: &impl Abort,
    heap: Global,
    said: &Said<K::Value>,
) -> Result<(), Fail> {
    let stale = table(heap, STALE)?;
    let mut watch = running::<K>(heap, &stale, 64, 16_384)?;
    runs_on(
        rt,
        &mut watch,
        &[(6, &[said.flat]), (7, &[said.fetched]), (10, &[])],
    );
    runs_on(rt, &mut watch, &[(8, &[said.flat, said.other])]);
    assert_eq!(rt; watch.close(), Ok(Standing::Kept));
    tells(rt, &watch, Phase::Kept, 4, None);
    Ok(())
}

// Cap 1: the return brings a second configuration to its position, whatever the book has.
fn spills_at_the_return<K: Kind>(
    rt: &impl Abort,
    heap: Global,
    said: &Said<K::Value>,
) -> Result<(), Fail> {
    let stale = table(heap, STALE)?;
    for book in [5, 6, 16_384] {
        let mut watch = running::<K>(heap, &stale, 1, book)?;
        runs_on(rt, &mut watch, &[(6, &[said.flat])]);
        for _ in 0..2 {
            assert_eq!(rt;
                watch.feed(7, &[said.fetched]),
                Err(refusal(WatchReason::IsSpilled, 1))
            );
            tells(rt, &watch, Phase::Spilled, 1, None);
        }
    }
    Ok(())
}

// A book of 5: the third event needs a sixth entry.
fn fills_the_book_at_midnight<K: Kind>(
    rt: &impl Abort,
    heap: Global,
    said: &Said<K::Value>,
) -> Result<(), Fail> {
    let stale = table(heap, STALE)?;
    for cap in [2, 64] {
        let mut watch = running::<K>(heap, &stale, cap, 5)?;
        runs_on(rt, &mut watch, &[(6, &[said.flat]), (7, &[said.fetched])]);
        for _ in 0..2 {
            assert_eq!(rt; watch.feed(10, &[]), Err(refusal(WatchReason::IsFull, 2)));
            tells(rt, &watch, Phase::Full, 2, None);
        }
    }
    Ok(())
}

// Events of methods alone, and then the end of the list.
fn closes(rt: &impl Abort, heap: Global, ids: &[u32], says: Standing) -> Result<(), Fail> {
    let wait = table(heap, WAIT)?;
    let mut watch = running::<Numbers>(heap, &wait, 64, 16_384)?;
    for id in ids {
        runs_on(rt, &mut watch, &[(*id, &[])]);
    }
    assert_eq!(rt; watch.close(), Ok(says));
    if let Standing::Broken(position) = says {
        tells(rt, &watch, Phase::Broken, ids.len(), Some(position));
        shows(rt, &watch, &[1, 0, 3]);
    }
    Ok(())
}

// Each stale day in numbers.
#[test]
fn watches_stale_days_of_numbers(rt: HostRuntime) -> Result<(), Fail> {
    let said = numbers();
    applies_a_stale_schedule::<Numbers>(&rt, rt.alloc(), &said)?;
    applies_another_schedule::<Numbers>(&rt, rt.alloc(), &said)?;
    spills_at_the_return::<Numbers>(&rt, rt.alloc(), &said)?;
    fills_the_book_at_midnight::<Numbers>(&rt, rt.alloc(), &said)
}

// Each stale day in labels, whose case does not count.
#[test]
fn watches_stale_days_of_labels(rt: HostRuntime) -> Result<(), Fail> {
    let said = labels()?;
    applies_a_stale_schedule::<Labels>(&rt, rt.alloc(), &said)?;
    applies_another_schedule::<Labels>(&rt, rt.alloc(), &said)?;
    spills_at_the_return::<Labels>(&rt, rt.alloc(), &said)?;
    fills_the_book_at_midnight::<Labels>(&rt, rt.alloc(), &said)
}

// What waits for z is decided by another event: then the run that skipped p breaks, at the position of r.
#[test]
fn breaks_before_the_last_event(rt: HostRuntime) -> Result<(), Fail> {
    let wait = table(rt.alloc(), WAIT)?;
    let mut watch = running::<Numbers>(rt.alloc(), &wait, 64, 16_384)?;
    runs_on(&rt, &mut watch, &[(2, &[]), (4, &[]), (6, &[])]);
    breaks(&rt, &mut watch, (4, &[]), 3, &[1, 0, 3]);
    tells(&rt, &watch, Phase::Broken, 4, Some(3));
    Ok(())
}

// What waits for z is decided by z, or by the end of the list.
#[test]
fn waits_for_the_end(rt: HostRuntime) -> Result<(), Fail> {
    closes(&rt, rt.alloc(), &[2, 4, 6], Standing::Broken(3))?;
    closes(&rt, rt.alloc(), &[2, 4, 6, 8], Standing::Kept)
}
