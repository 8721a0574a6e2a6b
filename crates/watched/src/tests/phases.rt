// What each call answers in each phase, in the order in which the refusals are tried.
use super::*;
use mailbox::held::Mailbox;
use sources::source::Source;

// After g and p, r may come only with z behind it, twice.
const LONGER: &[u8] = b"property Longer
method g 1 0
method p 2 0
method r 3 0
method z 4 0
start -> a: call g()
a -> done: call p(); call r(); call z(); call z()
a -> error: call r()
";

// The stale day at a cap and a book, as far as it goes.
fn watched<'a>(
    heap: Global,
    stale: &'a Table,
    cap: usize,
    book: usize,
) -> Result<Watch<'a, Numbers>, Fail> {
    let mut watch = running::<Numbers>(heap, stale, cap, book)?;
    let day: [(u32, &[Option<u64>]); 4] = [
        (6, &[Some(12)]),
        (7, &[Some(900)]),
        (10, &[]),
        (8, &[Some(12), Some(900)]),
    ];
    for (id, values) in day {
        if watch.feed(id, values).is_err() {
            break;
        }
    }
    Ok(watch)
}

// A feed, a draw and a close are refused by the phase before anything else of them is looked at, and the draw takes nothing.
fn refuses_by_phase(
    rt: &impl Abort,
    heap: Global,
    watch: &mut Watch<'_, Numbers>,
    by: Refusal,
) -> Result<(), Fail> {
    let six = [number(1); 6];
    assert_eq!(rt; watch.feed(131_072, &six), Err(by));
    assert_eq!(rt; watch.feed(6, &[]), Err(by));
    assert_eq!(rt; watch.feed(10, &[]), Err(by));
    assert_eq!(rt; watch.close(), Err(by));
    let mut mailbox: Mailbox<Numbers> = Mailbox::new(heap, 2)?;
    assert_eq!(rt; watch.draw(&mut mailbox), Err(by));
    mailbox.put(10, &[])?;
    assert_eq!(rt; watch.draw(&mut mailbox), Err(by));
    assert!(rt; mailbox.next()?.is_some());
    Ok(())
}

// A begin after another is refused, whatever cap and constants it has.
fn refuses_another_begin<'a>(
    rt: &impl Abort,
    watch: &mut Watch<'a, Numbers>,
    stale: &'a Table,
    judged: usize,
) {
    let again = Err(refusal(WatchReason::BegunAlready, judged));
    assert_eq!(rt; watch.begin(stale, &[], 1), again);
    assert_eq!(rt; watch.begin(stale, &[number(1)], 0), again);
}

// A path is refused where the watch is not broken, also on a page of no byte, and the page stays as it was.
fn refuses_a_path(rt: &impl Abort, watch: &Watch<'_, Numbers>, judged: usize) {
    let unbroken = Err(refusal(WatchReason::NotBroken, judged));
    let mut page = [9; 8];
    assert_eq!(rt; watch.path(&mut page), unbroken);
    assert_eq!(rt; page, [9; 8]);
    assert_eq!(rt; watch.path(&mut []), unbroken);
}

// Blank: a feed, a draw and a close get 20, and a begin that is refused leaves the watch blank.
#[test]
fn is_blank_until_it_begins(rt: HostRuntime) -> Result<(), Fail> {
    let stale = table(rt.alloc(), STALE)?;
    let mut watch = blank::<Numbers>(rt.alloc(), 103, 1)?;
    let six = [number(1); 6];
    for cap in [0, 65, 1000] {
        assert_eq!(rt;
            watch.begin(&stale, &six, cap),
            Err(refusal(WatchReason::BadCap, 0))
        );
    }
    assert_eq!(rt;
        watch.begin(&stale, &six, 64),
        Err(refusal(WatchReason::OtherConstants, 0))
    );
    assert_eq!(rt;
        watch.begin(&stale, &[], 64),
        Err(refusal(WatchReason::SmallBoard, 0))
    );
    assert_eq!(rt;
        watch.begin(&stale, &[], 1),
        Err(refusal(WatchReason::SmallBoard, 0))
    );
    refuses_by_phase(
        &rt,
        rt.alloc(),
        &mut watch,
        refusal(WatchReason::NotBegun, 0),
    )?;
    refuses_a_path(&rt, &watch, 0);
    tells(&rt, &watch, Phase::Blank, 0, None);
    Ok(())
}

// A board one value short, or an empty book, gets 24; a board just long enough begins.
#[test]
fn asks_for_a_board_and_a_book(rt: HostRuntime) -> Result<(), Fail> {
    let stale = table(rt.alloc(), STALE)?;
    for (board, book, cap, suits) in [
        (103, 1, 1, false),
        (104, 1, 1, true),
        (104, 1, 2, false),
        (2623, 16_384, 64, false),
        (2624, 16_384, 64, true),
        (2624, 0, 64, false),
    ] {
        let mut watch = blank::<Numbers>(rt.alloc(), board, book)?;
        let small = refusal(WatchReason::SmallBoard, 0);
        let says = if suits { Ok(()) } else { Err(small) };
        assert_eq!(rt; watch.begin(&stale, &[], cap), says);
        let phase = if suits { Phase::Running } else { Phase::Blank };
        tells(&rt, &watch, phase, 0, None);
    }
    Ok(())
}

// Running: 4 comes before 5, and 5 before 30; an event that is refused is not counted.
#[test]
fn refuses_events_while_it_runs(rt: HostRuntime) -> Result<(), Fail> {
    let stale = table(rt.alloc(), STALE)?;
    let mut watch = running::<Numbers>(rt.alloc(), &stale, 64, 16_384)?;
    runs_on(&rt, &mut watch, &[(6, &[number(12)])]);
    let six = [number(1); 6];
    assert_eq!(rt; watch.feed(131_072, &six), Err(refusal(Reason::WildId, 1)));
    assert_eq!(rt; watch.feed(131_072, &[]), Err(refusal(Reason::WildId, 1)));
    assert_eq!(rt; watch.feed(6, &six), Err(refusal(Reason::TooManyValues, 1)));
    assert_eq!(rt;
        watch.feed(7, &six[..2]),
        Err(refusal(Reason::TooManyValues, 1))
    );
    assert_eq!(rt;
        watch.feed(6, &[]),
        Err(refusal(WatchReason::OtherArity, 1))
    );
    assert_eq!(rt;
        watch.feed(8, &six[..3]),
        Err(refusal(WatchReason::OtherArity, 1))
    );
    refuses_a_path(&rt, &watch, 1);
    refuses_another_begin(&rt, &mut watch, &stale, 1);
    tells(&rt, &watch, Phase::Running, 1, None);
    Ok(())
}

// Running: no value of a return is missing, and a method that is not declared has any arity.
#[test]
fn takes_what_no_line_declares(rt: HostRuntime) -> Result<(), Fail> {
    let stale = table(rt.alloc(), STALE)?;
    let mut watch = running::<Numbers>(rt.alloc(), &stale, 64, 16_384)?;
    let five = [number(1); 5];
    runs_on(
        &rt,
        &mut watch,
        &[
            (7, &[]),
            (9, &five[..1]),
            (2, &five),
            (2, &[]),
            (131_071, &five[..1]),
        ],
    );
    tells(&rt, &watch, Phase::Running, 5, None);
    Ok(())
}

// Broken: 31, and the path of three steps stays to be asked; a page one byte short gets 41 and stays as it was.
fn refuses_while_broken<'a>(
    rt: &impl Abort,
    heap: Global,
    watch: &mut Watch<'a, Numbers>,
    property: &'a Table,
    position: usize,
    [first, second, third]: [u8; 3],
) -> Result<(), Fail> {
    let short = Err(refusal(WatchReason::SmallPage, 4));
    for _ in 0..2 {
        refuses_by_phase(rt, heap, watch, refusal(WatchReason::IsBroken, 4))?;
        refuses_another_begin(rt, watch, property, 4);
        tells(rt, watch, Phase::Broken, 4, Some(position));
        let mut page = [9; 5];
        assert_eq!(rt; watch.path(&mut page[..2]), short);
        assert_eq!(rt; watch.path(&mut []), short);
        assert_eq!(rt; page, [9; 5]);
        assert_eq!(rt; watch.path(&mut page[..3]), Ok(3));
        assert_eq!(rt; page, [first, second, third, 9, 9]);
        let mut longer = [9; 5];
        assert_eq!(rt; watch.path(&mut longer), Ok(3));
        assert_eq!(rt; longer, [first, second, third, 9, 9]);
    }
    Ok(())
}

// What a feed breaks stays broken.
#[test]
fn stays_broken_by_a_feed(rt: HostRuntime) -> Result<(), Fail> {
    let stale = table(rt.alloc(), STALE)?;
    let mut watch = watched(rt.alloc(), &stale, 64, 16_384)?;
    refuses_while_broken(&rt, rt.alloc(), &mut watch, &stale, 4, [1, 2, 3])
}

// What a close breaks stays broken, also before the last judged event.
#[test]
fn stays_broken_by_a_close(rt: HostRuntime) -> Result<(), Fail> {
    let longer = table(rt.alloc(), LONGER)?;
    let mut watch = running::<Numbers>(rt.alloc(), &longer, 64, 16_384)?;
    runs_on(&rt, &mut watch, &[(2, &[]), (4, &[]), (6, &[]), (8, &[])]);
    assert_eq!(rt; watch.close(), Ok(Standing::Broken(3)));
    refuses_while_broken(&rt, rt.alloc(), &mut watch, &longer, 3, [1, 0, 3])
}

// Spilled: 32.
#[test]
fn stays_spilled(rt: HostRuntime) -> Result<(), Fail> {
    let stale = table(rt.alloc(), STALE)?;
    let mut watch = watched(rt.alloc(), &stale, 1, 16_384)?;
    refuses_by_phase(
        &rt,
        rt.alloc(),
        &mut watch,
        refusal(WatchReason::IsSpilled, 1),
    )?;
    refuses_another_begin(&rt, &mut watch, &stale, 1);
    refuses_a_path(&rt, &watch, 1);
    tells(&rt, &watch, Phase::Spilled, 1, None);
    Ok(())
}

// Full: 33.
#[test]
fn stays_full(rt: HostRuntime) -> Result<(), Fail> {
    let stale = table(rt.alloc(), STALE)?;
    let mut watch = watched(rt.alloc(), &stale, 2, 5)?;
    refuses_by_phase(&rt, rt.alloc(), &mut watch, refusal(WatchReason::IsFull, 2))?;
    refuses_another_begin(&rt, &mut watch, &stale, 2);
    refuses_a_path(&rt, &watch, 2);
    tells(&rt, &watch, Phase::Full, 2, None);
    Ok(())
}

// Kept: 34.
#[test]
fn stays_kept(rt: HostRuntime) -> Result<(), Fail> {
    let stale = table(rt.alloc(), STALE)?;
    let mut watch = running::<Numbers>(rt.alloc(), &stale, 64, 16_384)?;
    runs_on(&rt, &mut watch, &[(6, &[number(12)]), (7, &[number(900)])]);
    assert_eq!(rt; watch.close(), Ok(Standing::Kept));
    refuses_by_phase(&rt, rt.alloc(), &mut watch, refusal(WatchReason::IsKept, 2))?;
    refuses_another_begin(&rt, &mut watch, &stale, 2);
    refuses_a_path(&rt, &watch, 2);
    tells(&rt, &watch, Phase::Kept, 2, None);
    Ok(())
}
