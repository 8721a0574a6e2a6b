// Caps and books that are just large enough, and one too small, at a feed and at a close.
use super::*;

// Every value is held on to until z has it.
const HOLD: &[u8] = b"property Hold
method f 1 1
method z 2 1
start -> held: call f(S)
held -> error: call z(s)
";

// What is held on to waits for y behind another f.
const HANG: &[u8] = b"property Hang
method f 1 1
method y 2 0
start -> a: call f(S)
a -> error: call f(*); call y()
";

// A call of f.
const HELD: u32 = 2;

// A call of a method that is not declared.
const OTHER: u32 = 20;

// With each value one configuration more is at the last position, so a cap of n suits n - 1 values.
#[test]
fn spills_past_the_cap(rt: HostRuntime) -> Result<(), Fail> {
    let hold = table(rt.alloc(), HOLD)?;
    for (cap, last) in [(1, 0), (2, 1), (64, 63)] {
        let mut watch = running::<Numbers>(rt.alloc(), &hold, cap, 16_384)?;
        for n in 0..last {
            runs_on(&rt, &mut watch, &[(HELD, &[number(n)])]);
        }
        let spilled = Err(refusal(WatchReason::IsSpilled, cap - 1));
        assert_eq!(rt; watch.feed(HELD, &[number(last)]), spilled, "at cap {cap}");
        tells(&rt, &watch, Phase::Spilled, cap - 1, None);
    }
    Ok(())
}

// With each event that is passed over one entry more is in the book, so a book of n suits n - 1 events, and a longer one counts as one of 16,384.
#[test]
fn fills_the_book(rt: HostRuntime) -> Result<(), Fail> {
    let hold = table(rt.alloc(), HOLD)?;
    for (book, judged) in [(1, 0), (2, 1), (16_384, 16_383), (20_000, 16_383)] {
        let mut watch = running::<Numbers>(rt.alloc(), &hold, 64, book)?;
        for _ in 0..judged {
            runs_on(&rt, &mut watch, &[(OTHER, &[])]);
        }
        let full = Err(refusal(WatchReason::IsFull, judged));
        assert_eq!(rt; watch.feed(OTHER, &[]), full, "with a book of {book}");
        tells(&rt, &watch, Phase::Full, judged, None);
    }
    Ok(())
}

// Two values run at cap 2 and a book of 5. The end of the list lets the first be skipped to the last position, as a third configuration and a sixth entry.
#[test]
fn wants_room_at_the_end(rt: HostRuntime) -> Result<(), Fail> {
    let hang = table(rt.alloc(), HANG)?;
    for (cap, book, phase, reason) in [
        (2, 5, Phase::Spilled, WatchReason::IsSpilled),
        (2, 6, Phase::Spilled, WatchReason::IsSpilled),
        (3, 5, Phase::Full, WatchReason::IsFull),
    ] {
        let mut watch = running::<Numbers>(rt.alloc(), &hang, cap, book)?;
        runs_on(
            &rt,
            &mut watch,
            &[(HELD, &[number(0)]), (HELD, &[number(1)])],
        );
        for _ in 0..2 {
            assert_eq!(rt;
                watch.close(),
                Err(refusal(reason, 2)),
                "at cap {cap} and book {book}"
            );
            tells(&rt, &watch, phase, 2, None);
            let unbroken = Err(refusal(WatchReason::NotBroken, 2));
            assert_eq!(rt; watch.path(&mut [0; 4]), unbroken);
        }
    }
    let mut watch = running::<Numbers>(rt.alloc(), &hang, 3, 6)?;
    runs_on(
        &rt,
        &mut watch,
        &[(HELD, &[number(0)]), (HELD, &[number(1)])],
    );
    assert_eq!(rt; watch.close(), Ok(Standing::Kept));
    Ok(())
}
