// What patterns read and write: constants, differing values, values that are missing, and statements of more events than one.
use super::*;

// What is opened with the one constant is shut with the other.
const KEYS: &[u8] = b"property Keys
method open 1 1
method shut 2 2
start -> held: call open(<Door>)
held -> error: call shut(<Key>, <Door>)
";

// What is opened is shut with another value.
const OTHER: &[u8] = b"property Other
method open 1 1
method shut 2 2
start -> held: call open(X)
held -> error: call shut(!x, *)
";

// What is opened is moved, and the move names the old value behind the new one.
const MOVED: &[u8] = b"property Moved
method open 1 1
method move 2 2
start -> held: call open(X)
held -> held: call move(X, x)
held -> error: ret x := move
";

// Two questions that are answered alike, one behind the other.
const TWICE: &[u8] = b"property Twice
method ask 1 1
method stop 2 0
start -> error: X := ask(*); x := ask(*)
";

// A property begins with the constants, and breaks at the second of two events exactly if it is to.
fn decides<K: Kind>(
    rt: &impl Abort,
    heap: Global,
    property: &Table,
    constants: &[K::Value],
    [(first, opened), (second, shut)]: [(u32, &[K::Value]); 2],
    is_broken: bool,
) -> Result<(), Fail> {
    let mut watch = blank::<K>(heap, 2624, 16_384)?;
    watch.begin(property, constants, 64)?;
    runs_on(rt, &mut watch, &[(first, opened)]);
    if is_broken {
        breaks(rt, &mut watch, (second, shut), 2, &[1, 2]);
    } else {
        runs_on(rt, &mut watch, &[(second, shut)]);
        assert_eq!(rt; watch.close(), Ok(Standing::Kept));
    }
    Ok(())
}

// Constants have their values in the order in which the text first names them.
#[test]
fn begins_with_constants(rt: HostRuntime) -> Result<(), Fail> {
    let keys = table(rt.alloc(), KEYS)?;
    let (door, key) = (number(7), number(9));
    let day: [(u32, &[Option<u64>]); 2] = [(2, &[door]), (4, &[key, door])];
    decides::<Numbers>(&rt, rt.alloc(), &keys, &[door, key], day, true)?;
    decides::<Numbers>(&rt, rt.alloc(), &keys, &[key, door], day, false)?;
    decides::<Numbers>(&rt, rt.alloc(), &keys, &[door, door], day, false)?;
    let turned: [(u32, &[Option<u64>]); 2] = [(2, &[door]), (4, &[door, key])];
    decides::<Numbers>(&rt, rt.alloc(), &keys, &[door, key], turned, false)
}

// One constant too few or too many gets 23, and the watch may still begin.
#[test]
fn wants_as_many_constants(rt: HostRuntime) -> Result<(), Fail> {
    let keys = table(rt.alloc(), KEYS)?;
    let mut watch = blank::<Numbers>(rt.alloc(), 104, 4)?;
    let three = [number(7), number(9), number(9)];
    let others = Err(refusal(WatchReason::OtherConstants, 0));
    assert_eq!(rt; watch.begin(&keys, &three, 1), others);
    assert_eq!(rt; watch.begin(&keys, &three[..1], 1), others);
    assert_eq!(rt; watch.begin(&keys, &[], 1), others);
    assert_eq!(rt; watch.begin(&keys, &three[..2], 1), Ok(()));
    Ok(())
}

// Labels are the same if they differ in case alone, constants too.
#[test]
fn begins_with_labels(rt: HostRuntime) -> Result<(), Fail> {
    let keys = table(rt.alloc(), KEYS)?;
    let (door, key) = (label(b"\x04Hall")?, label(b"\x05KEY-1")?);
    let (same_door, same_key) = (label(b"\x04hALL")?, label(b"\x05key-1")?);
    let other = label(b"\x05key-2")?;
    let day: [(u32, &[Label]); 2] = [(2, &[same_door]), (4, &[same_key, door])];
    decides::<Labels>(&rt, rt.alloc(), &keys, &[door, key], day, true)?;
    decides::<Labels>(&rt, rt.alloc(), &keys, &[door, other], day, false)
}

// `!x` is met by any value but that of x.
#[test]
fn reads_what_differs(rt: HostRuntime) -> Result<(), Fail> {
    let other = table(rt.alloc(), OTHER)?;
    for (shut, is_broken) in [(7, false), (8, true)] {
        let day: [(u32, &[Option<u64>]); 2] = [(2, &[number(7)]), (4, &[number(shut), number(7)])];
        decides::<Numbers>(&rt, rt.alloc(), &other, &[], day, is_broken)?;
    }
    let (hall, same, room) = (
        label(b"\x04Hall")?,
        label(b"\x04hall")?,
        label(b"\x04room")?,
    );
    decides::<Labels>(
        &rt,
        rt.alloc(),
        &other,
        &[],
        [(2, &[hall]), (4, &[same, hall])],
        false,
    )?;
    decides::<Labels>(
        &rt,
        rt.alloc(),
        &other,
        &[],
        [(2, &[hall]), (4, &[room, hall])],
        true,
    )
}

// The pattern x of an event that writes X reads the value from before.
#[test]
fn reads_before_it_writes(rt: HostRuntime) -> Result<(), Fail> {
    let moved = table(rt.alloc(), MOVED)?;
    let mut watch = running::<Numbers>(rt.alloc(), &moved, 64, 16_384)?;
    runs_on(
        &rt,
        &mut watch,
        &[(2, &[number(1)]), (4, &[number(2), number(1)])],
    );
    breaks(&rt, &mut watch, (5, &[number(2)]), 3, &[1, 2, 3]);
    let mut watch = running::<Numbers>(rt.alloc(), &moved, 64, 16_384)?;
    runs_on(
        &rt,
        &mut watch,
        &[(2, &[number(1)]), (4, &[number(2), number(2)])],
    );
    breaks(&rt, &mut watch, (5, &[number(1)]), 3, &[1, 0, 3]);
    Ok(())
}

// Two labels of two events each: the four come one behind the other, or the statement fails.
#[test]
fn spans_four_events(rt: HostRuntime) -> Result<(), Fail> {
    let twice = table(rt.alloc(), TWICE)?;
    let (ask, says): ((u32, &[Option<u64>]), (u32, &[Option<u64>])) = (
        (2, &[Some(5)]),
        (3, &[Some(70)]),
    );
    let mut watch = running::<Numbers>(rt.alloc(), &twice, 64, 16_384)?;
    runs_on(&rt, &mut watch, &[ask, says, (2, &[Some(6)])]);
    breaks(&rt, &mut watch, says, 4, &[1]);
    let mut watch = running::<Numbers>(rt.alloc(), &twice, 64, 16_384)?;
    runs_on(&rt, &mut watch, &[ask, says, ask, (3, &[Some(71)]), ask]);
    breaks(&rt, &mut watch, (3, &[Some(71)]), 6, &[65, 65, 1]);
    Ok(())
}

// A call that no line declares parts a call from its return, and no value at all is the same as no value.
#[test]
fn counts_what_no_line_declares(rt: HostRuntime) -> Result<(), Fail> {
    let twice = table(rt.alloc(), TWICE)?;
    let mut watch = running::<Numbers>(rt.alloc(), &twice, 64, 16_384)?;
    runs_on(
        &rt,
        &mut watch,
        &[
            (2, &[Some(5)]),
            (20, &[]),
            (3, &[]),
            (2, &[Some(5)]),
            (3, &[]),
        ],
    );
    runs_on(&rt, &mut watch, &[(2, &[Some(6)])]);
    breaks(&rt, &mut watch, (3, &[]), 7, &[65, 65, 65, 1]);
    Ok(())
}
