// Lists of calls as histories, with the answer that each call gets.
use super::*;
use history::call::{Answer, Call};
use history::run::history;
use sources::journal::Journal;

// A call, and what it is answered.
type Told<'a> = (Call<'a, Option<u64>>, Answer);

// The flat and the schedule that is applied.
const APPLIED: &[Option<u64>] = &[Some(12), Some(900)];

const RUNNING: Answer = Answer::Says(Standing::Running);

// A begin without constants.
fn begin(table: &Table, cap: usize) -> Call<'_, Option<u64>> {
    Call::Begin {
        table,
        constants: &[],
        cap,
    }
}

// A feed.
fn feed(id: u32, values: &[Option<u64>]) -> Call<'_, Option<u64>> {
    Call::Feed { id, values }
}

// A refusal of the watch as an answer.
fn refused(reason: WatchReason, judged: usize) -> Answer {
    Answer::Refused(refusal(reason, judged))
}

// A verdict as an answer.
fn verdict(phase: Phase, judged: usize, position: Option<usize>) -> Answer {
    Answer::Tells(Verdict {
        phase,
        judged,
        position,
    })
}

// Two answers say the same.
fn alike(a: &Answer, b: &Answer) -> bool {
    match (a, b) {
        (Answer::Begun, Answer::Begun)
        | (Answer::NoEvent, Answer::NoEvent)
        | (Answer::NoSource, Answer::NoSource) => true,
        (Answer::Says(one), Answer::Says(other)) => one == other,
        (Answer::Tells(one), Answer::Tells(other)) => {
            one.phase == other.phase && one.judged == other.judged && one.position == other.position
        }
        (Answer::Refused(one), Answer::Refused(other)) => one == other,
        (Answer::Wrote { steps, page }, Answer::Wrote { steps: s, page: p }) => {
            steps == s && page.as_slice() == p.as_slice()
        }
        (
            Answer::Unwritten { refusal, page },
            Answer::Unwritten {
                refusal: r,
                page: p,
            },
        ) => { refusal == r && page.as_slice() == p.as_slice() }
        _ => false,
    }
}

// Over a board for cap 64 and a book of so many entries, with one journal, the calls are answered as they are told.
fn answers(
    rt: &impl Abort,
    heap: Global,
    book: usize,
    journal: &[u8],
    told: &[Told<'_>],
) -> Result<(), Fail> {
    let mut calls = Vec::new(heap);
    for (call, _) in told {
        calls.push(*call)?;
    }
    let mut sources: [Journal<Numbers>; 1] = [Journal::open(journal)?];
    let board = vec![in heap; None; 2624]?;
    let book = vec![in heap; Entry { parent: 0, step: 0 }; book]?;
    let answers = history::<Numbers, Journal<Numbers>>(heap, board, book, &calls, &mut sources)?;
    assert_eq!(rt; answers.len(), told.len());
    for (k, (answer, (_, want))) in answers.iter().zip(told).enumerate() {
        assert!(rt; alike(answer, want), "at call {k}");
    }
    Ok(())
}

// A day of calls, some of which are refused.
#[test]
fn answers_a_day_of_calls(rt: HostRuntime) -> Result<(), Fail> {
    let stale = table(rt.alloc(), STALE)?;
    let told = [
        (Call::Close, refused(WatchReason::NotBegun, 0)),
        (begin(&stale, 65), refused(WatchReason::BadCap, 0)),
        (begin(&stale, 2), Answer::Begun),
        (Call::Draw(0), RUNNING),
        (Call::Draw(0), RUNNING),
        (Call::Draw(0), Answer::NoEvent),
        (feed(10, APPLIED), refused(WatchReason::OtherArity, 2)),
        (feed(10, &[]), RUNNING),
        (Call::Verdict, verdict(Phase::Running, 3, None)),
        (feed(8, APPLIED), Answer::Says(Standing::Broken(4))),
        (Call::Verdict, verdict(Phase::Broken, 4, Some(4))),
        (Call::Close, refused(WatchReason::IsBroken, 4)),
    ];
    let day = [1, 1, 6, 1, 12, 7, 1, 0x84, 7];
    answers(&rt, rt.alloc(), 6, &day, &told)
}

// A path gives its page back: written, or as it was where it is refused; a source that is not there is told.
#[test]
fn hands_pages_back(rt: HostRuntime) -> Result<(), Fail> {
    let heap = rt.alloc();
    let wait = table(heap, WAIT)?;
    let blank = Answer::Unwritten {
        refusal: refusal(WatchReason::NotBroken, 0),
        page: Vec::from_slice(heap, &[9, 9, 9, 9])?,
    };
    let short = Answer::Unwritten {
        refusal: refusal(WatchReason::SmallPage, 3),
        page: Vec::from_slice(heap, &[9, 9])?,
    };
    let wrote = Answer::Wrote {
        steps: 3,
        page: Vec::from_slice(heap, &[1, 0, 3, 9])?,
    };
    let told = [
        (Call::Path(&[9, 9, 9, 9]), blank),
        (begin(&wait, 64), Answer::Begun),
        (Call::Draw(0), RUNNING),
        (Call::Draw(1), Answer::NoSource),
        (feed(4, &[]), RUNNING),
        (feed(6, &[]), RUNNING),
        (Call::Close, Answer::Says(Standing::Broken(3))),
        (Call::Path(&[9, 9]), short),
        (Call::Path(&[9, 9, 9, 9]), wrote),
    ];
    answers(&rt, heap, 16_384, &[1, 1, 2, 0], &told)
}
