// Tests of what the program takes for a report that is right, over reports that are wrong in one place.
use crate::expected_report;
use crate::misstep::Misstep;
use crate::shown::Shown;
use std::alloc::{AllocError, Global};
use std::process::Abort;
use std::test::Fail;

// A property text and a journal.
#[derive(Clone, Copy)]
struct Day {
    text: &'static [u8],
    journal: &'static [u8],
}

// Stale: fetch of 12, return of 900, midnight, apply of 12 and 900.
const STALE: Day = Day {
    text: STALE_TEXT,
    journal: b"\x01\x01\x06\x01\x0C\x07\x01\x84\x07\x0A\x00\x08\x02\x0C\x84\x07",
};

// The same with labels, whose case differs.
const STALE_LABELS: Day = Day {
    text: STALE_TEXT,
    journal: b"\x01\x02\x06\x01\x05HW-12\x07\x01\x05day-1\x0A\x00\x08\x02\x05hw-12\x05DAY-1",
};

// Wait: g, p and r.
const WAIT: Day = Day {
    text: WAIT_TEXT,
    journal: b"\x01\x01\x02\x00\x04\x00\x06\x00",
};

// Wait: g, p, r and then an event of no method of the property.
const WAIT_ON: Day = Day {
    text: WAIT_TEXT,
    journal: b"\x01\x01\x02\x00\x04\x00\x06\x00\x0A\x00",
};

// Wait: g, p, r and z.
const WAIT_ALL: Day = Day {
    text: WAIT_TEXT,
    journal: b"\x01\x01\x02\x00\x04\x00\x06\x00\x08\x00",
};

// Reads of an event that writes: m of 1 and 2, and then m of 3 and 1.
const READS: Day = Day {
    text: READS_TEXT,
    journal: b"\x01\x01\x02\x02\x01\x02\x02\x02\x03\x01",
};

// The same with 3 and 3, which only a read behind the write takes.
const READS_LATE: Day = Day {
    text: READS_TEXT,
    journal: b"\x01\x01\x02\x02\x01\x02\x02\x02\x03\x03",
};

// A property of three statements over two registers.
const STALE_TEXT: &[u8] =
    b"property Stale\nmethod fetch 3 1\nmethod apply 4 2\nmethod midnight 5 0\nstart -> held: S := fetch(F)\nheld -> stale: call midnight()\nstale -> error: call apply(f, s)\n";

// A property whose statements from one state hang and pass beside each other.
const WAIT_TEXT: &[u8] =
    b"property Wait\nmethod g 1 0\nmethod p 2 0\nmethod r 3 0\nmethod z 4 0\nstart -> a: call g()\na -> done: call p(); call r(); call z()\na -> error: call r()\n";

// A property of an event that writes and reads one register.
const READS_TEXT: &[u8] =
    b"property Reads\nmethod m 1 2\nstart -> a: call m(X, *)\na -> error: call m(X, x)\n";

// The steps that a report shows of a day have this misstep, or none.
fn walks(
    rt: &impl Abort,
    heap: Global,
    day: Day,
    report: &str,
    misstep: Option<Misstep>,
) -> Result<(), Fail> {
    let walked = match Shown::of(heap, report) {
        Ok(shown) => shown.walk(heap, day.text, day.journal, b""),
        Err(misstep) => Err(misstep),
    };
    assert!(rt; walked.err() == misstep, "{}", report);
    Ok(())
}

// Steps that are a run.
#[test]
fn walks_runs(rt: HostRuntime) -> Result<(), Fail> {
    let heap = rt.alloc();
    walks(&rt, heap, STALE, "broken 4 4\n1 2 3\n", None)?;
    walks(&rt, heap, STALE_LABELS, "broken 4 4\n1 2 3\n", None)?;
    walks(&rt, heap, WAIT, "broken 3 3\n1 0 3\n", None)?;
    walks(&rt, heap, WAIT_ON, "broken 4 3\n1 0 3\n", None)?;
    walks(&rt, heap, READS, "broken 2 2\n1 2\n", None)
}

// A skip is refused where a statement passes, hangs while more may come, or where no event is left.
#[test]
fn refuses_skips(rt: HostRuntime) -> Result<(), Fail> {
    let heap = rt.alloc();
    let held = Some(Misstep::HeldBack);
    walks(&rt, heap, STALE, "broken 4 4\n0 2 3\n", held)?;
    walks(&rt, heap, STALE, "broken 4 4\n1 0 3\n", held)?;
    walks(&rt, heap, WAIT_ON, "broken 3 3\n1 0 3\n", held)?;
    walks(&rt, heap, WAIT_ALL, "broken 4 3\n1 0 3\n", held)?;
    let none = Some(Misstep::NothingComes);
    walks(&rt, heap, STALE, "broken 4 4\n1 2 3 0\n", none)?;
    walks(&rt, heap, STALE, "broken 1 1\n65 65\n", none)
}

// A statement is refused where its events do not come or meet, and where it leaves another state.
#[test]
fn refuses_statements(rt: HostRuntime) -> Result<(), Fail> {
    let heap = rt.alloc();
    let unmet = Some(Misstep::Unmet);
    walks(&rt, heap, STALE, "broken 4 4\n65 1 2 3\n", unmet)?;
    walks(&rt, heap, STALE, "broken 3 3\n1 2 3\n", unmet)?;
    walks(&rt, heap, READS_LATE, "broken 2 2\n1 2\n", unmet)?;
    let other = Some(Misstep::OtherSource);
    walks(&rt, heap, STALE, "broken 4 4\n1 3\n", other)?;
    walks(&rt, heap, STALE, "broken 4 4\n1 65\n", other)?;
    let none = Some(Misstep::NoStatement);
    walks(&rt, heap, STALE, "broken 4 4\n4\n", none)?;
    walks(&rt, heap, STALE, "broken 4 4\n66\n", none)
}

// A run is refused that ends elsewhere, or that is none.
#[test]
fn refuses_ends(rt: HostRuntime) -> Result<(), Fail> {
    let heap = rt.alloc();
    let astray = Some(Misstep::Astray);
    walks(&rt, heap, STALE, "broken 4 4\n1 2\n", astray)?;
    walks(&rt, heap, STALE, "broken 4 3\n1 2 3\n", astray)?;
    let none = Some(Misstep::NoRun);
    walks(&rt, heap, STALE, "broken 5 4\n1 2 3\n", none)?;
    walks(&rt, heap, STALE, "broken 4 5\n1 2 3\n", none)?;
    walks(&rt, heap, STALE, "broken 4 4\n\n", none)?;
    walks(&rt, heap, STALE, "broken 4 4\n", none)
}

// The day of a line, with this first line expected.
fn listed(heap: Global, day: Day, expected: &str) -> Result<vectors::day::Day, AllocError> {
    Ok(vectors::day::Day {
        text: Vec::from_slice(heap, day.text)?,
        journal: Vec::from_slice(heap, day.journal)?,
        constants: Vec::new(heap),
        expected: String::from_str(heap, expected)?,
    })
}

// Whether a report of a day is as this first line says.
fn is_told(heap: Global, day: Day, expected: &str, report: &str) -> Result<bool, Fail> {
    let day = listed(heap, day, expected)?;
    Ok(expected_report(heap, &day, report).is_ok_and(|wanted| wanted.as_str() == report))
}

// A report is right to the last byte.
#[test]
fn compares_whole_reports(rt: HostRuntime) -> Result<(), Fail> {
    let heap = rt.alloc();
    for (day, expected, report, right) in [
        (WAIT, "kept 3", "kept 3\n", true),
        (WAIT, "kept 3", "kept 3", false),
        (WAIT, "kept 3", "kept 3\n\n", false),
        (WAIT, "kept 3", "kept 3\nrubbish", false),
        (WAIT, "kept 3", "kept 4\n", false),
        (WAIT, "kept 3", "broken 3 3\n1 0 3\n", false),
        (STALE, "broken 4 4", "kept 4\n", false),
        (STALE, "broken 4 4", "broken 4 4\n1 2 3\n", true),
        (STALE, "broken 4 3", "broken 4 4\n1 2 3\n", false),
        (STALE, "broken 4 4", "broken +4 4\n1 2 3\n", false),
        (STALE, "broken 4 4", "broken 4 4 4\n1 2 3\n", false),
        (STALE, "broken 4 4", "broken 4 4\n+1 2 3\n", false),
        (STALE, "broken 4 4", "broken 4 4\n1 02 3\n", false),
        (STALE, "broken 4 4", "broken 4 4\n1  2 3\n", false),
        (STALE, "broken 4 4", "broken 4 4\n1 2 3 \n", false),
        (STALE, "broken 4 4", "broken 4 4\n1 2 3", false),
        (STALE, "broken 4 4", "broken 4 4\n1 2 3\n\n", false),
        (STALE, "broken 4 4", "broken 4 4\n1 2 3\nrubbish\n", false),
    ] {
        let told = is_told(heap, day, expected, report)?;
        assert_eq!(rt; told, right, "{expected} of {report}");
    }
    Ok(())
}
