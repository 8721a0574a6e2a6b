// Days whose journals are too long for a line of a file: one record again and again, and others after it.
use kinds::kind::Kind;
use kinds::labels::Labels;
use kinds::numbers::Numbers;
use std::alloc::{AllocError, Global};
use vectors::day::Day;

// A property that the last record of such a day breaks.
const TEXT: &[u8] = b"property Long\nmethod m 1 3\nstart -> error: call m(*, *, *)\n";

// The version of a journal.
const VERSION: u8 = 1;

// A call of method 0 with no value.
const IDLE: &[u8] = b"\x00\x00";

// A call of m.
const CALL: &[u8] = b"\x02\x03\x01\x02\x03";

// A record of five numbers that is as long as one can be, of 49 bytes.
const LONGEST: &[u8] =
    b"\xFE\xFF\x07\x05\xFF\xFF\xFF\xFF\xFF\xFF\xFF\xFF\x7F\xFF\xFF\xFF\xFF\xFF\xFF\xFF\xFF\x7F\xFF\xFF\xFF\xFF\xFF\xFF\xFF\xFF\x7F\xFF\xFF\xFF\xFF\xFF\xFF\xFF\xFF\x7F\xFF\xFF\xFF\xFF\xFF\xFF\xFF\xFF\x7F";

// A record of five labels that is as long as one can be, of 89 bytes.
const LONGEST_LABELLED: &[u8] =
    b"\xFE\xFF\x07\x05\x10radiator-kitchen\x10radiator-kitchen\x10radiator-kitchen\x10radiator-kitchen\x10radiator-kitchen";

// A call of m of 21 bytes, which fills a journal of the longest records.
const LAST: &[u8] =
    b"\x02\x03\xFF\xFF\xFF\xFF\xFF\xFF\xFF\xFF\x7F\xFF\xFF\xFF\xFF\xFF\xFF\xFF\xFF\x7F\x00";

// One of 22 bytes, one too many.
const LONGER_LAST: &[u8] =
    b"\x02\x03\xFF\xFF\xFF\xFF\xFF\xFF\xFF\xFF\x7F\xFF\xFF\xFF\xFF\xFF\xFF\xFF\xFF\x7F\x80\x01";

// A call of m of 30 bytes, with labels, which fills one too.
const LAST_LABELLED: &[u8] = b"\x02\x03\x10radiator-kitchen\x05day-1\x04HW-1";

// One of 31 bytes, one too many.
const LONGER_LAST_LABELLED: &[u8] = b"\x02\x03\x10radiator-kitchen\x05day-1\x05HW-12";

// Such a day: the kind, a record and how often it comes, the bytes after it, and what is expected.
#[derive(Clone, Copy)]
pub(crate) struct Long {
    kind: u8,
    record: &'static [u8],
    times: usize,
    last: &'static [u8],
    expected: &'static str,
}

// A day of numbers that is idle so many times.
fn idle(times: usize, last: &'static [u8], expected: &'static str) -> Long {
    Long {
        kind: Numbers::NUMBER,
        record: IDLE,
        times,
        last,
        expected,
    }
}

// A day of records of full length and a last one, in a journal of 65,536 bytes or one more.
fn full(last: &'static [u8], expected: &'static str) -> Long {
    Long {
        kind: Numbers::NUMBER,
        record: LONGEST,
        times: 1_337,
        last,
        expected,
    }
}

// The same with labels.
fn full_labelled(last: &'static [u8], expected: &'static str) -> Long {
    Long {
        kind: Labels::NUMBER,
        record: LONGEST_LABELLED,
        times: 736,
        last,
        expected,
    }
}

// The long days: a book of 16,384 entries has one for each position of an idle day, but `error` is told even where there is none left for it.
pub(crate) fn long_days() -> [Long; 9] {
    [
        full(LAST, "broken 1338 1338"),
        full(LONGER_LAST, "refused journal 7 0"),
        full_labelled(LAST_LABELLED, "broken 737 737"),
        full_labelled(LONGER_LAST_LABELLED, "refused journal 7 0"),
        idle(16_383, b"", "kept 16383"),
        idle(16_384, b"", "refused watch 33 16383"),
        idle(16_382, CALL, "broken 16383 16383"),
        idle(16_383, CALL, "broken 16384 16384"),
        idle(16_384, CALL, "refused watch 33 16383"),
    ]
}

impl Long {
    // The bytes of the journal.
    fn journal(self, heap: Global) -> Result<Vec<u8>, AllocError> {
        let mut bytes = vec![in heap; VERSION, self.kind]?;
        for _i in 0..self.times {
            bytes.extend_from_slice(self.record)?;
        }
        bytes.extend_from_slice(self.last)?;
        Ok(bytes)
    }

    // The day, as a line of a file would give it.
    pub(crate) fn day(self, heap: Global) -> Result<Day, AllocError> {
        Ok(Day {
            text: Vec::from_slice(heap, TEXT)?,
            journal: self.journal(heap)?,
            constants: Vec::new(heap),
            expected: String::from_str(heap, self.expected)?,
        })
    }
}
