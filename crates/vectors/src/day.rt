// A day whose first line is known.
ghost use Rattle.std.specs.Prelude.{MatchResult};
ghost use Rattle.vectors.specs.Read.{OnLine, Unread};

use crate::fields::Fields;
use crate::hex_field::{Fault, field_bytes};
use std::alloc::Global;

// A property text, a journal, the values of the constants, and the first line that is to be printed of them.
#[derive(Drop)]
pub struct Day {
    pub text: Vec<u8>,
    pub journal: Vec<u8>,
    pub constants: Vec<u8>,
    pub expected: String,
}

impl Day {
    // The day that a line writes.
    pub fn read(heap: Global, line: &str) -> Result<Day, Fault>
        ensures { MatchResult result (OnLine line.now) (Unread line.now) }
    {
        let Some(fields) = Fields::of(line) else {
            return Err(Fault::FewFields);
        };
        let text = field_bytes(heap, fields.text)?;
        let journal = field_bytes(heap, fields.journal)?;
        let constants = field_bytes(heap, fields.constants)?;
        let expected = String::from_str(heap, fields.expected)?;
        Ok(Day {
            text,
            journal,
            constants,
            expected,
        })
    }
}
