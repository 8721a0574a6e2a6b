// Reading a whole property text into a draft.
ghost use Rattle.std.specs.Prelude.{◌≡◌, ℕ, List, Decides, MatchResult};
ghost use Rattle.forms.specs.Bytes.{space};
ghost use Rattle.forms.specs.Forms.{Accepted, Before};
ghost use Rattle.kinds.specs.Refusals.{text_number};
ghost use Rattle.property.specs.Grammar.{any_text, property_text};
ghost use Rattle.property.specs.States.{nothing_read, routed as routes};
ghost use Rattle.property.specs.Outcomes.{Explains, ExplainsBounded};
ghost use Rattle.property.specs.Reading.{Passed};
ghost use Rattle.property.specs.Views.{view, sofar};
ghost use Rattle.property.specs.declared.text.Failure.TheVariants.{At, Memory};

use crate::cursor::*;
use crate::draft::*;
use crate::reader::*;
use crate::table::*;
use crate::words::*;
use forms::finding::Finding;
use kinds::text_reason::TextReason;
use std::alloc::{AllocError, Global};
use topl::states::{ERROR, START};

// How many bytes a text may have.
const LIMIT: usize = 8192;

// The fault of a text with a byte too many.
const TOO_LONG: Flaw = Flaw {
    reason: TextReason::TooMuch,
    place: LIMIT,
};

// Why a text gives no draft: a fault of the text, or want of memory.
#[derive(Clone, Copy)]
pub enum Failure {
    At(Flaw),
    Memory,
}

impl From<Flaw> for Failure {
    ghost from_gives = { λ x y. y ≡ At x };

    fn from(f: Flaw) -> Failure {
        Failure::At(f)
    }
}

impl From<AllocError> for Failure {
    ghost from_gives = { λ _ y. y ≡ Memory };

    fn from(_e: AllocError) -> Failure {
        Failure::Memory
    }
}

impl Draft {
    // Before the text.
    pub fn new(heap: Global) -> Draft
        ensures { (t : List ℕ) → view t result ≡ nothing_read }
    {
        let nowhere = Name { from: 0, to: 0 };
        Draft {
            cursor: Cursor::origin(),
            word: nowhere,
            name: nowhere,
            methods: Vec::new(heap),
            others: Vec::new(heap),
            registers: Vec::new(heap),
            statements: Vec::new(heap),
        }
    }
}

// Whether some statement leaves `start`, and some leads to `error`.
fn routed(statements: &[Statement]) -> bool
    ensures { result ≡ routes statements.now }
{
    statements.iter().any(|s| s.source == usize::from(START))
        && statements.iter().any(|s| s.target == usize::from(ERROR))
}

// Where the spaces at the text's beginning end. They change nothing, so reading begins after them.
fn margin(text: &[u8]) -> usize
    ensures { Passed space text.now 0 result }
{
    skip_spaces(text, 0)
}

// The draft of a text of any length, or why there is none.
fn read_any(heap: Global, text: &[u8]) -> Result<Draft, Failure>
    ensures { MatchResult result (λ d. Accepted any_text text.now (sofar text.now d)) (λ e. Explains text.now e) }
{
    let mut draft = Draft::new(heap);
    let place = margin(text);
    let mut reader = Reader { text, place };
    while let Some(found) = reader.next(&draft)? {
        draft.advance(text, found)?;
        reader.place = found.name.to;
    }
    draft.close()?;
    if !routed(draft.statements.as_slice()) {
        let place = text.len();
        let flaw = Flaw {
            reason: TextReason::NoRoute,
            place,
        };
        return Err(flaw.into());
    }
    Ok(draft)
}

impl From<Flaw> for Finding {
    ghost from_gives = { λ x y. (y.number ≡ text_number x.reason) × (y.place ≡ x.place) };

    fn from(f: Flaw) -> Finding {
        Finding {
            number: f.reason.number(),
            place: f.place,
        }
    }
}

impl Flaw {
    // Whether the fault comes before a byte too many.
    fn before_limit(self) -> bool
        ensures { Decides result (Before (text_number self.reason) self.place 11 8192) }
    {
        Finding::from(self).before(Finding::from(TOO_LONG))
    }
}

// The draft of a text of at most 8,192 bytes, or why there is none.
fn read_draft(heap: Global, text: &[u8]) -> Result<Draft, Failure>
    ensures { MatchResult result (λ d. Accepted property_text text.now (sofar text.now d)) (λ e. ExplainsBounded text.now e) }
{
    match read_any(heap, text) {
        Ok(_) if text.len() > LIMIT => Err(TOO_LONG.into()),
        Err(Failure::At(f)) if text.len() > LIMIT && !f.before_limit() => { Err(TOO_LONG.into()) }
        found => found,
    }
}

// Reads a text of at most 8,192 bytes into a draft, which stays as it was where there is a fault or memory is short. Unwritten reads are not sought here.
pub fn read(heap: Global, text: &[u8], draft: &mut Draft) -> Result<(), Failure>
    ensures { MatchResult result (λ _. Accepted property_text text.now (sofar text.now draft.new))
        (λ e. ExplainsBounded text.now e × (draft.new ≡ draft.old)) }
{
    *draft = read_draft(heap, text)?;
    Ok(())
}
