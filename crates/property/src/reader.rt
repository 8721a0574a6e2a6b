// Reading a property text, piece by piece.
ghost use Rattle.std.specs.Prelude.{◌≡◌, ◌+◌, ◌-◌, ◌<◌, ◌≤◌, true, false, ◌&&◌, length, MatchResult, ◌==◌, nat_lt, slice_index};
ghost use Rattle.forms.specs.Bytes.{digit, space};
ghost use Rattle.kinds.specs.Refusals.{text_number};
ghost use Rattle.property.specs.Reads.{Gapped, Lexed, Halts, ComesNext, Read};
ghost use Rattle.property.specs.Grammar.{tight_at};
ghost use Rattle.property.specs.Views.{view};

use crate::draft::*;
use crate::marks::*;
use crate::spot::*;
use crate::table::*;
use crate::words::*;
use kinds::text_reason::TextReason;

// A fault of the text, at a place.
#[derive(Clone, Copy)]
pub struct Flaw {
    pub reason: TextReason,
    pub place: usize,
}

impl Flaw {
    // What stands at a place fits no form.
    fn no_form(place: usize) -> Flaw
        ensures reason { result.reason ≡ TextReason.NoForm }
        ensures place { result.place ≡ place }
    {
        Flaw {
            reason: TextReason::NoForm,
            place,
        }
    }
}

// A piece of the text, and its first byte.
#[derive(Clone, Copy)]
pub struct Found {
    pub name: Name,
    pub byte: u8,
}

// The text and the place that it has been read to.
// Kept without an invariant, so that its functions require that its place, and the `from` that they are given, lie within the text: its fields
// are public, and an invariant would ask more of whoever makes one.
#[derive(Drop)]
pub struct Reader<'a> {
    pub text: &'a [u8],
    pub place: usize,
}

impl Reader<'_> {
    // Where the next piece begins at a spot.
    fn start(&self, spot: Spot) -> usize
        requires { self.now.place ≤ length self.now.text.now }
        ensures { Gapped (tight_at spot) self.now.text.now self.now.place result }
    {
        if spot.tight() {
            return self.place;
        }
        skip_spaces(self.text, self.place)
    }

    // Whether a zero stands before the other digits of a number.
    fn padded(&self, from: usize, end: usize) -> bool
        ensures { result ≡ (slice_index self.now.text.now from == 48) && nat_lt 1 (end - from) }
    {
        self.text.get(from) == Some(&b'0') && end.saturating_sub(from) > 1
    }

    // Where the piece ends that begins at a place, at a spot.
    fn end(&self, spot: Spot, from: usize) -> Result<usize, Flaw>
        requires within { from < length self.now.text.now }
        requires plain { tight_at spot ≡ false → space (slice_index self.now.text.now from) ≡ false }
        ensures { MatchResult result (λ q. Lexed (tight_at spot) self.now.text.now from q)
            (λ e. (e.reason ≡ TextReason.NoForm) × (e.place ≡ from + 1) × (tight_at spot ≡ false) × (from + 1 < length self.now.text.now)
            × (slice_index self.now.text.now from ≡ 48) × (digit (slice_index self.now.text.now (from + 1)) ≡ true)) }
    {
        if spot.tight() {
            return Ok(from + 1);
        }
        if self.text[from].is_ascii_alphabetic() {
            return Ok(skip(self.text, Class::Wordy, from));
        }
        if !self.text[from].is_ascii_digit() {
            return Ok(from + 1);
        }
        let end = skip(self.text, Class::Digits, from);
        if self.padded(from, end) {
            return Err(Flaw::no_form(from + 1));
        }
        Ok(end)
    }

    // What comes next for a draft of the text: a piece that may stand there, or the end.
    pub(crate) fn next(&self, draft: &Draft) -> Result<Option<Found>, Flaw>
        requires { self.now.place ≤ length self.now.text.now }
        ensures { MatchResult result
            (λ o. ComesNext (view self.now.text.now draft.now) self.now.text.now self.now.place o)
            (λ e. Halts (view self.now.text.now draft.now) self.now.text.now self.now.place (text_number e.reason) e.place) }
    {
        let spot = draft.cursor.spot;
        let from = self.start(spot);
        if from == self.text.len() {
            if spot.ends(&self.text[self.place..from]) {
                return Ok(None);
            }
            return Err(Flaw::no_form(from));
        }
        let found = self.piece(draft, from)?;
        Ok(Some(found))
    }

    // The piece that begins at a place, where it may stand for a draft and has no fault.
    fn piece(&self, draft: &Draft, from: usize) -> Result<Found, Flaw>
        requires gap { Gapped (tight_at draft.now.cursor.spot) self.now.text.now self.now.place from }
        requires within { from < length self.now.text.now }
        ensures { MatchResult result
            (λ x. Read (view self.now.text.now draft.now) self.now.text.now self.now.place x)
            (λ e. Halts (view self.now.text.now draft.now) self.now.text.now self.now.place (text_number e.reason) e.place) }
    {
        let spot = draft.cursor.spot;
        let byte = self.text[from];
        if !spot.opens(byte) {
            return Err(Flaw::no_form(from));
        }
        let to = self.end(spot, from)?;
        let name = Name { from, to };
        let found = Found { name, byte };
        let reading = Reading {
            text: self.text,
            draft,
        };
        match reading.flaw(found) {
            Some(reason) => Err(Flaw {
                reason,
                place: from,
            }),
            None => Ok(found),
        }
    }
}
