// The faults of a piece where it stands.
// Kept an Option of the fault, in place of a Result: a fault is what each function here seeks, as the grammar's `worst` does, so None is no success with a
// value, and `or` goes on to the next fault.
ghost use Rattle.std.specs.Prelude.{◌≡◌, ℕ, true, false, nat_le, List, [], if◌then◌else◌, Some, None};
ghost use Rattle.property.specs.Grammar.{name_flaws, room_flaws, arity_flaws, full, source_flaws, line_flaws, route_flaws, pattern_flaws, closing_flaws, label_flaws, inner_flaws, flaws, wants_word, worst, written_twice, variable_flaws, begun_flaws, fresh_flaws};
ghost use Rattle.kinds.specs.Refusals.{text_number};
ghost use Rattle.property.specs.States as state;
ghost use Rattle.property.specs.States.{State};
ghost use Rattle.property.specs.Views.{told, seen, piece, first_flaw, spelled as spelling, name_of, is_constant};

use crate::draft::*;
use crate::reader::*;
use crate::spot::*;
use crate::table::*;
use crate::words::*;
use kinds::text_reason::TextReason;

// Something is too much, where a test holds.
fn too_much(b: bool) -> Option<TextReason>
    ensures { told result ≡ (if b then Some 11 else None) }
{
    b.then_some(TextReason::TooMuch)
}

// The fault of a name that needs room, where a test says that there is none.
fn room_flaw(w: &[u8], full: bool) -> Option<TextReason>
    ensures { told result ≡ worst (room_flaws full w.now) }
{
    if reserved(w) {
        return Some(TextReason::NoForm);
    }
    too_much(w.len() > 12 || full)
}

// The fault of a name.
fn name_flaw(w: &[u8]) -> Option<TextReason>
    ensures { told result ≡ worst (name_flaws w.now) }
{
    room_flaw(w, false)
}

// The fault of a method's arity.
fn arity_flaw(w: &[u8]) -> Option<TextReason>
    ensures { told result ≡ worst (arity_flaws w.now) }
{
    too_much(decimal(w).is_none_or(|n| n > 5))
}

impl Reading<'_> {
    // Whether a state would be the seventeenth.
    fn crowded(&self, w: &[u8]) -> bool
        ensures { result ≡ state.crowded (seen self.now) w.now }
    {
        self.draft.others.len() + self.draft.cursor.fixed() >= 16
            && (self.fresh_other(w)
                || is_start(w) && !self.draft.cursor.starts
                || is_error(w) && !self.draft.cursor.errs)
    }

    // The fault of a state's name.
    fn state_flaw(&self, w: &[u8]) -> Option<TextReason>
        ensures { told result ≡ worst (route_flaws Route.Target (seen self.now) w.now) }
    {
        room_flaw(w, self.crowded(w))
    }

    // Whether there is no room for a statement that leaves a state.
    fn full(&self, w: &[u8]) -> bool
        ensures { result ≡ full (seen self.now) w.now }
    {
        self.draft.statements.len() >= 64 || self.crowded(w)
    }

    // The fault of a statement's source.
    fn source_flaw(&self, w: &[u8]) -> Option<TextReason>
        ensures { told result ≡ worst (source_flaws (seen self.now) w.now) }
    {
        room_flaw(w, self.full(w)).or(is_error(w).then_some(TextReason::LeavesError))
    }

    // The fault of a line's first word.
    fn fresh_flaw(&self, w: &[u8]) -> Option<TextReason>
        ensures { told result ≡ worst (line_flaws Line.Fresh (seen self.now) w.now) }
    {
        if self.declares(w) {
            return too_much(self.draft.methods.len() >= 32);
        }
        self.source_flaw(w)
    }

    // The fault of the name of a method that a line declares.
    fn method_flaw(&self, w: &[u8]) -> Option<TextReason>
        ensures { told result ≡ worst (line_flaws Line.MethodName (seen self.now) w.now) }
    {
        name_flaw(w).or(self.knows(w).then_some(TextReason::BadMethod))
    }

    // The fault of the name of a method that a label calls.
    fn callee_flaw(&self, w: &[u8]) -> Option<TextReason>
        ensures { told result ≡ worst (label_flaws Label.Callee (seen self.now) w.now 0 []) }
    {
        name_flaw(w).or((!self.knows(w)).then_some(TextReason::BadMethod))
    }

    // The fault of a method's number.
    fn number_flaw(&self, w: &[u8]) -> Option<TextReason>
        ensures { told result ≡ worst (line_flaws Line.MethodNumber (seen self.now) w.now) }
    {
        match decimal(w) {
            Some(n) => self
                .draft
                .numbered(u32::from(n))
                .then_some(TextReason::BadMethod),
            None => Some(TextReason::TooMuch),
        }
    }

    // The fault of a closing bracket.
    fn closing_flaw(&self) -> Option<TextReason>
        ensures { told result ≡ worst (closing_flaws self.now.draft.now.cursor) }
    {
        let label = self.draft.cursor.label;
        let params = label.count.checked_sub(1);
        (params != Some(label.arity)).then_some(TextReason::OtherArity)
    }

    // Whether a constant or a variable that may stand after `!` or `<` needs a ninth register.
    fn wants(&self, register: Register) -> bool
        ensures { result ≡ wants_word (seen self.now).sofar (is_constant register) (spelling self.now.text.now (name_of register)) }
    {
        let w = spelled(self.text, register.name());
        register.well_begun(self.text) && name_flaw(w).is_none() && self.ninth(register)
    }

    // Whether the label would write a variable again.
    fn twice(&self, found: Found) -> bool
        ensures { result ≡ written_twice (seen self.now) (piece self.now found) found.byte }
    {
        let register = self.register_number(Register::Variable(found.name));
        found.byte.is_ascii_uppercase() && self.draft.cursor.label.writes(register)
    }

    // The fault of a pattern.
    fn pattern_flaw(&self, found: Found) -> Option<TextReason>
        ensures { told result ≡ first_flaw (pattern_flaws false) self.now found }
    {
        match found.byte {
            b'*' => None,
            b'!' => {
                let negated = Register::Variable(next_word(self.text, found.name.to));
                too_much(self.wants(negated))
            }
            b'<' => {
                let quoted = Register::Constant(next_word(self.text, found.name.to));
                too_much(self.wants(quoted))
            }
            _ => self.variable_flaw(found),
        }
    }

    // The fault of a variable.
    fn variable_flaw(&self, found: Found) -> Option<TextReason>
        ensures { told result ≡ worst (variable_flaws false (seen self.now) (piece self.now found) found.byte) }
    {
        self.fresh_variable_flaw(found.name)
            .or(self.twice(found).then_some(TextReason::WrittenTwice))
    }

    // The fault of a variable that begins a label: nothing is written by then.
    fn fresh_variable_flaw(&self, name: Name) -> Option<TextReason>
        ensures { told result ≡ worst (fresh_flaws false (seen self.now) (spelling self.now.text.now name)) }
    {
        let ninth = self.ninth(Register::Variable(name));
        room_flaw(spelled(self.text, name), ninth)
    }

    // The fault of what begins a label.
    fn begin_flaw(&self, found: Found) -> Option<TextReason>
        ensures { told result ≡ first_flaw (label_flaws Label.Begin) self.now found }
    {
        let span = self.draft.cursor.statement.span;
        let w = spelled(self.text, found.name);
        if found.byte == b'*' {
            return too_much(span >= 4 || span >= 3 && colon_next(self.text, found.name.to));
        }
        if w == b"call".as_slice() || w == b"ret".as_slice() {
            return too_much(span >= 4);
        }
        self.begun_flaw(found)
    }

    // The fault of a pattern that begins a label.
    fn begun_flaw(&self, found: Found) -> Option<TextReason>
        ensures { told result ≡ first_flaw (begun_flaws (nat_le 3 self.now.draft.now.cursor.statement.span)) self.now found }
    {
        if self.draft.cursor.statement.span >= 3 {
            return late_flaw(spelled(self.text, found.name), found.byte);
        }
        if found.byte.is_ascii_alphabetic() {
            return self.fresh_variable_flaw(found.name);
        }
        self.pattern_flaw(found)
    }

    // The fault of a piece at a line's beginning or end, or of a line that is no statement.
    fn line_flaw(&self, line: Line, w: &[u8]) -> Option<TextReason>
        ensures { told result ≡ worst (line_flaws line (seen self.now) w.now) }
    {
        match line {
            Line::Ending => None,
            Line::Fresh => self.fresh_flaw(w),
            Line::MethodName => self.method_flaw(w),
            Line::MethodNumber => self.number_flaw(w),
            Line::MethodArity(_) => arity_flaw(w),
        }
    }

    // The fault of a piece of a label.
    fn label_flaw(&self, label: Label, found: Found) -> Option<TextReason>
        ensures { told result ≡ first_flaw (label_flaws label) self.now found }
    {
        match label {
            Label::Begin => self.begin_flaw(found),
            Label::Callee => self.callee_flaw(spelled(self.text, found.name)),
            Label::Comma if found.byte == b')' => self.closing_flaw(),
            _ => None,
        }
    }

    // The fault of a piece of a pattern.
    fn inner_flaw(&self, inner: Inner, found: Found) -> Option<TextReason>
        ensures { told result ≡ first_flaw (inner_flaws inner) self.now found }
    {
        match inner {
            Inner::First if found.byte == b')' => self.closing_flaw(),
            Inner::Returned | Inner::First | Inner::Param => self.pattern_flaw(found),
            Inner::Negated(_) | Inner::Quoted(_) => name_flaw(spelled(self.text, found.name)),
            Inner::Unquote => None,
        }
    }

    // The fault of a piece; the first by number.
    // Kept a word for each spot that needs one: the keyword's letters and most marks do not.
    pub(crate) fn flaw(&self, found: Found) -> Option<TextReason>
        ensures { told result ≡ first_flaw flaws self.now found }
    {
        match self.draft.cursor.spot {
            Spot::Head(Head::Title) => name_flaw(spelled(self.text, found.name)),
            Spot::Line(line) => self.line_flaw(line, spelled(self.text, found.name)),
            Spot::Route(Route::Target) => self.state_flaw(spelled(self.text, found.name)),
            Spot::Label(label) => self.label_flaw(label, found),
            Spot::Inner(inner) => self.inner_flaw(inner, found),
            Spot::Head(_) | Spot::Route(_) => None,
        }
    }
}

// The fault of a pattern that begins a label and goes past the fourth event.
fn late_flaw(w: &[u8], byte: u8) -> Option<TextReason>
    ensures { (p : State) (r : List ℕ) → told result ≡ worst (begun_flaws true p w.now byte r) }
{
    match byte {
        b'*' => None,
        b'!' | b'<' => Some(TextReason::TooMuch),
        _ => room_flaw(w, true),
    }
}
