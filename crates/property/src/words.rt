// Words of a text, and numbers.
ghost use Rattle.std.specs.Prelude.{◌≡◌, ◌+◌, ◌-◌, ◌*◌, min, length, drop, if◌then◌else◌, ◌==◌, not, nat_le, position, Some, None};
ghost use Rattle.forms.specs.Bytes.{letter, small, value, space, wordy};
ghost use Rattle.property.specs.Marks.{in_class};
ghost use Rattle.property.specs.Reading.{Passed};
ghost use Rattle.property.specs.Views.{name_of, is_constant, key_of};
ghost use Rattle.property.specs.States as state;
ghost use Rattle.property.specs.States.{same_key, capped as most};
ghost use Rattle.property.specs.Views.{spelled as spelling};
ghost use Rattle.property.specs.Words as word;

use crate::marks::*;
use crate::table::*;

// The bytes of a name, none where its places lie outside of the text.
pub(crate) fn spelled<'a>(text: &'a [u8], name: Name) -> &'a [u8]
    ensures { result.now ≡ spelling text.now name }
{
    text.get(name.from..name.to).unwrap_or(&[])
}

// Whether a word is reserved.
pub(crate) fn reserved(w: &[u8]) -> bool
    ensures { result ≡ word.reserved w.now }
{
    [b"property".as_slice(), b"method", b"call", b"ret"].contains(&w)
}

// Whether a word is the state that each property starts in.
pub(crate) fn is_start(w: &[u8]) -> bool
    ensures { result ≡ state.is_start w.now }
{
    w == b"start".as_slice()
}

// Whether a word is the state that tells of an error.
pub(crate) fn is_error(w: &[u8]) -> bool
    ensures { result ≡ state.is_error w.now }
{
    w == b"error".as_slice()
}

// Whether two words are one variable: the case of the first letter does not count.
pub(crate) fn same_variable(a: &[u8], b: &[u8]) -> bool
    ensures { result ≡ word.same (word.lowered a.now) (word.lowered b.now) }
{
    match (a, b) {
        ([x, r @ ..], [y, s @ ..]) => x.eq_ignore_ascii_case(y) && r == s,
        _ => a.is_empty() && b.is_empty(),
    }
}

impl Register {
    // Whether two constants or variables have one register.
    // Kept a method, in place of `PartialEq`: a name is two places, and which bytes stand there only the text says.
    pub(crate) fn same(self, other: Register, text: &[u8]) -> bool
        ensures { result ≡ same_key (key_of text.now self) (key_of text.now other) }
    {
        match (self, other) {
            (Register::Constant(a), Register::Constant(b)) => spelled(text, a) == spelled(text, b),
            (Register::Variable(a), Register::Variable(b)) => {
                same_variable(spelled(text, a), spelled(text, b))
            }
            _ => false,
        }
    }

    // Whether the word begins as a constant, or as a variable that is read.
    pub(crate) fn well_begun(self, text: &[u8]) -> bool
        ensures { let b = word.first_byte (spelling text.now (name_of self)) in result ≡ (if is_constant self then letter b else small b) }
    {
        match (self, spelled(text, self.name())) {
            (Register::Constant(_), [b, ..]) => b.is_ascii_alphabetic(),
            (Register::Variable(_), [b, ..]) => b.is_ascii_lowercase(),
            _ => false,
        }
    }
}

// The place of the first byte outside of the class.
fn outside(text: &[u8], class: Class) -> Option<usize>
    ensures { result ≡ position (λ b. not (in_class class b)) text.now }
{
    text.iter().position(|b| !class.has(*b))
}

// Where the bytes of the class end that stand at a place, which counts up to the text's end.
pub(crate) fn skip(text: &[u8], class: Class, at: usize) -> usize
    ensures { Passed (in_class class) text.now (min at (length text.now)) result }
{
    let from = at.min(text.len());
    match outside(&text[from..], class) {
        Some(n) => from + n,
        None => text.len(),
    }
}

// Eight spaces.
const EIGHT: [u8; 8] = *b"        ";

// Where the spaces end that stand at a place, which counts up to the text's end.
// Kept steps of eight: a text of thousands of spaces took three times as long and more by a step for each byte.
pub(crate) fn skip_spaces(text: &[u8], at: usize) -> usize
    ensures { Passed space text.now (min at (length text.now)) result }
{
    let mut from = at.min(text.len());
    while text[from..].starts_with(&EIGHT) {
        from += 8;
    }
    skip(text, Class::Spaces, from)
}

// The number with one more digit, none where it is over 65,535.
fn appended(v: u16, digit: u8) -> Option<u16>
    ensures { result ≡ (if nat_le (v * 10 + (digit - 48)) 65535 then Some (v * 10 + (digit - 48)) else None) }
{
    v.checked_mul(10)?
        .checked_add(u16::from(digit.saturating_sub(b'0')))
}

// The number that digits write, none where it is over 65,535.
pub(crate) fn decimal(digits: &[u8]) -> Option<u16>
    ensures { result ≡ (if nat_le (value digits.now) 65535 then Some (value digits.now) else None) }
{
    digits.iter().try_fold(0, |v, b| appended(v, *b))
}

// What stands for a method's number that is too large.
// Kept a number: the text has a fault there, and an Option would have to go on into the spot and the method.
const LARGE_NUMBER: u32 = 65536;

// What stands for a method's arity that is too large.
// Kept a number: the text has a fault there, and an Option would have to go on into the method.
pub(crate) const LARGE_ARITY: usize = 65536;

// The number that digits write, where all over 65,535 stand as one.
pub(crate) fn capped(digits: &[u8]) -> u32
    ensures { result ≡ most digits.now }
{
    decimal(digits).map_or(LARGE_NUMBER, u32::from)
}

// Whether a colon comes after the spaces at a place.
pub(crate) fn colon_next(text: &[u8], at: usize) -> bool
    ensures { result ≡ (word.first_byte (word.past space (drop at text.now)) == 58) }
{
    let end = skip_spaces(text, at);
    text.get(end) == Some(&b':')
}

// The word that comes after the spaces at a place.
pub(crate) fn next_word(text: &[u8], at: usize) -> Name
    ensures { spelling text.now result ≡ word.front wordy (word.past space (drop at text.now)) }
{
    let from = skip_spaces(text, at);
    Name {
        from,
        to: skip(text, Class::Wordy, from),
    }
}
