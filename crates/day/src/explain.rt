// What a person wants to know of a refused text: where its fault stands, and what it means.
ghost use Rattle.std.specs.Prelude.{◌≡◌, ◌+◌, ◌≤◌, count_by, length, map, position};
ghost use Rattle.std.specs.List.{before_first};
ghost use Rattle.day.specs.Explaining.{digit_at, ends, explanation, line_shown, mark_line, place_line, sentence, shown_byte, since_end};
ghost use Rattle.day.specs.Lines.{Writes};
ghost use Rattle.day.specs.Spots.{Finds, spot_shown};

use crate::page::Page;
use kinds::text_reason::TextReason;
use property::reader::Flaw;
use std::alloc::AllocError;

// How many bytes a property text may have.
pub const MOST_BYTES: usize = 8192;

// Where a place of a text is, as a person looks for it.
#[derive(Clone, Copy)]
struct Spot<'a> {
    // the number of its line, from 1
    line: usize,
    // what stands on its line before it
    before: &'a [u8],
    // what stands on its line from it on
    after: &'a [u8],
}

// How many lines end among some bytes.
fn line_ends(bytes: &[u8]) -> usize
    ensures count { result ≡ count_by ends bytes.now }
    ensures few { result ≤ length bytes.now }
{
    bytes.iter().filter(|byte| **byte == b'\n').count()
}

// What stands behind the last line that ends among some bytes.
fn last_line(bytes: &[u8]) -> &[u8]
    ensures { result.now ≡ since_end bytes.now }
{
    let mut begin = 0;
    for (i, byte) in bytes.iter().enumerate() {
        if *byte == b'\n' {
            begin = i + 1;
        }
    }
    &bytes[begin..]
}

// Where the first line of some bytes ends.
fn line_end(bytes: &[u8]) -> Option<usize>
    ensures { result ≡ position ends bytes.now }
{
    bytes.iter().position(|byte| *byte == b'\n')
}

// What stands before the first line's end among some bytes.
fn first_line(bytes: &[u8]) -> &[u8]
    ensures { result.now ≡ before_first ends bytes.now }
{
    match line_end(bytes) {
        Some(end) => &bytes[..end],
        None => bytes,
    }
}

// A byte as it is shown, which does nothing to a terminal.
fn shown(byte: u8) -> u8
    ensures { result ≡ shown_byte byte }
{
    if matches!(byte, b' '..=b'~') {
        byte
    } else {
        b'?'
    }
}

// Prints bytes as they are shown.
fn print_shown(page: &mut Page, bytes: &[u8]) -> Result<(), AllocError>
    ensures { Writes result page.old (map shown_byte bytes.now) page.new }
{
    for byte in bytes {
        page.write(&[shown(*byte)])?;
    }
    Ok(())
}

// Prints a space for each of some bytes.
fn print_margin(page: &mut Page, bytes: &[u8]) -> Result<(), AllocError>
    ensures { Writes result page.old (map (λ _. 32) bytes.now) page.new }
{
    for _byte in bytes {
        page.write(b" ")?;
    }
    Ok(())
}

impl<'a> Spot<'a> {
    // Where a place of a text is; one past the text is at its end.
    fn of(text: &'a [u8], place: usize) -> Spot<'a>
        ensures { Finds result text.now place }
    {
        let (before, after) = text.split_at(place.min(text.len()));
        Spot {
            line: line_ends(before) + 1,
            before: last_line(before),
            after: first_line(after),
        }
    }

    // Prints the number of its line and its column.
    fn print_place(self, page: &mut Page) -> Result<(), AllocError>
        ensures { Writes result page.old (place_line self.entry.line (length self.entry.before.now + 1)) page.new }
    {
        let column = self.before.len() + 1;
        writeln!(page, "line {}, column {column}", self.line)
    }

    // Prints its line.
    fn print_line(self, page: &mut Page) -> Result<(), AllocError>
        ensures { Writes result page.old (line_shown self.entry.before.now self.entry.after.now) page.new }
    {
        print_shown(page, self.before)?;
        print_shown(page, self.after)?;
        page.write(b"\n")
    }

    // Prints a mark under it.
    fn print_mark(self, page: &mut Page) -> Result<(), AllocError>
        ensures { Writes result page.old (mark_line self.entry.before.now) page.new }
    {
        print_margin(page, self.before)?;
        page.write(b"^\n")
    }

    // Prints where it is, its line, and a mark under it.
    fn print(self, page: &mut Page) -> Result<(), AllocError>
        ensures { Writes result page.old (spot_shown self.entry) page.new }
    {
        self.print_place(page)?;
        self.print_line(page)?;
        self.print_mark(page)
    }
}

// Whether a digit stands at a place.
fn is_digit(text: &[u8], place: usize) -> bool
    ensures { result ≡ digit_at text.now place }
{
    matches!(text.get(place), Some(b'0'..=b'9'))
}

// What a fault of a text means.
fn meaning(text: &[u8], flaw: Flaw) -> &'static str
    ensures { result.now ≡ sentence text.now flaw.place flaw.reason }
{
    let place = flaw.place;
    match flaw.reason {
        TextReason::NoForm if place == text.len() => "The text breaks off here.\n",
        TextReason::NoForm => {
            "This byte may not stand here; property, method, call and ret are no names.\n"
        }
        TextReason::TooMuch if place == MOST_BYTES => "A text has at most 8192 bytes.\n",
        TextReason::TooMuch if is_digit(text, place) => {
            "This number is too large: a method's number is at most 65535, and it has at most 5 parameters.\n"
        }
        TextReason::TooMuch => {
            "This is too long or one too many: a name has at most 12 letters and digits, a statement 4 events, and a property 32 methods, 64 statements, 16 states and 8 variables and constants.\n"
        }
        TextReason::BadMethod if is_digit(text, place) => {
            "An earlier line declares a method of this number.\n"
        }
        TextReason::BadMethod => {
            "No line declares a method of this name, or an earlier line declares one too.\n"
        }
        TextReason::OtherArity => {
            "The brackets that close here hold more or fewer patterns than the method has parameters.\n"
        }
        TextReason::WrittenTwice => "The same label writes this variable twice.\n",
        TextReason::UnwrittenRead => {
            "Some path of statements from start comes here without having written this variable.\n"
        }
        TextReason::LeavesError => "No statement may leave the state error.\n",
        TextReason::NoRoute => "No statement leaves start, or none leads to error.\n",
    }
}

// Prints where a fault of a text stands and what it means.
pub(crate) fn explain(page: &mut Page, text: &[u8], flaw: Flaw) -> Result<(), AllocError>
    ensures { Writes result page.old (explanation text.now flaw) page.new }
{
    Spot::of(text, flaw.place).print(page)?;
    page.write(meaning(text, flaw).as_bytes())
}
