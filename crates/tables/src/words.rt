// Words of a text, as they print.
ghost use Rattle.std.specs.Prelude.{Some};
ghost use Rattle.property.specs.Words.{lowered};
ghost use Rattle.tables.specs.Letters.{raised};

use std::{fmt, str};

// A word as it stands. A name of an accepted text is letters and digits; other bytes that are no text are a fault of the formatting.
#[derive(Clone, Copy)]
pub(crate) struct Word<'a>(pub(crate) &'a [u8]);

impl fmt::Display for Word<'_> {
    ghost output = { λ w. Some w.0.now };

    fn fmt<W: fmt::Write>(&self, f: &mut fmt::Formatter<W>) -> fmt::Result {
        f.write_str(str::from_utf8(self.0).map_err(|_| fmt::Error)?)
    }
}

// A word with a small first letter.
#[derive(Clone, Copy)]
pub(crate) struct Small<'a>(pub(crate) &'a [u8]);

impl fmt::Display for Small<'_> {
    ghost output = { λ w. Some (lowered w.0.now) };

    fn fmt<W: fmt::Write>(&self, f: &mut fmt::Formatter<W>) -> fmt::Result {
        let Some((first, rest)) = self.0.split_first() else {
            return Ok(());
        };
        let letter = [first.to_ascii_lowercase()];
        write!(f, "{}{}", Word(&letter), Word(rest))
    }
}

// A word with a capital first letter.
#[derive(Clone, Copy)]
pub(crate) struct Capital<'a>(pub(crate) &'a [u8]);

impl fmt::Display for Capital<'_> {
    ghost output = { λ w. Some (raised w.0.now) };

    fn fmt<W: fmt::Write>(&self, f: &mut fmt::Formatter<W>) -> fmt::Result {
        let Some((first, rest)) = self.0.split_first() else {
            return Ok(());
        };
        let letter = [first.to_ascii_uppercase()];
        write!(f, "{}{}", Word(&letter), Word(rest))
    }
}
