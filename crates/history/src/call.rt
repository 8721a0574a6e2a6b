// The calls of a watch as values, and what they are answered.
ghost use Rattle.std.specs.Prelude.{◌≡◌};
ghost use Rattle.watch.specs.Answers.{began, told, drew};

use kinds::refusal::Refusal;
use tables::table::Table;
use watch::standing::{Standing, Verdict};

// What is asked of a watch. A draw names its source by its place in a list, and a path hands over what its page holds.
#[derive(Clone, Copy)]
pub enum Call<'a, V> {
    Begin {
        table: &'a Table,
        constants: &'a [V],
        cap: usize,
    },
    Feed {
        id: u32,
        values: &'a [V],
    },
    Draw(usize),
    Close,
    Verdict,
    Path(&'a [u8]),
}

// What a watch answers. A path gives its page back.
#[derive(Drop)]
pub enum Answer {
    Begun,
    NoEvent,
    NoSource,
    Says(Standing),
    Tells(Verdict),
    Wrote { steps: usize, page: Vec<u8> },
    Unwritten { refusal: Refusal, page: Vec<u8> },
    Refused(Refusal),
}

// What a begin is answered.
// Kept an impl for each kind of result, though all three refuse alike: one for any `T: Into<Answer>` would stand on three more, for `()`,
// `Standing` and `Option<Standing>`.
impl From<Result<(), Refusal>> for Answer {
    ghost use Rattle.history.specs.Calls.{answer};

    ghost from_gives = { λ r a. answer a ≡ began r };

    fn from(r: Result<(), Refusal>) -> Answer {
        match r {
            Ok(()) => Answer::Begun,
            Err(f) => Answer::Refused(f),
        }
    }
}

// What a feed or a close is answered.
impl From<Result<Standing, Refusal>> for Answer {
    ghost use Rattle.history.specs.Calls.{answer};

    ghost from_gives = { λ r a. answer a ≡ told r };

    fn from(r: Result<Standing, Refusal>) -> Answer {
        match r {
            Ok(s) => Answer::Says(s),
            Err(f) => Answer::Refused(f),
        }
    }
}

// What a draw is answered.
impl From<Result<Option<Standing>, Refusal>> for Answer {
    ghost use Rattle.history.specs.Calls.{answer};

    ghost from_gives = { λ r a. answer a ≡ drew r };

    fn from(r: Result<Option<Standing>, Refusal>) -> Answer {
        match r {
            Ok(Some(s)) => Answer::Says(s),
            Ok(None) => Answer::NoEvent,
            Err(f) => Answer::Refused(f),
        }
    }
}
