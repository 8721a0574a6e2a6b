// Why a shown run does not walk.
use std::alloc::AllocError;
use std::fmt;

// What is wrong with it.
#[derive(Clone, Copy, PartialEq, Eq, Debug)]
pub(crate) enum Misstep {
    // memory is short
    Memory,
    // the report has no line of steps, or more events than the journal
    NoRun,
    // the text, the journal or a constant is refused
    Refused,
    // no statement has the step's number
    NoStatement,
    // the statement leaves another state
    OtherSource,
    // the statement does not pass
    Unmet,
    // no event is left
    NothingComes,
    // a statement passes where the run skips, or hangs while more may come
    HeldBack,
    // the run does not end in `error` at the position
    Astray,
}

impl Misstep {
    // What is wrong, in words.
    fn words(self) -> &'static str {
        match self {
            Misstep::Memory => "memory is short",
            Misstep::NoRun => "no run is shown",
            Misstep::Refused => "a refused day shows no run",
            Misstep::NoStatement => "no statement has this number",
            Misstep::OtherSource => "the statement leaves another state",
            Misstep::Unmet => "the statement does not pass",
            Misstep::NothingComes => "no event is left",
            Misstep::HeldBack => "a skip where a statement may pass",
            Misstep::Astray => "the run ends elsewhere",
        }
    }
}

impl From<AllocError> for Misstep {
    fn from(_error: AllocError) -> Misstep {
        Misstep::Memory
    }
}

impl fmt::Display for Misstep {
    fn fmt<W: fmt::Write>(&self, f: &mut fmt::Formatter<W>) -> fmt::Result {
        f.write_str(self.words())
    }
}
