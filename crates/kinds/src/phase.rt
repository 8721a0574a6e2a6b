// The phases of a watch.

ghost use Rattle.std.specs.Prelude.{◌≡◌, Some};
ghost use Rattle.kinds.specs.Phases.{phase_name};

use std::fmt;

// Phase and call together decide what a watch answers.
#[derive(Clone, Copy, PartialEq, Eq, Debug)]
pub enum Phase {
    // made, and not begun
    Blank,
    // begun, and nothing is decided yet
    Running,
    // a run that reaches `error` is found and shown
    Broken,
    // some position had more configurations than the cap
    Spilled,
    // the book had too few entries
    Full,
    // the list of events has ended and no run reaches `error`
    Kept,
}

impl Phase {
    // The phase's name, as it is printed.
    pub fn name(self) -> &'static str
        ensures { result.now ≡ phase_name self }
    {
        match self {
            Phase::Blank => "blank",
            Phase::Running => "running",
            Phase::Broken => "broken",
            Phase::Spilled => "spilled",
            Phase::Full => "full",
            Phase::Kept => "kept",
        }
    }
}

impl fmt::Display for Phase {
    ghost output = { λ p. Some (phase_name p) };

    fn fmt<W: fmt::Write>(&self, f: &mut fmt::Formatter<W>) -> fmt::Result {
        f.write_str(self.name())
    }
}
