// Whether a list of events goes on, or has ended.
ghost use Rattle.std.specs.Prelude.{◌≡◌};
ghost use Rattle.topl.specs.Runs.{calm, hangs};
ghost use Rattle.engine.specs.Modes.{mode_of};

// `Settled`: more events may come. `Closed`: none will.
#[derive(Clone, Copy)]
pub enum Mode {
    Settled,
    Closed,
}

impl Mode {
    // Does a statement that hangs let a skip go on?
    pub(crate) fn lets_hang(self) -> bool
        ensures { result ≡ calm (mode_of self) hangs }
    {
        match self {
            Mode::Settled => false,
            Mode::Closed => true,
        }
    }
}
