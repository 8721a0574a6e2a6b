// What a watch keeps beside its rows.
ghost use Rattle.std.specs.Prelude.{◌≡◌};
ghost use Rattle.watch.specs.Stages.{phase_of, position_of};
ghost use Rattle.watch.specs.declared.held.Stage.TheVariants.{Blank};

use engine::front::Breach;
use kinds::phase::Phase;
use tables::table::Table;

// The phase, with what the watch keeps for it: the table that was lent while it runs, and the breach once it is broken.
#[derive(Clone, Copy)]
pub enum Stage<'a> {
    Blank,
    Running(&'a Table),
    Broken(Breach),
    Spilled,
    Full,
    Kept,
}

// The phase of a stage, without what the watch keeps for it.
impl From<Stage<'_>> for Phase {
    ghost from_gives = { λ stage phase. phase ≡ phase_of stage };

    fn from(stage: Stage<'_>) -> Phase {
        match stage {
            Stage::Blank => Phase::Blank,
            Stage::Running(_) => Phase::Running,
            Stage::Broken(_) => Phase::Broken,
            Stage::Spilled => Phase::Spilled,
            Stage::Full => Phase::Full,
            Stage::Kept => Phase::Kept,
        }
    }
}

impl Stage<'_> {
    // The position, if it is broken.
    pub(crate) fn position(self) -> Option<usize>
        ensures { result ≡ position_of self.entry }
    {
        match self {
            Stage::Broken(breach) => Some(breach.position),
            _ => None,
        }
    }
}

// The stage, and how many events are judged.
#[derive(Clone, Copy)]
pub struct Held<'a> {
    pub stage: Stage<'a>,
    pub judged: usize,
}

impl<'a> Held<'a> {
    // What a blank watch keeps.
    pub(crate) fn blank() -> Held<'a>
        ensures { result ≡ record { stage = Blank; judged = 0 } }
    {
        Held {
            stage: Stage::Blank,
            judged: 0,
        }
    }
}
