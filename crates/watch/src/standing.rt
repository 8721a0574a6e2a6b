// What a feed, a draw, a close and a verdict tell, and what is asked of the deciding rule.
use kinds::phase::Phase;

// How the judged events stand after a call that is not refused: nothing is decided yet, a run reaches `error` at the position, or none does.
#[derive(Clone, Copy, PartialEq, Eq, Debug)]
pub enum Standing {
    Running,
    Broken(usize),
    Kept,
}

// The phase, the count of judged events and, if it is broken, the position.
// Kept the position beside the phase: `Phase` is also what the ledger keeps, whose position stands beside it, and what is printed by its name alone.
#[derive(Clone, Copy)]
pub struct Verdict {
    pub phase: Phase,
    pub judged: usize,
    pub position: Option<usize>,
}

// What is asked of the deciding rule: about one event more, or about the end of the list.
#[derive(Clone, Copy)]
pub enum Asked {
    Event,
    End,
}
