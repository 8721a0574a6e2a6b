// How a day comes out.
use kinds::refusal::Refusal;

// Kept; broken, with the steps of a run; or refused.
#[derive(Drop)]
pub enum Outcome {
    Kept {
        judged: usize,
    },
    Broken {
        judged: usize,
        position: usize,
        steps: Vec<u8>,
    },
    Refused(Refusal),
}
