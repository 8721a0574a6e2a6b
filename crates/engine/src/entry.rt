// An entry of the book.

// How a configuration was reached: from the one that the parent's entry stands for, by this step.
// Kept a number for the step, a skip's too: a path is written as bytes, 0 for a skip, 1 to 64 for a written statement and 65 for the implied one.
#[derive(Clone, Copy, Debug)]
pub struct Entry {
    pub parent: u16,
    pub step: u8,
}
