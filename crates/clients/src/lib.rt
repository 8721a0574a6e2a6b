// Code over narrowed sources, which needs no proof of its own, and tests of the sources together.
#![tactic(auto)]

pub mod drained;
#[cfg(test)]
mod tests;
