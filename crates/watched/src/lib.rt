// Tests of a watch: worked days, every answer in every phase, caps and books, draws from each source, constants, patterns, and histories.
#![tactic(auto)]

#[cfg(test)]
mod tests;
