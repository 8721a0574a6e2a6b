// Tests of the listing on journals of both kinds, with every refusal that a journal has.
#![tactic(auto)]

#[cfg(test)]
mod tests;
