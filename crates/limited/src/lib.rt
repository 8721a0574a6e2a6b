// Tests of the limits and corner cases of property texts, of all that is printed of refused ones, and of what a table tells people.
#![tactic(auto)]

#[cfg(test)]
mod tests;
