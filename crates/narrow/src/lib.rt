// Narrowing: the events of some methods alone, out of any source.
#![tactic(auto)]

pub mod filter;
pub mod methods;
