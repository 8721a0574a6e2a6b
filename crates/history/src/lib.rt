// Any history of calls on one watch, and the whole that is true of it.
#![tactic(auto)]

pub mod call;
pub mod run;
