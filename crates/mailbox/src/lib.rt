// A mailbox: events in the order in which they were put.
#![tactic(auto)]

pub mod held;
