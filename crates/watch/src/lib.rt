// The watch and its calls.
#![tactic(auto)]

pub mod held;
pub mod standing;
pub mod watch;
