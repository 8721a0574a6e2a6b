// Events of a heating hub and where they come from.
#![tactic(auto)]

pub mod drain;
pub mod event;
pub mod journal;
pub mod place;
pub mod source;
