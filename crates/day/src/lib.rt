// A whole day by one call: what a program prints of it.
#![tactic(auto)]

pub mod check;
mod explain;
pub mod listing;
pub mod methods;
mod page;
pub mod report;
mod shown;
