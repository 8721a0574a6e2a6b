// What a watch keeps of the runs: rows of configurations and a book of steps, and how an event or the end of the list changes them.
#![tactic(auto)]

pub mod attempt;
pub mod book;
mod configuration;
pub mod entry;
pub mod fill;
pub mod front;
pub mod grid;
pub mod judge;
pub mod mode;
pub mod numbered;
pub mod open;
pub mod remember;
pub mod row;
pub mod rows;
pub mod scene;
pub mod settle;
mod slot;
pub mod state;
pub mod window;
