// The table of a property: what a text writes, with the limits that a watch leans on, and its reader.
#![tactic(auto)]

pub mod few;
mod lower;
pub mod parts;
pub mod table;
pub mod text;
mod words;
