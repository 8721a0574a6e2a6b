// A property: the table of its methods, states, registers and statements, and the reader of its text.
#![tactic(auto)]

pub mod cursor;
pub mod draft;
mod flaws;
pub mod marks;
mod moves;
mod opens;
pub mod reader;
pub mod spot;
pub mod table;
pub mod text;
mod words;
