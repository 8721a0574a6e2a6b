// Lines that say what is printed of a day: its property text, its journal and its constants as hex digits, and the first line, parted by tabs.
#![tactic(auto)]

pub mod day;
mod fields;
pub mod hex_field;
