// The states that every property has, by their numbers.

// The state that every run begins in.
pub const START: u8 = 0;

// The state that no run may reach.
pub const ERROR: u8 = 1;
