// Values of a heating hub's journal: how they are refused, read from bytes, and compared.
#![tactic(auto)]

pub mod cases;
pub mod kind;
pub mod label;
pub mod labels;
pub mod number;
pub mod numbers;
pub mod phase;
pub mod refusal;
pub mod text_reason;
pub mod watch_reason;
