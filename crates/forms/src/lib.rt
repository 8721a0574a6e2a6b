// Forms of texts: what it means that bytes have a form, where the first byte is that fits none, and which fault decides.
#![tactic(auto)]

pub mod finding;
#[cfg(test)]
mod tests;
