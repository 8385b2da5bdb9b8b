// Decimal numbers and key=value lines, written into a lent slice.
#![tactic(auto)]

pub mod digits;
pub mod output;
pub mod write;
