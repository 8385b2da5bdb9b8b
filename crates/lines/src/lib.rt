// Decimal numbers and key=value lines, read from a text.
#![tactic(auto)]

pub mod fault;
pub mod read;
pub mod reader;
pub mod rows;
