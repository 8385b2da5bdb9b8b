// The line of a text that a fault is in.
#![tactic(auto)]

pub mod fault;
