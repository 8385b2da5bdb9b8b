// Reading a hall's text: what a call of the crew costs, and the jobs of its lines.
#![tactic(auto)]

pub mod joining;
pub mod reading;
pub mod sofar;
