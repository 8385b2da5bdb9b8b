// What a plan costs: its fees, prices and removals.
#![tactic(auto)]

pub mod costs;
pub mod removals;
pub mod summing;
