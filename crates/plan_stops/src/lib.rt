// The stops of the plan text, read against a job.
#![tactic(auto)]

pub mod stops;
