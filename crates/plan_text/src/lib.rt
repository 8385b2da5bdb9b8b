// The whole plan text, read against a job.
#![tactic(auto)]

pub mod whole;
