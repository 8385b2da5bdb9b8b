// The sections of the job text: its idle steps, its walk line, its openings, its parts.
#![tactic(auto)]

pub mod idles;
pub mod openings;
pub mod parts;
pub mod steps;
pub mod walk;
