// The whole job text, from its sections.
#![tactic(auto)]

pub mod accepted;
pub mod text;
pub mod whole;
