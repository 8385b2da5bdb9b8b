// Whether a plan keeps every life, and if not the lowest part that is late.
#![tactic(auto)]

pub mod lives;
