// The tables of a job that the search walks over: how its rows are written (rows), its lanes' least prices (tables), and the terms of the fees (terms).
#![tactic(auto)]

pub mod flat;
pub mod rows;
pub mod tables;
pub mod terms;
