// The lists of a form's parts, and whether they agree in length.
#![tactic(auto)]

pub mod agree;
pub mod lists;
