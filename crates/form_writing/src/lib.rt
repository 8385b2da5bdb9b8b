// The text of a form's lists, put into a lent slice to be read.
#![tactic(auto)]

pub mod lists;
pub mod parts;
pub mod whole;
