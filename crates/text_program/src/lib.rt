// What a program hands back that reads one text. What it prints is in specs/, the laws that lead there in proofs/.
#![tactic(auto)]

use answer_output::Printout;
use std::io;

// What a program has done: what it printed, and the error of the read that ended its input, if one failed.
#[derive(Drop)]
pub struct Done {
    pub printout: Printout,
    pub failed: Option<io::Error>,
}
