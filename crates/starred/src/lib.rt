// No code: the worked cases and their proof.
#![tactic(auto)]
