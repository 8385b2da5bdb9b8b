// The grammars and answers before E7 (specs/), and that what they accepted is answered as then (proofs/).
#![tactic(auto)]
