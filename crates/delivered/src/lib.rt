// The specification's sentences that no call's own promise states, as one record (specs/), and that all of them hold (proofs/).
#![tactic(auto)]
