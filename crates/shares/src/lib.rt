// An estimate by shares, lifts and cutoffs from below: definitions in specs/, theorems in proofs/. No code.
#![tactic(auto)]
