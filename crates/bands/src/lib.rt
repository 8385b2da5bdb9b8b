// What a plan costs for prices within bands: definitions in specs/, theorems in proofs/. No code.
#![tactic(auto)]
