// The walk that knows a cost: definitions in specs/, theorems in proofs/. No code.
#![tactic(auto)]
