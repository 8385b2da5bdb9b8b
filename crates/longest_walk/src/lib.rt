// How long the walk of a job without holders may become: definitions in specs/, theorems in proofs/. No code.
#![tactic(auto)]
