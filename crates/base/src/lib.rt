// What has no room of its own and knows nothing of jobs, lines or tables: definitions in specs/, theorems in proofs/. No code.
#![tactic(auto)]
