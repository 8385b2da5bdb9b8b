// The published model of source 001, what ties a job's plans to it, and its tables: definitions in specs/, theorems in proofs/. No code.
#![tactic(auto)]
