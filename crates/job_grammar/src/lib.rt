// No code: the job text's grammar is in specs/, the theorems about it in proofs/.
#![tactic(auto)]
