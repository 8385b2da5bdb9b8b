// No code: the plan text's grammar is in specs/, the theorems about it in proofs/.
#![tactic(auto)]
