// What the rows of lanes hold where parts hide behind others: definitions in specs/, theorems in proofs/.
#![tactic(auto)]
