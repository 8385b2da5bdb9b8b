// Worked cases, computed from the model's definitions, and the wrong programs that its promises shut out: theorems in proofs/. No code.
#![tactic(auto)]
