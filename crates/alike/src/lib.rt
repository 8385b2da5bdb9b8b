// That two job texts which mean the same are answered alike by every call that reads a job text (specs/, proofs/).
#![tactic(auto)]
