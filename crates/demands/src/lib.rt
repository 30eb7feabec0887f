// The three demands as theorems, in proofs/.
#![tactic(auto)]
