// No code: the terms as types and the claims are in specs/, the theorems in proofs/.

#![tactic(auto)]
