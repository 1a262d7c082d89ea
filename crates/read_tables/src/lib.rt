#![tactic(auto)]
// Theorems stand in proofs/.
