// Theorems only: see proofs/. The chart finds the ranked derivations (Accepted).
#![tactic(auto)]
