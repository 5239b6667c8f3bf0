// Definitions and theorems only: see specs/ and proofs/. What is handed on from nodes to their parts is their outside weights (Filled).
#![tactic(auto)]
