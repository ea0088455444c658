// Demand 2 for the page read: specs/ states it, proofs/ proves it. There is no code.
#![tactic(auto)]
