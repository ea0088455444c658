// Demand 2 for the number read: specs/ states it, proofs/ proves it. There is no code.
#![tactic(auto)]
