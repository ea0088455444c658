// What the plan of an update does on a chip: specs/ states it, proofs/ proves it. There is no code.
#![tactic(auto)]
