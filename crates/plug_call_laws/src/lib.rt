// The runs of the C interface tell what the masters' calls answer: specs/ states it, proofs/ proves it. There is no code.
#![tactic(auto)]
