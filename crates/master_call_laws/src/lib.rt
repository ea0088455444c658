// The publisher over whole runs of calls: specs/ states it, proofs/ proves it. There is no code.
#![tactic(auto)]
