// Laws over whole sessions with the chip: specs/ states them, proofs/ proves them. There is no code.
#![tactic(auto)]
