// Laws over whole sessions of the ROM functions: specs/ states them, proofs/ proves them. There is no code.
#![tactic(auto)]
