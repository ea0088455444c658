// Laws of the memory functions: over whole sessions, and that they keep a stage within its ranges. specs/ states them, proofs/ proves them. There is no code.
#![tactic(auto)]
