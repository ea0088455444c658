// What an update does to what each page reads as: specs/ states it, proofs/ proves it. There is no code.
#![tactic(auto)]
