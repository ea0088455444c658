// What all masters share: specs/ has the definitions, proofs/ the laws. There is no code.
#![tactic(auto)]
