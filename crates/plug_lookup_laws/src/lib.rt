// The lookup while a page is superseded: specs/ states it, proofs/ proves it. There is no code.
#![tactic(auto)]
