// Every theorem that the documents cite, stated on one page with its premises: specs/ states them, proofs/ cites their proofs. There is
// no code.
#![tactic(auto)]
