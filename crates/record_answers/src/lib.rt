// Demand 1 of the record is a theorem: it says what follows of the definitions of the crates below, in proofs/, and has no function.
#![tactic(auto)]
