// Demand 1 of syslog lines is a theorem: it says what follows of the definitions of the crates below, in proofs/, and has no function.
#![tactic(auto)]
