// The paper's twelve cases and the run that it prints are theorems: see proofs/. There is no function here.
#![tactic(auto)]
