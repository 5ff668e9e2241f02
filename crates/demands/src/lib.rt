// The demands as theorems: the definitions are in specs/, the theorems in proofs/. There is no function here.
#![tactic(auto)]
