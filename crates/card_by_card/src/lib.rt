// A run served one card at a time: the definitions are in specs/, the theorems in proofs/. There is no function here.
#![tactic(auto)]
