// What a run tells, and its events: the definitions are in specs/, the theorems in proofs/. There is no function here.
#![tactic(auto)]
