// A record as a state of the machines of the location access chapter, and its steps among their events: the definitions are in
// specs/, the theorems in proofs/. There is no function here.
#![tactic(auto)]
