// The five machines of the location access chapter, from the initial model to the fourth refinement: the definitions are in specs/,
// the theorems in proofs/. There is no function here, and no record.
#![tactic(auto)]
