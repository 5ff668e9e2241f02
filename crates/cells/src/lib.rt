// What the cells of a row say: words and numbers. Each function is in `say`; its promise cites cell_meaning/specs/Say.antt, and
// cell_meaning/proofs/Theorems.antt says what these definitions tell.
#![tactic(auto)]

pub mod say;
