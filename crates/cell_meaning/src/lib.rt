// What a cell of a sheet says, words and numbers: definitions and theorems, no functions.
//
// specs/Say.antt says what a word and a proper number are, and proofs/Theorems.antt shows that what its tests answer of a cell is what
// the content of the field says.
#![tactic(auto)]
