// What a sheet's text is by RFC 4180: definitions and theorems, no functions.
//
// The types are those that `sheet` and `reader` answer with. specs/Grammar.antt is the grammar, and proofs/Theorems.antt shows
// that what the definitions of specs/ work out byte by byte is what the grammar says.
#![tactic(auto)]

pub mod count;
pub mod cut;
