// Sheets by RFC 4180: text cut into rows and fields.
//
// `cut` has the field cutter and the row cutter. What a field says is told in crate `cells`, and crate `reader` goes over the rows.
// The grammar is grammar/specs/Grammar.antt, and grammar/proofs/Theorems.antt ties every promise here to it.
#![tactic(auto)]

pub mod cut;

// A sheet is at most so many bytes. Whoever takes a whole sheet tests it first; the cutters cut any text.
pub const LIMIT: usize = 49152;
