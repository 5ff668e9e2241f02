// What the two programs print: the two sheets go in, the whole text comes out, in a lent list.
//
// `serve` has the steps of a sheet run on the record of the site; `texts` puts the two texts together. The definitions are in the crate
// `run_text`, in the words of paper 01, "Program and one whole run", and of paper 02, C-12.
#![tactic(auto)]

mod serve;
pub mod texts;
