// What the two programs print, over the bytes of the two sheets: definitions and theorems.
//
// The definitions are in specs/, in the words of paper 01, "Program and one whole run". The types are those that the crate `run`
// answers with.
#![tactic(auto)]

pub mod serve;
