// Texts in lent lists. `write` puts bytes and decimal numbers at a place of a list; `print` puts a whole text into a list, or refuses
// one that is too short for it. The definitions are in specs/: `Text` numbers and rows as they are printed, `Wrote` what the writing
// functions promise, `Printed` a whole text in a list that may be too short for it.
#![tactic(auto)]

pub mod print;
pub mod write;
