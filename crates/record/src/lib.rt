// The record of people and doors: what it holds and when it is sound (`record`), the ten steps
// (`steps`), the thin step on a record that is lent (`lent`), and what the run of a list of steps hands
// back (`series`).
#![tactic(auto)]

mod lent;
pub mod record;
pub mod series;
pub mod steps;

pub use crate::record::Record;
pub use crate::series::Ran;
pub use crate::steps::Step;
