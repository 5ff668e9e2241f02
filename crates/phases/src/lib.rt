// The phases of a door and the spans of its lights (`phase`), the ten steps and which of them a phase
// allows (`table`), and how a step ends and why a card is denied (`answer`).
#![tactic(auto)]

pub mod answer;
pub mod phase;
pub mod table;
