// What a step that may be done does to its door: the answer stands here, and the function that answers in `step`.
#![tactic(auto, using(std::proofs::lemmas::Bool::Decides::nat_tests), unfolding(crate::specs::Does::effect))]

pub mod step;

use door::Door;

// What a step does to its door: three things, so no `Option` and no `Result` has its shape.
#[derive(Clone, Copy)]
pub enum Does {
    // nothing
    Stays,
    // the door becomes so, with the reason that is told
    Turns(Door, u8),
    // the door becomes so, and the person whom it held is in its destination
    Moves(Door),
}
