// How a step or a run ends, and why a card is denied.
ghost use Rattle.phases.specs.Answers.{answer_no};

use numbers::{Numbered, Paper};

// How a step or a run ends.
#[derive(Clone, Copy, PartialEq, Eq)]
pub enum Answer {
    // 0: done
    Done,
    // 11: there is no such door, person or location
    NoSuch,
    // 12: the door's phase doesn't allow the step
    NotAllowed,
    // 13: a list that is lent is too short
    TooShort,
    // 14: the record isn't sound
    Unsound,
}

impl Numbered for Answer {
    ghost number_of = { answer_no };

    fn number(&self) -> u8 {
        match self {
            Answer::Done => Paper::DONE,
            Answer::NoSuch => Paper::NO_SUCH,
            Answer::NotAllowed => Paper::NOT_ALLOWED,
            Answer::TooShort => Paper::TOO_SHORT,
            Answer::Unsound => Paper::UNSOUND,
        }
    }
}

// Why a card was denied. Constants and no enum: the rows of a run say these numbers, 0 among them.
#[derive(Clone, Copy)]
pub struct Reason;

impl Reason {
    // it wasn't denied
    pub const NONE: u8 = 0;

    // the person isn't at the door's origin
    pub const NOT_THERE: u8 = 1;

    // the person has no right to the door's destination
    pub const NO_RIGHT: u8 = 2;

    // the person has a grant elsewhere
    pub const HAS_GRANT: u8 = 3;
}
