// Why something isn't told: a list is too short, or a question is refused; each refusal has the paper's number. What is told stands in
// a `Result`, and what a search finds in an `Option`: the smallest offender, or none.
#![tactic(auto)]

ghost use Rattle.std.specs.Prelude.{◌≡◌};
ghost use Rattle.findings.specs.Told.{short_no, refused_no, way_refused_no, refused_way, short_way};

use numbers::{Numbered, Paper};

// The list that is lent is shorter than what is to be written there, and nothing was written.
#[derive(Clone, Copy, PartialEq, Eq)]
pub struct TooShort;

impl Numbered for TooShort {
    ghost number_of = { short_no };

    fn number(&self) -> u8 {
        Paper::TOO_SHORT
    }
}

// Why it isn't told where a person is, or which door is granted to them.
#[derive(Clone, Copy, PartialEq, Eq)]
pub enum Refused {
    // 11: there is no such person
    NoSuch,
    // 14: the record isn't sound
    Unsound,
}

impl Numbered for Refused {
    ghost number_of = { refused_no };

    fn number(&self) -> u8 {
        match self {
            Refused::NoSuch => Paper::NO_SUCH,
            Refused::Unsound => Paper::UNSOUND,
        }
    }
}

// Why the way out of a location isn't told.
#[derive(Clone, Copy, PartialEq, Eq)]
pub enum WayRefused {
    // 11: there is no such location
    NoSuch,
    // 13: the list is shorter than the way
    TooShort,
    // 14: the record isn't sound
    Unsound,
}

impl Numbered for WayRefused {
    ghost number_of = { way_refused_no };

    fn number(&self) -> u8 {
        match self {
            WayRefused::NoSuch => Paper::NO_SUCH,
            WayRefused::TooShort => Paper::TOO_SHORT,
            WayRefused::Unsound => Paper::UNSOUND,
        }
    }
}

impl From<Refused> for WayRefused {
    ghost from_gives = { λ refusal r. r ≡ refused_way refusal };

    fn from(refusal: Refused) -> Self {
        match refusal {
            Refused::NoSuch => WayRefused::NoSuch,
            Refused::Unsound => WayRefused::Unsound,
        }
    }
}

impl From<TooShort> for WayRefused {
    ghost from_gives = { λ short r. r ≡ short_way short };

    fn from(short: TooShort) -> Self {
        match short {
            TooShort => WayRefused::TooShort,
        }
    }
}
