// Why a site sheet is refused, with the number and the places that are told with it. The definitions are in specs/, in the words of paper
// 01, "Numbers given back".
#![tactic(auto)]

ghost use Rattle.std.specs.Prelude.{◌≡◌};
ghost use Rattle.verdict.specs.Verdict.{said_of};
ghost use Rattle.verdict.specs.Numbers.{site_refused_no, first_place, second_place};

use numbers::{Numbered, Paper};

// Why a sheet is refused, with the place that is told.
#[derive(Clone, Copy, PartialEq, Eq)]
pub enum SiteRefused {
    // 1: the sheet is over the limit
    TooLong,
    // 2: this row is of bad form, or of an unknown kind; row 0 is a wrong header
    BadRow(usize),
    // 3: a number of this row is out of range, or its door is one too many or leads to where it starts
    OutOfRange(usize),
    // 4: this row says again what was said before
    Twice(usize),
    // 5: the first data row isn't a `site` row, or there is none
    NoSite,
    // 6: this location has no exit
    NoExit(usize),
    // 7: the exits from this location never reach 0
    Stray(usize),
    // 8: the exit of this location has no door
    NoDoor(usize),
    // 9: this person has a right to this location, and none to its exit
    NoRight(usize, usize),
    // 10: this person has no first location from outside
    ShutOut(usize),
}

impl Numbered for SiteRefused {
    ghost number_of = { site_refused_no };

    fn number(&self) -> u8 {
        match self {
            SiteRefused::TooLong => Paper::TOO_LONG,
            SiteRefused::BadRow(_) => Paper::BAD_FORM,
            SiteRefused::OutOfRange(_) => Paper::OUT_OF_RANGE,
            SiteRefused::Twice(_) => Paper::TWICE,
            SiteRefused::NoSite => Paper::NO_SITE,
            SiteRefused::NoExit(_) => Paper::NO_EXIT,
            SiteRefused::Stray(_) => Paper::STRAY,
            SiteRefused::NoDoor(_) => Paper::NO_DOOR,
            SiteRefused::NoRight(_, _) => Paper::NO_RIGHT,
            SiteRefused::ShutOut(_) => Paper::SHUT_OUT,
        }
    }
}

impl SiteRefused {
    // The place that is told with it: a row, a location or a person; 0 where there is none.
    pub fn place(self) -> usize
        ensures { result ≡ first_place (said_of self) }
    {
        match self {
            SiteRefused::TooLong => 0,
            SiteRefused::BadRow(row) => row,
            SiteRefused::OutOfRange(row) => row,
            SiteRefused::Twice(row) => row,
            SiteRefused::NoSite => 1,
            SiteRefused::NoExit(location) => location,
            SiteRefused::Stray(location) => location,
            SiteRefused::NoDoor(location) => location,
            SiteRefused::NoRight(person, _) => person,
            SiteRefused::ShutOut(person) => person,
        }
    }

    // The second place: the location of 9, and 0 for all others.
    pub fn second_place(self) -> usize
        ensures { result ≡ second_place (said_of self) }
    {
        match self {
            SiteRefused::NoRight(_, location) => location,
            _ => 0,
        }
    }
}
