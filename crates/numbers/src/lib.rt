// The papers' numbers, each under one name: what is given back to whoever has a sheet read, a step done, a question answered or
// a text written. 01, "Numbers given back", and 02. The definitions have the same numbers in specs/Numbers.antt.
#![tactic(auto)]

ghost use Rattle.std.specs.Prelude.{◌≡◌, ℕ};
ghost use Rattle.numbers.specs.Told.{told_no};

// The papers' numbers. Constants and no enum: 0 to 10 mean one thing for a sheet, 11 to 14 another for a step, and each enum of answers
// in the crates above has its own part of them by `Numbered`.
#[derive(Clone, Copy)]
pub struct Paper;

impl Paper {
    // done
    pub const DONE: u8 = 0;

    // sheet over 49,152 bytes
    pub const TOO_LONG: u8 = 1;

    // row of bad form, unknown kind or step, wrong header
    pub const BAD_FORM: u8 = 2;

    // a number outside the ranges above, a door from a location to itself, a 65th door
    pub const OUT_OF_RANGE: u8 = 3;

    // second `site`, second exit of a location, same right again
    pub const TWICE: u8 = 4;

    // first data row is absent or not `site`
    pub const NO_SITE: u8 = 5;

    // a location has no exit
    pub const NO_EXIT: u8 = 6;

    // exits from a location never reach 0
    pub const STRAY: u8 = 7;

    // exit with no door
    pub const NO_DOOR: u8 = 8;

    // right to l but not to its exit
    pub const NO_RIGHT: u8 = 9;

    // person has no first location from outside
    pub const SHUT_OUT: u8 = 10;

    // no such door, person or location
    pub const NO_SUCH: u8 = 11;

    // this door's phase doesn't allow the step
    pub const NOT_ALLOWED: u8 = 12;

    // a list that is lent is shorter than what is to be written there
    pub const TOO_SHORT: u8 = 13;

    // unsound record
    pub const UNSOUND: u8 = 14;

    // bytes that are no syslog line of ours
    pub const NOT_A_LINE: u8 = 15;
}

// What has one of the papers' numbers: an answer, or a refusal.
pub trait Numbered {
    ghost number_of: { Self → ℕ };

    // The paper's number.
    fn number(&self) -> u8
        ensures { result ≡ number_of self.now };
}

// What is told has the number of what is done, and a refusal its own.
impl<T, E: Numbered> Numbered for Result<T, E> {
    ghost number_of = { told_no E.number_of };

    fn number(&self) -> u8 {
        match self {
            Ok(_) => Paper::DONE,
            Err(refusal) => refusal.number(),
        }
    }
}
