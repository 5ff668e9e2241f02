// Syslog lines: an event of the panel as a line by RFC 5424, and as a frame of a stream by RFC 6587. Nothing here knows of a record or
// a sheet.
//
// The definitions are in specs/: `Rfc` the grammar of the two RFCs, `Line` our lines and streams, `Lent` a line in a lent list,
// `Reading` what a list of bytes reads as, `Rows` what `read-events` prints, `Numbers` the answers' numbers, `Guess` how the reader
// finds an event, `Claims` what the theorems say, `Examples` lines byte for byte. The theorems are in proofs/Theorems.antt. The types
// are the event, and why `syslog_write` and `syslog_read` refuse.
#![tactic(auto)]

ghost use Rattle.std.specs.Prelude.{◌≡◌};
ghost use Rattle.syslog.specs.Numbers.{unwritten_no, not_ours_no, short_line};

use findings::TooShort;
use numbers::{Numbered, Paper};

// What an event is: the MSGID of its line.
#[derive(Clone, Copy, PartialEq, Eq)]
pub enum Msgid {
    // a card is granted
    Grant,
    // a card is denied
    Deny,
    // a passage is recorded
    Pass,
    // a grant lapses
    Lapse,
}

// An event: what it is, at which door, the card's person, for a denial its reason, else 0, and for a denial with reason 3 the door
// that holds the person's grant, else 0.
#[derive(Clone, Copy, PartialEq, Eq)]
pub struct LineEvent {
    pub msgid: Msgid,
    pub door: usize,
    pub person: usize,
    pub reason: usize,
    pub held: usize,
}

// Why a line or a frame isn't written. Then nothing is.
#[derive(Clone, Copy, PartialEq, Eq)]
pub enum Unwritten {
    // 11: a door, a person or a held door over 63, a reason that doesn't fit the event, or a held door that doesn't fit the reason
    Unfit,
    // 13: the list is shorter than the text
    TooShort,
}

impl Numbered for Unwritten {
    ghost number_of = { unwritten_no };

    fn number(&self) -> u8 {
        match self {
            Unwritten::Unfit => Paper::NO_SUCH,
            Unwritten::TooShort => Paper::TOO_SHORT,
        }
    }
}

impl From<TooShort> for Unwritten {
    ghost from_gives = { λ short r. r ≡ short_line short };

    fn from(_short: TooShort) -> Self {
        Unwritten::TooShort
    }
}

// Bytes that are no line of ours, or a place of a stream at which no frame of ours begins, and that isn't its end.
#[derive(Clone, Copy, PartialEq, Eq)]
pub struct NotOurs;

impl Numbered for NotOurs {
    ghost number_of = { not_ours_no };

    fn number(&self) -> u8 {
        Paper::NOT_A_LINE
    }
}
