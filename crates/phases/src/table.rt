// The ten steps by name and number, and the table that says which step each phase allows.
ghost use Rattle.std.specs.Prelude.{◌≡◌};
ghost use Rattle.phases.specs.Kinds.{kind_of, number_of_kind};
ghost use Rattle.phases.specs.Table.{asked};

use crate::phase::Phase;

// The ten steps. A number that names none of them is an unknown step, which no phase allows.
#[derive(Clone, Copy, PartialEq, Eq)]
pub enum Kind {
    // a card is shown, and the door holds its person
    Card,
    // the card is granted or denied
    Decide,
    // the green light is ordered
    Green,
    // the red light is ordered
    Red,
    // the person walks through
    Walk,
    // a tenth of a second of the door's own clock
    Tick,
    // the passage is recorded, and the person is in the destination
    Passed,
    // the lapse is recorded, and the person is dropped
    Lapsed,
    // the red light is out
    Dark,
    // the door is free again
    Ack,
    // no step
    Unknown,
}

// A step of a list: its kind, its door and its person, 0 where it names none.
#[derive(Clone, Copy, PartialEq, Eq)]
pub struct StepRow {
    pub kind: Kind,
    pub at: u16,
    pub person: u16,
}

// How many steps there are: the length of a row of the table.
const STEPS: u8 = 10;

// Which step each phase allows: a row for each phase, and in it an entry for each of card, decide,
// green, red, walk, tick, passed, lapsed, dark, ack, 1 for a step that is allowed. A row is one number,
// so that the whole table is small enough to be at hand at every step.
const ALLOWED: [u16; 10] = [
    0b1000010000, // free
    0b0100010000, // read
    0b0010010000, // granted
    0b0000110000, // green
    0b0000011000, // walked
    0b0000010100, // expired
    0b0001010000, // denied
    0b0000010000, // red
    0b0000010010, // dimmed
    0b0000010001, // closed
];

// The step that this number names.
impl From<u8> for Kind {
    ghost from_gives = { λ number r. r ≡ kind_of number };

    #[tactic(auto, unfolding(crate::specs::Kinds::kind_of))]
    fn from(number: u8) -> Self {
        match number {
            0 => Kind::Card,
            1 => Kind::Decide,
            2 => Kind::Green,
            3 => Kind::Red,
            4 => Kind::Walk,
            5 => Kind::Tick,
            6 => Kind::Passed,
            7 => Kind::Lapsed,
            8 => Kind::Dark,
            9 => Kind::Ack,
            _ => Kind::Unknown,
        }
    }
}

// The number of a step: its place in a row of the table.
impl From<Kind> for u8 {
    ghost from_gives = { λ kind r. r ≡ number_of_kind kind };

    fn from(kind: Kind) -> Self {
        match kind {
            Kind::Card => 0,
            Kind::Decide => 1,
            Kind::Green => 2,
            Kind::Red => 3,
            Kind::Walk => 4,
            Kind::Tick => 5,
            Kind::Passed => 6,
            Kind::Lapsed => 7,
            Kind::Dark => 8,
            Kind::Ack => 9,
            Kind::Unknown => STEPS,
        }
    }
}

impl Kind {
    // Does the table allow this step in this phase?
    #[tactic(auto, unfolding(crate::specs::Table::asked, tables::specs::Tables::and_also))]
    pub fn allowed_in(self, phase: u8) -> bool
        ensures { result ≡ asked self phase }
    {
        let step = u8::from(self);
        step < STEPS
            && phase <= Phase::CLOSED
            && ALLOWED[phase as usize] >> (STEPS - 1 - step) & 1 == 1
    }
}
