// The ten phases of a door and the two spans of its lights, each under one fixed name.

// The phase of a door, a number from 0 to 9. Constants and no enum: a record that is lent may hold any byte for a phase, and its test of
// soundness says which are none.
#[derive(Clone, Copy)]
pub struct Phase;

impl Phase {
    pub const FREE: u8 = 0;

    pub const READ: u8 = 1;

    pub const GRANTED: u8 = 2;

    pub const GREEN: u8 = 3;

    pub const WALKED: u8 = 4;

    pub const EXPIRED: u8 = 5;

    pub const DENIED: u8 = 6;

    pub const RED: u8 = 7;

    pub const DIMMED: u8 = 8;

    pub const CLOSED: u8 = 9;
}

// How long a light burns, in ticks of its door's own clock: numbers of the papers, and no kinds.
#[derive(Clone, Copy)]
pub struct Span;

impl Span {
    pub const GREEN: u16 = 300;

    pub const RED: u16 = 20;
}
