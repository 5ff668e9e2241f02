// What the rows of a site sheet say: a row, the tables while a sheet is being read, and how far it was read. The
// definitions are in specs/, in the words of paper 01, "Site sheet" and "Numbers given back", and the theorems of
// them in proofs/. There is no function here, and nothing of a record.
#![tactic(auto)]

use tables::{MOST_DOORS, MOST_LOCATIONS, MOST_RIGHTS};

// The first field of a row.
#[derive(Clone, Copy, PartialEq, Eq)]
pub enum Word {
    // `site`
    Site,
    // `door`
    Door,
    // `exit`
    Exit,
    // `right`
    Right,
    // none of these; no `Option`, since `word_named` gives it behind all words
    Unknown,
}

// A row, or that it is of bad form.
#[derive(Clone, Copy, PartialEq, Eq)]
pub enum SiteLine {
    // so many people and so many locations
    Site(usize, usize),
    // a door from one location to another
    Door(usize, usize),
    // a location, and the one to which it is signed
    Exit(usize, usize),
    // a person, and a location where they may be
    Right(usize, usize),
    // it is of bad form; no `Option`, since `TextSaysLines` has it among the lines of a sheet
    Bad,
}

// The tables of a site while its sheet is being read: the counts, with no locations as long as the `site` row hasn't come, each
// door's origin and destination, each location's exit with a mark where one has been given, and the rights, MOST_LOCATIONS to a
// person. Its bounds stand in clauses of crate `site_tables` and in no field here: the definitions of specs/Draft.antt make this struct
// anew row by row, and each would have to carry the proof.
#[derive(Drop)]
pub struct Draft {
    pub people: usize,
    pub locations: usize,
    pub doors: usize,
    pub origin: [u8; MOST_DOORS],
    pub destination: [u8; MOST_DOORS],
    pub exit: [u8; MOST_LOCATIONS],
    pub given: [bool; MOST_LOCATIONS],
    pub right: [bool; MOST_RIGHTS],
}

// What is wrong with a row.
#[derive(Clone, Copy, PartialEq, Eq)]
pub enum RowFault {
    // 2: bad form
    Form,
    // 5: not the `site` row that has to come first
    NoSite,
    // 3: out of range
    Range,
    // 4: said before
    Twice,
}

// Where the rows of a sheet stopped: what is wrong with the last row, and its number, which is there for each fault.
#[derive(Clone, Copy, PartialEq, Eq)]
pub struct Stop {
    pub fault: RowFault,
    pub row: usize,
}

// All rows of a sheet, taken: the tables, and the number that a further row would have.
#[derive(Drop)]
pub struct Filled {
    pub draft: Draft,
    pub row: usize,
}

// Rows that stopped: the tables as the rows before left them, and where that was.
#[derive(Drop)]
pub struct Stopped {
    pub draft: Draft,
    pub stop: Stop,
}
