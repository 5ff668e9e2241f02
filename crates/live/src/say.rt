// What is written: rows on standard output, and events' frames in their file. Where a write fails, standard error says why, and nothing is
// told.
use crate::incoming::part;
use attend::Attended;
use number_rows::put_row;
use numbers::Numbered;
use sheet_files::fail;
use std::fmt::Display;
use std::io::{Result, Write};
use stream::rows::{StepTold, put_event};
use tables::MOST_DOORS;

// The file that events are appended to, with its name, and whose card is at each door.
#[derive(Drop)]
pub(crate) struct Events<'a, F> {
    pub file: F,
    pub name: &'a str,
    pub cards: [u16; MOST_DOORS],
}

// Room for a row that is printed, which has at most 31 bytes, and for a frame, which has at most 58.
pub(crate) const ROOM: usize = 64;

// Whether a write went well. Where it didn't, that is said on standard error.
fn well(rt: &impl Eprint, what: impl Display + Drop, written: Result<()>) -> Option<()> {
    match written {
        Ok(()) => Some(()),
        Err(error) => {
            fail(rt, what, error);
            None
        }
    }
}

// Prints some bytes.
pub(crate) fn say(rt: &(impl Print + Eprint), bytes: &[u8]) -> Option<()> {
    well(rt, "standard output", rt.write_all(bytes))
}

// Prints the header.
pub(crate) fn say_header(rt: &(impl Print + Eprint)) -> Option<()> {
    say(rt, b"row,answer,phase,reason,held\r\n")
}

// Prints the row of a sheet that is refused as a whole.
pub(crate) fn say_refused(rt: &(impl Print + Eprint), number: u8) -> Option<()> {
    let mut text = [0; ROOM];
    let length = put_row(&mut text, 0, 0, &[number as usize, 0, 0, 0]);
    say(rt, part(&text, 0, length))
}

// A step with what was told of it. No card has a number that doesn't fit.
fn told_of(attended: Attended) -> StepTold {
    StepTold {
        kind: attended.asked.kind,
        door: attended.asked.door,
        person: u16::try_from(attended.asked.person).unwrap_or(0),
        answer: attended.told.answer.number(),
        phase: attended.told.phase,
        reason: attended.told.reason,
        held: attended.told.held,
    }
}

// Appends the frame of a row's event to the events' file, if it has one.
pub(crate) fn tell<F: Write>(
    rt: &impl Eprint,
    attended: Attended,
    events: &mut Events<'_, F>,
) -> Option<()> {
    let mut frame = [0; ROOM];
    let length = put_event(&mut events.cards, told_of(attended), &mut frame, 0);
    let written = events.file.write_all(part(&frame, 0, length));
    well(rt, events.name, written)
}
