// `live`: reads a site sheet, and then answers the rows of a steps sheet as they come on standard input, until it ends. The site sheet is
// the file that its first argument names, or site.csv of the folder that it is run in. With a second argument each event's frame is
// appended to the file that it names, before its row is answered. What a row is answered is proved in the crate `attend`, and what its
// event is in the crate `stream`. How rows are found in what has come, how they are counted, and where the loop ends is said here and only
// tested (tests/live).
//
// `incoming` finds the rows in the bytes that have come; `answer` answers one; `say` writes; here are the loop and what comes before it.
#![tactic(auto)]

mod answer;
mod incoming;
mod say;

use answer::{State, answer};
use blank_lists::blank_sheet;
use incoming::{part, read_behind, row_end, to_front};
use numbers::Numbered;
use record::record::Record;
use say::{Events, say_header, say_refused};
use sheet_files::{fail, name_in, read_asked};
use site::read_site;
use std::env::{Env, FillError};
use std::fs::{Files, OpenOptions};
use std::io::{Error, ErrorKind, Input, Read, Result, Write};
use stream::rows::no_cards;

// So many bytes that have come are held at most; a longer row is of bad form.
const MOST_HELD: usize = 4096;

// So many bytes of an argument are looked at.
const MOST_NAME: usize = 4096;

// The system's number for a name that is too long.
const TOO_LONG: i32 = 36;

// The last row, which may do without its CRLF. Where no bytes are left there is none; but a sheet without any has a wrong header.
fn answer_last<F: Write>(
    rt: &(impl Print + Eprint),
    state: State,
    row: &[u8],
    events: &mut Option<Events<'_, F>>,
) {
    if row.is_empty() && state.number > 0 {
        return;
    }
    let _last = answer(rt, state, row, 0, events);
}

// Reads on, behind the bytes held. Where nothing more comes they are the last row. They are that too where they leave no room for more:
// such a row is of bad form, since no step's is so long.
fn read_on<F: Write>(
    rt: &(impl Print + Eprint),
    state: State,
    input: &mut impl Read,
    held: &mut [u8],
    events: &mut Option<Events<'_, F>>,
) -> Option<State> {
    let end = to_front(held, state.from, state.end);
    match read_behind(input, held, end) {
        Ok(0) => {
            answer_last(rt, state, part(held, 0, end), events);
            None
        }
        Ok(count) => Some(State {
            record: state.record,
            number: state.number,
            from: 0,
            end: end.wrapping_add(count),
        }),
        Err(error) => {
            fail(rt, "standard input", error);
            None
        }
    }
}

// One turn: a row is answered, or more is read. Nothing is known where all is over.
fn turn<F: Write>(
    rt: &(impl Print + Eprint),
    state: State,
    input: &mut impl Read,
    held: &mut [u8],
    events: &mut Option<Events<'_, F>>,
) -> Option<State> {
    let from = state.from;
    match row_end(part(held, 0, state.end), from) {
        Some(next) => answer(rt, state, part(held, from, next), next, events),
        None => read_on(rt, state, input, held, events),
    }
}

// Opens a file to append to, which is there.
fn open_to_append<R: Files>(rt: &R, name: &str) -> Result<R::File> {
    OpenOptions::new().append(true).open(rt, name)
}

// Makes a file that isn't there.
fn make<R: Files>(rt: &R, name: &str) -> Result<()> {
    let _made = OpenOptions::new()
        .write(true)
        .create_new(true)
        .open(rt, name)?;
    Ok(())
}

// Opens a file to append to, and makes it first where there is none.
fn open_events<R: Files>(rt: &R, name: &str) -> Result<R::File> {
    match open_to_append(rt, name) {
        Ok(file) => Ok(file),
        Err(error) => {
            if error.kind() != ErrorKind::NotFound {
                return Err(error);
            }
            make(rt, name)?;
            open_to_append(rt, name)
        }
    }
}

// Prints the header and answers the rows that come, from a fresh record on. The loop takes at most 2^64 - 1 turns, one for each row and
// each read: at a turn each nanosecond they last for more than five centuries, so nobody meets their end.
fn answer_all<F: Write + Drop>(
    rt: &(impl Input + Print + Eprint),
    record: Record,
    mut events: Option<Events<'_, F>>,
) {
    let mut input = rt.reader();
    let mut held = [0u8; MOST_HELD];
    let mut state = State {
        record,
        number: 0,
        from: 0,
        end: 0,
    };
    if say_header(rt).is_none() {
        return;
    }
    for _ in 0..u64::MAX {
        match turn(rt, state, &mut input, &mut held, &mut events) {
            Some(next) => state = next,
            None => return,
        }
    }
}

// The same, with an events' file by the bytes of its name. Where it can't be opened nothing is answered.
fn answer_with_events<R: Files + Input + Print + Eprint>(rt: &R, record: Record, name: &[u8]) {
    let Some(name) = name_in(rt, name) else {
        return;
    };
    match open_events(rt, name) {
        Ok(file) => {
            let cards = no_cards();
            answer_all(rt, record, Some(Events { file, name, cards }));
        }
        Err(error) => fail(rt, name, error),
    }
}

// The same, with the events' file if the program is given one.
fn answer_asked<R: Files + Env + Input + Print + Eprint>(rt: &R, record: Record) {
    let mut name = [0u8; MOST_NAME];
    match rt.arg(2, &mut name) {
        Ok(length) => answer_with_events(rt, record, &name[..length]),
        Err(FillError::TooLong) => {
            fail(rt, "the events' file", Error::from_raw_os_error(TOO_LONG));
        }
        Err(FillError::NotPresent) => answer_all(rt, record, None::<Events<'_, R::File>>),
    }
}

fn main(rt: HostRuntime) {
    let mut site = blank_sheet();
    let in_site = read_asked(&rt, 1, "site.csv", &mut site);
    match read_site(&site[..in_site]) {
        Ok(fresh) => answer_asked(&rt, fresh),
        Err(refusal) => {
            if say_header(&rt).is_some() {
                let _said = say_refused(&rt, refusal.number());
            }
        }
    }
}
