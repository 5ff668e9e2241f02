// Texts that are read: as a line, as a stream from the front on, and as a frame behind the end.
use crate::write::{print_end, print_next};
use numbers::Numbered;
use sheet_files::read_sheet;
use std::fs::Files;
use syslog::{LineEvent, Msgid};
use syslog_read::{read_frame, read_line};

const MOST_BYTES: usize = 160000;

const LF: u8 = 10;

fn print_name(rt: &impl Print, msgid: Msgid) {
    let name = match msgid {
        Msgid::Grant => ",GRANT",
        Msgid::Deny => ",DENY",
        Msgid::Pass => ",PASS",
        Msgid::Lapse => ",LAPSE",
    };
    let _ = rt.print(name);
}

fn print_event(rt: &impl Print, event: LineEvent) {
    print_name(rt, event.msgid);
    print_next(rt, event.door);
    print_next(rt, event.person);
    print_next(rt, event.reason);
    print_next(rt, event.held);
}

fn print_none(rt: &impl Print) {
    let _ = rt.write_all(b",,0,0,0,0");
}

fn print_line(rt: &impl Print, text: &[u8]) {
    let told = read_line(text);
    let _ = rt.write_all(b"line");
    print_next(rt, told.number() as usize);
    match told {
        Ok(event) => print_event(rt, event),
        Err(_) => print_none(rt),
    }
    print_end(rt);
}

// A row for the frame at a place, or for the end of the stream; and the place behind a frame, or none where nothing more is read.
fn print_frame(rt: &impl Print, text: &[u8], at: usize) -> Option<usize> {
    let told = read_frame(text, at);
    match told {
        Ok(Some((event, behind))) => {
            let _ = rt.write_all(b"frame");
            print_next(rt, told.number() as usize);
            print_event(rt, event);
            print_next(rt, behind);
            print_end(rt);
            Some(behind)
        }
        Ok(None) => {
            let _ = rt.write_all(b"end");
            print_next(rt, at);
            print_end(rt);
            None
        }
        Err(others) => {
            let _ = rt.write_all(b"frame");
            print_next(rt, others.number() as usize);
            print_none(rt);
            print_next(rt, at);
            print_end(rt);
            None
        }
    }
}

// Where nothing more is read the next place is the end of the longest text, which a text of that length has too: its end is told again, once
// for each further turn.
fn print_frames(rt: &impl Print, text: &[u8]) {
    let mut at = 0;
    for _ in 0..MOST_BYTES {
        if text.len() < at {
            return;
        }
        at = print_frame(rt, text, at).unwrap_or(MOST_BYTES);
    }
}

fn print_beyond(rt: &impl Print, text: &[u8]) {
    let told = read_frame(text, text.len() + 1);
    let _ = rt.write_all(b"beyond");
    print_next(rt, told.number() as usize);
    print_end(rt);
}

fn print_case(rt: &impl Print, text: &[u8]) {
    print_line(rt, text);
    print_frames(rt, text);
    print_beyond(rt, text);
}

pub(crate) fn read_cases(rt: &(impl Files + Print + Eprint)) {
    let mut cases = [0; MOST_BYTES];
    let length = read_sheet(rt, "cases", &mut cases);
    for line in cases[..length].split_inclusive(|byte| *byte == LF) {
        print_case(rt, line.strip_suffix(&[LF]).unwrap_or(line));
    }
}
