// Events that are written: those that fit and those that don't, into lists of several lengths.
use numbers::Numbered;
use syslog::{LineEvent, Msgid, Unwritten};
use syslog_write::{write_frame, write_line};

const ROOM: usize = 64;

// Four MSGIDs, five reasons, five doors, five persons and five held doors.
const EVENTS: usize = 2500;

const MSGIDS: [Msgid; 4] = [Msgid::Grant, Msgid::Deny, Msgid::Pass, Msgid::Lapse];

// The doors, persons and held doors that are tried: one digit and two, the last that fits and the first that doesn't.
const NUMBERS: [usize; 5] = [0, 9, 10, 63, 64];

fn event_tried(n: usize) -> LineEvent {
    LineEvent {
        msgid: MSGIDS[n / 625 % 4],
        door: NUMBERS[n / 25 % 5],
        person: NUMBERS[n / 5 % 5],
        reason: n / 125 % 5,
        held: NUMBERS[n % 5],
    }
}

// Prints a number behind a comma.
pub(crate) fn print_next(rt: &impl Print, n: usize) {
    let _ = rt.write_all(b",");
    let _ = rt.print(n);
}

pub(crate) fn print_end(rt: &impl Print) {
    let _ = rt.write_all(b"\r\n");
}

// Whether a byte of a list is altered.
fn print_altered(rt: &impl Print, list: &[u8]) {
    print_next(rt, list.iter().any(|byte| *byte != 0) as usize);
}

// A row of one event, as `write` writes it, the name of its form being printed already.
fn print_written<W: Fn(LineEvent, &mut [u8]) -> Result<usize, Unwritten>>(
    rt: &impl Print,
    event: LineEvent,
    write: W,
)
    requires { W.IsAlwaysCallable write }
{
    let mut list = [0; ROOM];
    let written = write(event, &mut list);
    let length = written.unwrap_or(0).min(ROOM);
    print_next(rt, written.number() as usize);
    print_next(rt, length);
    print_altered(rt, &list[length..]);
    let mut exact = [0; ROOM];
    print_next(rt, write(event, &mut exact[..length]).number() as usize);
    let mut short = [0; ROOM];
    let less = length.saturating_sub(1);
    print_next(rt, write(event, &mut short[..less]).number() as usize);
    print_altered(rt, &short);
    let _ = rt.write_all(b",");
    let _ = rt.write_all(&list[..length]);
    print_end(rt);
}

pub(crate) fn write_events(rt: &impl Print) {
    for n in 0..EVENTS {
        let event = event_tried(n);
        let _ = rt.write_all(b"line");
        print_written(rt, event, write_line);
        let _ = rt.write_all(b"frame");
        print_written(rt, event, write_frame);
    }
}
