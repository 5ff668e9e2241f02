// The events of a stream as rows: what `read-events` prints. What a stream says stands in syslog/specs/Reading.antt, the rows in
// syslog/specs/Rows.antt.
#![tactic(auto)]

ghost use Rattle.text.specs.Wrote.{Wrote};
ghost use Rattle.syslog.specs.Line.{name_of};
ghost use Rattle.syslog.specs.Rows.{event_row, refused_row, long_rows, PutsEvents, PutsStream, PrintsEvents};

use findings::TooShort;
use number_rows::put_row;
use numbers::{Numbered, Paper};
use syslog::{LineEvent, Msgid};
use syslog_read::read_frame;
use text::print::print;
use text::write::{put, put_bytes, put_number};

// The longest stream that is read.
pub const MOST_STREAM: usize = 524288;

const COMMA: u8 = 44;

// The MSGID of an event.
fn put_name(out: &mut [u8], at: usize, msgid: Msgid) -> usize
    ensures { Wrote out.old at (name_of msgid) out.new result }
{
    match msgid {
        Msgid::Grant => put_bytes(out, at, b"GRANT"),
        Msgid::Deny => put_bytes(out, at, b"DENY"),
        Msgid::Pass => put_bytes(out, at, b"PASS"),
        Msgid::Lapse => put_bytes(out, at, b"LAPSE"),
    }
}

// The row of an event.
fn put_event(out: &mut [u8], at: usize, event: LineEvent) -> usize
    ensures { Wrote out.old at (event_row event) out.new result }
{
    let msgid = event.msgid;
    let name = put_bytes(out, at, b"0,");
    let comma = put_name(out, name, msgid);
    let numbers = put(out, comma, COMMA);
    put_row(
        out,
        numbers,
        event.door,
        &[event.person, event.reason, event.held],
    )
}

// The row of a refusal.
fn put_refused(out: &mut [u8], at: usize, number: u8) -> usize
    ensures { Wrote out.old at (refused_row number) out.new result }
{
    let commas = put_number(out, at, number as usize);
    let numbers = put_bytes(out, commas, b",,");
    put_row(out, numbers, 0, &[0, 0, 0])
}

// A row for each frame of a stream, and one more where something else follows. A `loop`, since only a frame tells where the next one
// begins.
fn put_events(stream: &[u8], out: &mut [u8], at: usize) -> usize
    ensures { PutsEvents stream.now out.old at out.new result }
{
    let mut next = at;
    let mut place = 0;
    loop {
        match read_frame(stream, place) {
            Ok(Some((event, behind))) => {
                next = put_event(out, next, event);
                place = behind;
            }
            Ok(None) => {
                return next;
            }
            Err(others) => {
                return put_refused(out, next, others.number());
            }
        }
    }
}

// The header, and the rows of a stream.
fn put_stream(stream: &[u8], out: &mut [u8]) -> usize
    ensures { PutsStream stream.now out.old out.new result }
{
    let rows = put_bytes(out, 0, b"answer,event,door,person,reason,held\r\n");
    put_events(stream, out, rows)
}

// The header, and that the stream is too long.
fn put_long(out: &mut [u8]) -> usize
    ensures { Wrote out.old 0 long_rows out.new result }
{
    let row = put_bytes(out, 0, b"answer,event,door,person,reason,held\r\n");
    put_refused(out, row, Paper::TOO_LONG)
}

// What `read-events` prints.
pub fn read_events_text(stream: &[u8], out: &mut [u8]) -> Result<usize, TooShort>
    ensures { PrintsEvents stream.now out.old result out.new }
{
    if MOST_STREAM < stream.len() {
        return print(put_long, out);
    }
    print(|list| put_stream(stream, list), out)
}
