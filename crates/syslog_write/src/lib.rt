// Writing syslog lines: `put_line` and `put_frame` write the text of an event at a place of a lent list, as the functions of `text`
// do; `write_line` and `write_frame` write it into the front of a list, or say why not. What the text is stands in
// syslog/specs/Line.antt, what is promised in syslog/specs/Lent.antt.
#![tactic(auto)]

ghost use Rattle.std.specs.Prelude.{◌≡◌, ℕ, List};
ghost use Rattle.text.specs.Wrote.{Wrote};
ghost use Rattle.text.specs.Printed.{Puts};
ghost use Rattle.syslog.specs.Line.{held_part, reason_part, line_of, head_of, framed_of, reason_fits, held_fits, fits_line};
ghost use Rattle.syslog.specs.Lent.{Writes};

use syslog::{LineEvent, Msgid, Unwritten};
use text::print::print;
use text::write::{put, put_bytes, put_number};

// The largest door, person and held door of a line.
const MOST_NUMBER: usize = 63;

// The reason that is told with the door that holds the grant.
const HELD_REASON: usize = 3;

const BLANK: u8 = 32;

// The beginning of a line, up to the door's number.
fn put_head(out: &mut [u8], at: usize, msgid: Msgid) -> usize
    ensures { Wrote out.old at (head_of msgid) out.new result }
{
    match msgid {
        Msgid::Grant => put_bytes(out, at, b"<86>1 - - - - GRANT - door="),
        Msgid::Deny => put_bytes(out, at, b"<85>1 - - - - DENY - door="),
        Msgid::Pass => put_bytes(out, at, b"<86>1 - - - - PASS - door="),
        Msgid::Lapse => put_bytes(out, at, b"<86>1 - - - - LAPSE - door="),
    }
}

// The end of a denial's line: reason 3 is told with the held door.
fn put_held(out: &mut [u8], at: usize, reason: usize, held: usize) -> usize
    ensures { Wrote out.old at (held_part reason held) out.new result }
{
    if reason != HELD_REASON {
        return at;
    }
    let number = put_bytes(out, at, b" held=");
    put_number(out, number, held)
}

// The end of a line: a denial tells its reason, and with reason 3 the held door.
fn put_reason(out: &mut [u8], at: usize, event: LineEvent) -> usize
    ensures { Wrote out.old at (reason_part event.msgid event.reason event.held) out.new result }
{
    match event.msgid {
        Msgid::Deny => {
            let number = put_bytes(out, at, b" reason=");
            let behind = put_number(out, number, event.reason);
            put_held(out, behind, event.reason, event.held)
        }
        _ => at,
    }
}

// The line of an event.
pub fn put_line(out: &mut [u8], at: usize, event: LineEvent) -> usize
    ensures { Wrote out.old at (line_of event) out.new result }
{
    let door = put_head(out, at, event.msgid);
    let behind_door = put_number(out, door, event.door);
    let person = put_bytes(out, behind_door, b" person=");
    let behind_person = put_number(out, person, event.person);
    put_reason(out, behind_person, event)
}

// The frame of an event: the count of its line's bytes, a blank and the line.
pub fn put_frame(out: &mut [u8], at: usize, event: LineEvent) -> usize
    ensures { Wrote out.old at (framed_of event) out.new result }
{
    let count = put_line(&mut out[..0], 0, event);
    let blank = put_number(out, at, count);
    let line = put(out, blank, BLANK);
    put_line(out, line, event)
}

// Whether a reason fits its event.
#[tactic(auto, unfolding(syslog::specs::Line::reason_fits, tables::specs::Tables::and_also))]
fn reason_fits(msgid: Msgid, reason: usize) -> bool
    ensures { result ≡ reason_fits msgid reason }
{
    match msgid {
        Msgid::Deny => (1..=HELD_REASON).contains(&reason),
        _ => reason == 0,
    }
}

// Whether a held door fits its reason.
#[tactic(auto, unfolding(syslog::specs::Line::held_fits))]
fn held_fits(reason: usize, held: usize) -> bool
    ensures { result ≡ held_fits reason held }
{
    if reason == HELD_REASON {
        held <= MOST_NUMBER
    } else {
        held == 0
    }
}

// Whether an event has a line.
#[tactic(auto, unfolding(syslog::specs::Line::fits_line, tables::specs::Tables::and_also))]
pub fn fits_line(event: LineEvent) -> bool
    ensures { result ≡ fits_line event }
{
    event.door <= MOST_NUMBER
        && event.person <= MOST_NUMBER
        && reason_fits(event.msgid, event.reason)
        && held_fits(event.reason, event.held)
}

// Writes a text of an event, as `put` puts it, into the front of a list, if the event has a line.
fn write<F: Fn(&mut [u8]) -> usize>(
    event: LineEvent,
    put: F,
    out: &mut [u8],
) -> Result<usize, Unwritten>
    requires { F.IsAlwaysCallable put }
    ensures { (text : List ℕ) → Puts F.Fn put text → Writes event text out.old result out.new }
{
    if !fits_line(event) {
        return Err(Unwritten::Unfit);
    }
    Ok(print(put, out)?)
}

// Writes the line of an event into the front of a list: its length is told, and the rest of the list is unaltered. 11 if the event
// doesn't fit, then 13 if the list is too short, and nothing is written.
pub fn write_line(event: LineEvent, out: &mut [u8]) -> Result<usize, Unwritten>
    ensures { Writes event (line_of event) out.old result out.new }
{
    write(event, |list| put_line(list, 0, event), out)
}

// The same of the frame.
pub fn write_frame(event: LineEvent, out: &mut [u8]) -> Result<usize, Unwritten>
    ensures { Writes event (framed_of event) out.old result out.new }
{
    write(event, |list| put_frame(list, 0, event), out)
}
