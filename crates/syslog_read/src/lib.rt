// Reading syslog lines: `read_line` gives the event back from its line, `read_frame` from its frame at a place of a stream. What is
// promised stands in syslog/specs/Reading.antt.
//
// Nothing is parsed strictly. A guess is made of any bytes: the MSGID by its first letter, the numbers behind the first four `=`. The
// bytes are then compared with the guess's own text, and that decides.
#![tactic(auto)]

ghost use Rattle.std.specs.Prelude.{◌<◌, ◌≤◌, ◌≡◌, ℕ, List, length};
ghost use Rattle.tables.specs.Below.{Tells};
ghost use Rattle.text.specs.Printed.{Puts};
ghost use Rattle.syslog.specs.Guess.{msgid_by, msgid_in, behind_mark, number_from, guess_of};
ghost use Rattle.syslog.specs.Reading.{ReadsLine, ReadsFrame};

use syslog::{LineEvent, Msgid, NotOurs};
use syslog_write::{fits_line, put_frame, put_line};

// How many digits a guess looks at. No number of a line that fits, and no count, has more than two.
const MOST_DIGITS: usize = 4;

// Room for every line and every frame of an event that fits.
const ROOM: usize = 64;

// A count has two digits, and a blank stands behind it.
const IN_FRONT: usize = 3;

// The MSGID that begins with a letter; GRANT where none does.
#[tactic(auto, unfolding(syslog::specs::Guess::msgid_by))]
fn msgid_by(letter: u8) -> Msgid
    ensures { result ≡ msgid_by letter }
{
    match letter {
        b'D' => Msgid::Deny,
        b'L' => Msgid::Lapse,
        b'P' => Msgid::Pass,
        _ => Msgid::Grant,
    }
}

// The MSGID by the first letter of a text. `@` stands in front of the letters.
fn msgid_in(text: &[u8]) -> Msgid
    ensures { result ≡ msgid_in text.now }
{
    match text.iter().find(|byte| b'@' < **byte) {
        Some(letter) => msgid_by(*letter),
        None => Msgid::Grant,
    }
}

// What stands behind the first `=`.
fn behind_mark(text: &[u8]) -> &[u8]
    ensures { result.now ≡ behind_mark text.now }
{
    match text.iter().position(|byte| *byte == b'=') {
        Some(mark) => &text[mark + 1..],
        None => &text[..0],
    }
}

// The number at the front of a text.
fn number_from(text: &[u8]) -> usize
    ensures number { result ≡ number_from text.now }
    ensures small { result < 10000 }
{
    let mut n = 0;
    for byte in &text[..text.len().min(MOST_DIGITS)] {
        if !byte.is_ascii_digit() {
            return n;
        }
        n = n * 10 + (*byte - b'0') as usize;
    }
    n
}

// The event that a text seems to tell.
fn guess(text: &[u8]) -> LineEvent
    ensures { result ≡ guess_of text.now }
{
    let msgid = msgid_in(text);
    let door = behind_mark(text);
    let person = behind_mark(door);
    let reason = behind_mark(person);
    let held = behind_mark(reason);
    LineEvent {
        msgid,
        door: number_from(door),
        person: number_from(person),
        reason: number_from(reason),
        held: number_from(held),
    }
}

// Whether a text is what `put` puts, where that isn't too long.
fn is_put<F: Fn(&mut [u8]) -> usize>(text: &[u8], put: F) -> bool
    requires { F.IsAlwaysCallable put }
    ensures { (own : List ℕ) → length own ≤ 64 → Puts F.Fn put own → Tells result (text.now ≡ own) }
{
    let mut own = [0; ROOM];
    let end = put(&mut own);
    end == text.len() && own.starts_with(text)
}

// Reads a line back from a list that is that line and nothing more; 15 for anything else.
pub fn read_line(text: &[u8]) -> Result<LineEvent, NotOurs>
    ensures { ReadsLine text.now result }
{
    let event = guess(text);
    if fits_line(event) && is_put(text, |list| put_line(list, 0, event)) {
        return Ok(event);
    }
    Err(NotOurs)
}

// Reads the frame that begins at a place of a stream, with the place behind it, or that the stream ends there; 15 for anything else.
pub fn read_frame(stream: &[u8], at: usize) -> Result<Option<(LineEvent, usize)>, NotOurs>
    ensures { ReadsFrame stream.now at result }
{
    let rest = stream.get(at..).ok_or(NotOurs)?;
    if rest.is_empty() {
        return Ok(None);
    }
    let size = number_from(rest) + IN_FRONT;
    let text = rest.get(..size).ok_or(NotOurs)?;
    let event = guess(text);
    if fits_line(event) && is_put(text, |list| put_frame(list, 0, event)) {
        return Ok(Some((event, at + size)));
    }
    Err(NotOurs)
}
