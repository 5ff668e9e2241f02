// What a program is asked for and what it gives: a number from the command line, and a text on standard output. What goes wrong
// is said on standard error.
#![tactic(auto)]

ghost use Rattle.std.specs.Prelude.{◌≡◌, cond, length, leb};
ghost use Rattle.program_io.specs.{Asked};

use cells::say::number_of;
use grammar::cut::Cell;
use sheet_files::fail;
use std::env::Env;

// So many bytes are written where a text has more than its list.
const NOTHING: usize = 0;

// So many bytes of an argument are looked at.
const MOST_WORD: usize = 4096;

// Writes the text that stands at the front of a list, and tells of how many bytes that is: none where the list is shorter.
// Where a write fails, that is said on standard error.
pub fn write_text(rt: &(impl Print + Eprint), list: &[u8], count: usize) -> usize
    ensures { result ≡ cond (leb count (length list.now)) count 0 }
{
    let Some(text) = list.get(..count) else {
        return NOTHING;
    };
    if let Err(error) = rt.write_all(text) {
        fail(rt, "standard output", error);
    }
    count
}

// The number that the program's argument says, or what is to be taken without one.
#[tactic(auto, using(crate::proofs::Asked::asked_of))]
pub fn number_asked(rt: &impl Env, otherwise: usize) -> usize
    ensures { Asked otherwise result }
{
    let mut word = [0u8; MOST_WORD];
    let length = rt.arg(1, &mut word).unwrap_or(0);
    let whole = Cell {
        start: 0,
        end: length,
        doubled: false,
    };
    number_of(&word, whole).unwrap_or(otherwise)
}
