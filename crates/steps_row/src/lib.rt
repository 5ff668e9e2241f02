// What a row of a steps sheet says: a step with its door and its person, or nothing where it is of bad form. The definitions, and the
// theorems of them, are those of crate `steps_sheet`.
#![tactic(auto)]

ghost use Rattle.std.specs.Prelude.{◌≡◌};
ghost use Rattle.steps_sheet.specs.Steps.{kind_at, person_at, steps_line_at};

use cells::say::{is_word, number_of};
use grammar::cut::{Cell, Cells};
use phases::table::{Kind, StepRow};

// The words of the ten steps, each at its step's number.
const WORDS: [&[u8]; 10] = [
    b"card", b"decide", b"green", b"red", b"walk", b"tick", b"passed", b"lapsed", b"dark", b"ack",
];

// The step that a field names.
fn kind_of(s: &[u8], cell: Cell) -> Kind
    ensures { result ≡ kind_at s.now cell }
{
    match WORDS.iter().position(|word| is_word(s, cell, word)) {
        Some(number) => Kind::from(number as u8),
        None => Kind::Unknown,
    }
}

// The person that a row names: a number for `card`, and nothing for every other step.
#[tactic(auto, using(phases::proofs::Steps::others_name_none), unfolding(steps_sheet::specs::Steps::person_at))]
fn person_of(s: &[u8], kind: Kind, cell: Cell) -> Option<usize>
    ensures { result ≡ person_at s.now kind cell }
{
    if kind == Kind::Card {
        return number_of(s, cell);
    }
    if is_word(s, cell, b"") { Some(0) } else { None }
}

// The step that a row with these cells is; none where it is of bad form.
#[tactic(auto, using(cell_meaning::proofs::Saying::number_small, steps_sheet::proofs::Rows::others_are_steps, steps_sheet::proofs::Rows::person_small), unfolding(steps_sheet::specs::Steps::steps_line_at))]
pub fn steps_line_of(s: &[u8], cells: Cells) -> Option<StepRow>
    ensures { result ≡ steps_line_at s.now cells }
{
    if cells.count != 3 {
        return None;
    }
    let at = number_of(s, cells.second)? as u16;
    let kind = kind_of(s, cells.first);
    let person = person_of(s, kind, cells.third)? as u16;
    if kind == Kind::Unknown {
        return None;
    }
    Some(StepRow { kind, at, person })
}
