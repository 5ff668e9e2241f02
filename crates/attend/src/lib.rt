// One row of a steps sheet, answered as it comes, for the panel's own loop: the record is lent, a step is done on it or refused, and the
// row to print is written into a lent list.
//
// `attend` takes the lent record; `attend_once` lends it one, for whoever holds it by value. A row of bad form asks for no step, which no
// phase allows, so that the record stays as it was. The definitions are in specs/Attend.antt.
#![tactic(auto)]

ghost use Rattle.std.specs.Prelude.{◌≡◌};
ghost use Rattle.text.specs.Wrote.{Wrote};
ghost use Rattle.attend.specs.Attend.{row_says, asked_by, shown_row, Attends};

use deeds::Told;
use grammar::cut::RowCut;
use number_rows::put_row;
use numbers::{Numbered, Paper};
use phases::table::{Kind, StepRow};
use reader::row_at;
use record::record::Record;
use steps_row::steps_line_of;

// What a row asks for: a step with its door and its person. A row of bad form asks for an unknown step.
#[repr(C)]
#[derive(Clone, Copy)]
pub struct RowAsks {
    pub kind: Kind,
    pub door: usize,
    pub person: usize,
}

// How a row was attended to: what it asked for, what was told, and how long the row to print is.
#[repr(C)]
#[derive(Clone, Copy)]
pub struct Attended {
    pub asked: RowAsks,
    pub told: Told,
    pub length: usize,
}

// What was done by value: the record as it is found afterwards, and how the row was attended to.
#[repr(C)]
#[derive(Clone, Copy)]
pub struct Turn {
    pub next: Record,
    pub attended: Attended,
}

// The step that the bytes of a row say, with its CRLF or without; no row, or more than one, is of bad form.
#[tactic(auto, unfolding(crate::specs::Attend::row_says))]
fn row_says(row: &[u8]) -> Option<StepRow>
    ensures { result ≡ row_says row.now }
{
    match row_at(row, 0) {
        RowCut::Cut(cells, next) => {
            if next != row.len() {
                return None;
            }
            steps_line_of(row, cells)
        }
        RowCut::NoRow => None,
        RowCut::Broken(_) => None,
    }
}

// What a row asks for.
fn asked_in(row: &[u8]) -> RowAsks
    ensures { result ≡ asked_by (row_says row.now) }
{
    match row_says(row) {
        Some(step) => RowAsks {
            kind: step.kind,
            door: step.at as usize,
            person: step.person as usize,
        },
        None => RowAsks {
            kind: Kind::Unknown,
            door: 0,
            person: 0,
        },
    }
}

// The row to print: what was told of a step, or that the row is of bad form.
fn put_shown(out: &mut [u8], number: usize, asked: RowAsks, told: Told) -> usize
    ensures { Wrote out.old 0 (shown_row number asked told) out.new result }
{
    if let Kind::Unknown = asked.kind {
        return put_row(out, 0, number, &[Paper::BAD_FORM as usize, 0, 0, 0]);
    }
    put_row(
        out,
        0,
        number,
        &[
            told.answer.number() as usize,
            told.phase as usize,
            told.reason as usize,
            told.held,
        ],
    )
}

// The row to print, with what it was about.
fn show(out: &mut [u8], number: usize, asked: RowAsks, told: Told) -> Attended
    ensures wrote { Wrote out.old 0 (shown_row number asked told) out.new result.length }
    ensures asked { result.asked ≡ asked }
    ensures told { result.told ≡ told }
{
    let length = put_shown(out, number, asked, told);
    Attended {
        asked,
        told,
        length,
    }
}

// A row, with its number, on the record that is lent.
pub fn attend(held: &mut Record, row: &[u8], number: usize, out: &mut [u8]) -> Attended
    ensures { Attends held.old row.now number out.old result held.new out.new }
{
    let asked = asked_in(row);
    let told = held.step_lent(asked.kind, asked.door, asked.person);
    show(out, number, asked, told)
}

// The same by lending the record.
pub fn attend_once(mut held: Record, row: &[u8], number: usize, out: &mut [u8]) -> Turn
    ensures { Attends held row.now number out.old result.attended result.next out.new }
{
    let attended = attend(&mut held, row, number, out);
    Turn {
        next: held,
        attended,
    }
}
