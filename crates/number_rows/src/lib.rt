// Rows of numbers as text: `put_row` writes one at a place of a lent list. What a row is stands in text/specs/Text.antt, and what the
// function promises in text/specs/Wrote.antt.
#![tactic(auto)]

ghost use Rattle.text.specs.Text.{row_of_numbers};
ghost use Rattle.text.specs.Wrote.{Wrote};

use text::write::{put, put_number};

const COMMA: u8 = 44;

const CR: u8 = 13;

const LF: u8 = 10;

// A row: a number, and those behind it.
pub fn put_row<'a>(out: &'a mut [u8], at: usize, first: usize, more: &'a [usize]) -> usize
    ensures { Wrote out.old at (row_of_numbers first more.now) out.new result }
{
    let mut next = put_number(out, at, first);
    for n in more {
        next = put(out, next, COMMA);
        next = put_number(out, next, *n);
    }
    next = put(out, next, CR);
    put(out, next, LF)
}
