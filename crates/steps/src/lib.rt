// A steps sheet becomes a list of steps, up to the first row of bad form. Nothing here knows of a record.
//
// Crate `steps_row` has what a row says; here is the whole sheet: what its beginning is, and its steps in three lent lists. The
// definitions, and the theorems of them, are those of crate `steps_sheet`.
#![tactic(auto)]

ghost use Rattle.std.specs.Prelude.{◌≡◌, true, Ok};
ghost use Rattle.steps_sheet.specs.Heading.{heading_told};
ghost use Rattle.steps_sheet.specs.Steps.{steps_header_at, heading_of};
ghost use Rattle.steps_sheet.specs.Lent.{most_in, room_for_steps, steps_room_in, decoded_in, kinds_listed, doors_listed, persons_listed};

use cells::say::says_words;
use findings::TooShort;
use grammar::cut::{Cells, RowCut};
use reader::row_at;
use sheet::LIMIT;
use steps_row::steps_line_of;
use steps_sheet::{Decoded, Unheaded};

// A row that is a step has eight bytes, or as the last without CRLF six, so that a sheet has at most so many.
pub const MOST_STEPS: usize = (LIMIT + 2) / 8;

// Whether a row with these cells is the header.
#[tactic(auto, unfolding(steps_sheet::specs::Steps::steps_header_at))]
fn is_header(s: &[u8], cells: Cells) -> bool
    ensures { result ≡ steps_header_at s.now cells }
{
    says_words(s, cells, b"step", b"door", b"person")
}

// Where the first data row of a steps sheet begins, or why its rows aren't run.
#[tactic(auto, unfolding(steps_sheet::specs::Steps::heading_at))]
pub fn heading_of(s: &[u8]) -> Result<usize, Unheaded>
    ensures { result ≡ heading_told (heading_of s.now) }
{
    if LIMIT < s.len() {
        return Err(Unheaded::TooLong);
    }
    let RowCut::Cut(cells, next) = row_at(s, 0) else {
        return Err(Unheaded::Wrong);
    };
    if !is_header(s, cells) {
        return Err(Unheaded::Wrong);
    }
    Ok(next)
}

// The most steps of a sheet of so many bytes, worked out without the sum that a number may not hold.
fn most_in(bytes: usize) -> usize
    ensures { result ≡ most_in bytes }
{
    bytes / 8 + (bytes % 8 + 2) / 8
}

// Whether three lists of these lengths have room for so many steps.
#[tactic(auto, unfolding(steps_sheet::specs::Lent::room_for_steps, tables::specs::Tables::and_also))]
fn room_for(most: usize, kinds: usize, doors: usize, persons: usize) -> bool
    ensures { result ≡ room_for_steps most kinds doors persons }
{
    most <= kinds && most <= doors && most <= persons
}

// The steps of the rows from a position on, in lists that have room for them. A `loop`, since only a row's cut tells where the next one
// begins.
fn fill<'a>(
    s: &'a [u8],
    from: usize,
    kinds: &'a mut [u8],
    doors: &'a mut [u16],
    persons: &'a mut [u16],
) -> Decoded
    requires { steps_room_in s.now kinds.old doors.old persons.old ≡ true }
    ensures decoded { Ok result ≡ decoded_in s.now from kinds.old doors.old persons.old }
    ensures kinds { kinds.new ≡ kinds_listed s.now from kinds.old doors.old persons.old }
    ensures doors { doors.new ≡ doors_listed s.now from kinds.old doors.old persons.old }
    ensures persons { persons.new ≡ persons_listed s.now from kinds.old doors.old persons.old }
{
    let mut count: usize = 0;
    let mut at = from;
    loop {
        match row_at(s, at) {
            RowCut::Cut(cells, next) => {
                let Some(step) = steps_line_of(s, cells) else {
                    return Decoded {
                        count,
                        whole: false,
                    };
                };
                kinds[count] = u8::from(step.kind);
                doors[count] = step.at;
                persons[count] = step.person;
                count += 1;
                at = next;
            }
            RowCut::NoRow => return Decoded { count, whole: true },
            RowCut::Broken(_) => {
                return Decoded {
                    count,
                    whole: false,
                }
            }
        }
    }
}

// The steps of the rows from a position on, each list with an entry for each step; or a list is too short, and nothing was written.
// Three lists and no list of `StepRow`: `step_list::run` takes them so, and its theorem `run_of` speaks of them.
#[tactic(auto, unfolding(steps_sheet::specs::Lent::decoded_of, steps_sheet::specs::Lent::listed))]
pub fn decode<'a>(
    s: &'a [u8],
    from: usize,
    kinds: &'a mut [u8],
    doors: &'a mut [u16],
    persons: &'a mut [u16],
) -> Result<Decoded, TooShort>
    ensures decoded { result ≡ decoded_in s.now from kinds.old doors.old persons.old }
    ensures kinds { kinds.new ≡ kinds_listed s.now from kinds.old doors.old persons.old }
    ensures doors { doors.new ≡ doors_listed s.now from kinds.old doors.old persons.old }
    ensures persons { persons.new ≡ persons_listed s.now from kinds.old doors.old persons.old }
{
    if !room_for(most_in(s.len()), kinds.len(), doors.len(), persons.len()) {
        return Err(TooShort);
    }
    Ok(fill(s, from, kinds, doors, persons))
}
