// The rows of a site sheet become tables: they are taken one by one, from the top, up to the first with which something is wrong.
//
// Crate `site_row` has what a row says, `row` how it goes into the tables. The definitions, and the theorems of them, are those of
// crate `site_lines`.
#![tactic(auto)]

ghost use Rattle.std.specs.Prelude.{◌≡◌};
ghost use Rattle.grammar.specs.Rows.{rows_from};
ghost use Rattle.site_lines.specs.Draft.{Bounded, counts_of, blank_draft};
ghost use Rattle.site_lines.specs.Lent.{stopped_told, reading_told};
ghost use Rattle.site_lines.specs.Taking.{lines_in, read_lines};

use crate::row::take;
use blank_lists::blank_rights;
use grammar::cut::RowCut;
use reader::row_at;
use site_lines::{Draft, Filled, RowFault, Stop, Stopped};
use site_row::site_line_of;
use tables::{MOST_DOORS, MOST_LOCATIONS};

mod row;

// The rows of a sheet from a position on, the first of them row 1, into the tables that are lent. A `loop`, since only a row's cut tells
// where the next one begins.
fn take_rows<'s, 'a>(s: &'s [u8], from: usize, draft: &'a mut Draft) -> Result<usize, Stop>
    requires { Bounded (counts_of draft.old) }
    ensures told { result ≡ stopped_told (read_lines draft.old 1 (lines_in s.now (rows_from s.now from))).row (read_lines draft.old 1 (lines_in s.now (rows_from s.now from))).fault (read_lines draft.old 1 (lines_in s.now (rows_from s.now from))).row }
    ensures draft { draft.new ≡ (read_lines draft.old 1 (lines_in s.now (rows_from s.now from))).draft }
{
    let mut at = from;
    let mut row: usize = 1;
    loop {
        match row_at(s, at) {
            RowCut::Cut(cells, next) => {
                let line = site_line_of(s, cells);
                if let Err(fault) = take(draft, line) {
                    return Err(Stop { fault, row });
                }
                at = next;
                row += 1;
            }
            RowCut::NoRow => return Ok(row),
            RowCut::Broken(_) => {
                return Err(Stop {
                    fault: RowFault::Form,
                    row,
                })
            }
        }
    }
}

// The tables of the rows of a sheet from a position on, and the row behind them or where the rows stop.
pub fn read_rows(s: &[u8], from: usize) -> Result<Filled, Stopped>
    ensures { result ≡ reading_told (read_lines blank_draft 1 (lines_in s.now (rows_from s.now from))) }
{
    let mut draft = Draft {
        people: 0,
        locations: 0,
        doors: 0,
        origin: [0; MOST_DOORS],
        destination: [0; MOST_DOORS],
        exit: [0; MOST_LOCATIONS],
        given: [false; MOST_LOCATIONS],
        right: blank_rights(),
    };
    match take_rows(s, from, &mut draft) {
        Ok(row) => Ok(Filled { draft, row }),
        Err(stop) => Err(Stopped { draft, stop }),
    }
}
