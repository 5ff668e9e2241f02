// A whole sheet: its rows, counted up to the first one that is broken.
ghost use Rattle.std.specs.Prelude.{◌≡◌};
ghost use Rattle.grammar.specs.Rows.{count_rows};

use crate::row_at;
use grammar::count::BrokenSheet;
use grammar::cut::RowCut;

// The rows of a sheet. A `loop`, since only a row's cut tells where the next one begins.
pub fn count_rows(s: &[u8]) -> Result<usize, BrokenSheet>
    ensures { result ≡ count_rows s.now }
{
    let mut rows = 0;
    let mut at = 0;
    loop {
        match row_at(s, at) {
            RowCut::Cut(_, next) => {
                rows += 1;
                at = next;
            }
            RowCut::NoRow => return Ok(rows),
            RowCut::Broken(byte) => return Err(BrokenSheet { rows, byte }),
        }
    }
}
