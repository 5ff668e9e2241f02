// The row reader: it holds a sheet and the byte that it has come to. Its functions are thin over the row cutter, which takes the
// sheet and the place. `row_at` stands above them: a loop over the rows of a sheet asks it for each row, and needs no reader of
// its own. `count` counts the rows of a whole sheet.
#![tactic(auto)]

ghost use Rattle.std.specs.Prelude.{◌≡◌};
ghost use Rattle.grammar.specs.Cut.{cut_row};
ghost use Rattle.reader.specs.Reader.{reader_at};

use grammar::cut::RowCut;
use sheet::cut::cut_row;

pub mod count;

#[derive(Clone, Copy)]
pub struct Reader<'a> {
    pub sheet: &'a [u8],
    pub at: usize,
}

impl<'a> Reader<'a> {
    // The reader that has come to this byte of a sheet.
    pub fn at_byte(sheet: &'a [u8], at: usize) -> Reader<'a>
        ensures { result ≡ reader_at sheet.entry at }
    {
        Reader { sheet, at }
    }

    // The row that the reader has come to. The reader is as it was.
    pub fn row(self) -> RowCut
        ensures { result ≡ cut_row self.entry.sheet.now self.entry.at }
    {
        cut_row(self.sheet, self.at)
    }
}

// The row at a position of the sheet, by a reader that has come to it.
pub fn row_at(s: &[u8], at: usize) -> RowCut
    ensures { result ≡ cut_row s.now at }
{
    Reader::at_byte(s, at).row()
}
