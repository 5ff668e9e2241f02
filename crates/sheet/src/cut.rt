// The field cutter and the row cutter. A row of three bare fields is cut at its commas; any other field by field, each byte in the mode
// that the bytes before it have led to. Nothing is copied.
ghost use Rattle.std.specs.Prelude.{◌≡◌, false, ◌<◌, ◌^◌, IfSome};
ghost use Rattle.sheet.specs.Bare.{BareUpTo, BareTo, has_at};
ghost use Rattle.grammar.specs.Cut.{empty_at, up_to, bare_move, shut_move, move_of, end_of, cut_field, pushed, no_cells, cut_row};

use grammar::cut::{ByteMove, Cell, Cells, FieldCut, Mode, RowCut};

const QUOTE: u8 = 34;

const COMMA: u8 = 44;

const CR: u8 = 13;

const LF: u8 = 10;

// The cell of a field of which no byte has come yet.
fn empty_at(at: usize) -> Cell
    ensures { result ≡ empty_at at }
{
    Cell {
        start: at,
        end: at,
        doubled: false,
    }
}

// The cell with its content reaching up to `next`.
fn up_to(cell: Cell, next: usize, doubled: bool) -> Cell
    ensures { result ≡ up_to cell next doubled }
{
    Cell {
        end: next,
        doubled,
        ..cell
    }
}

// What a byte other than a quote does in a bare field.
#[tactic(auto, unfolding(grammar::specs::Cut::bare_move))]
fn advance_bare(cell: Cell, b: u8, next: usize) -> ByteMove
    ensures { result ≡ bare_move cell b next }
{
    match b {
        COMMA => ByteMove::NextField,
        CR => ByteMove::Go(Mode::Return, cell),
        LF => ByteMove::Wrong,
        _ => ByteMove::Go(Mode::Bare, up_to(cell, next, false)),
    }
}

// What a byte does behind a quote that closes a field or is the first of two.
#[tactic(auto, unfolding(grammar::specs::Cut::shut_move))]
fn advance_shut(cell: Cell, b: u8, next: usize) -> ByteMove
    ensures { result ≡ shut_move cell b next }
{
    match b {
        QUOTE => ByteMove::Go(Mode::Open, up_to(cell, next, true)),
        COMMA => ByteMove::NextField,
        CR => ByteMove::Go(Mode::Return, cell),
        _ => ByteMove::Wrong,
    }
}

// What the byte b does in a field that has come to this mode and this cell; the byte behind it is at `next`.
#[tactic(auto, unfolding(grammar::specs::Cut::move_of))]
fn advance(mode: Mode, cell: Cell, b: u8, next: usize) -> ByteMove
    ensures { result ≡ move_of mode cell b next }
{
    match (mode, b) {
        (Mode::Fresh, QUOTE) => ByteMove::Go(Mode::Open, empty_at(next)),
        (Mode::Bare, QUOTE) => ByteMove::Wrong,
        (Mode::Fresh | Mode::Bare, _) => advance_bare(cell, b, next),
        (Mode::Open, QUOTE) => ByteMove::Go(Mode::Shut, cell),
        (Mode::Open, _) => ByteMove::Go(Mode::Open, up_to(cell, next, cell.doubled)),
        (Mode::Shut, _) => advance_shut(cell, b, next),
        (Mode::Return, LF) => ByteMove::RowEnd,
        (Mode::Return, _) => ByteMove::Wrong,
    }
}

// What a field is that the sheet ends in.
#[tactic(auto, unfolding(grammar::specs::Cut::end_of))]
fn at_end(mode: Mode, cell: Cell, len: usize) -> FieldCut
    ensures { result ≡ end_of mode cell len }
{
    match mode {
        Mode::Fresh | Mode::Bare | Mode::Shut => FieldCut::Last(cell, len),
        Mode::Open | Mode::Return => FieldCut::Fault(len),
    }
}

// The field at a position of the sheet. By the index, since where the field ends is what is told.
pub fn cut_field(s: &[u8], at: usize) -> FieldCut
    ensures { result ≡ cut_field s.now at }
{
    let mut mode = Mode::Fresh;
    let mut cell = empty_at(at);
    for i in at..s.len() {
        match advance(mode, cell, s[i], i + 1) {
            ByteMove::Go(m, c) => {
                mode = m;
                cell = c;
            }
            ByteMove::NextField => return FieldCut::Next(cell, i + 1),
            ByteMove::RowEnd => return FieldCut::Last(cell, i + 1),
            ByteMove::Wrong => return FieldCut::Fault(i),
        }
    }
    at_end(mode, cell, at.max(s.len()))
}

// The fields with one more behind them.
#[tactic(auto, unfolding(grammar::specs::Cut::pushed))]
fn push(cells: Cells, cell: Cell) -> Cells
    requires { cells.count < 2 ^ 63 }
    ensures { result ≡ pushed cells cell }
{
    match cells.count {
        0 => Cells {
            count: 1,
            first: cell,
            ..cells
        },
        1 => Cells {
            count: 2,
            second: cell,
            ..cells
        },
        2 => Cells {
            count: 3,
            third: cell,
            ..cells
        },
        count => Cells {
            count: count + 1,
            ..cells
        },
    }
}

fn no_cells() -> Cells
    ensures { result ≡ no_cells }
{
    let none = empty_at(0);
    Cells {
        count: 0,
        first: none,
        second: none,
        third: none,
    }
}

// The row at a position of the sheet, field by field. A `loop`, since only its last field tells how many there are.
fn cut_fields(s: &[u8], at: usize) -> RowCut
    ensures { result ≡ cut_row s.now at }
{
    if s.len() <= at {
        return RowCut::NoRow;
    }
    let mut cells = no_cells();
    let mut i = at;
    loop {
        match cut_field(s, i) {
            FieldCut::Next(cell, next) => {
                cells = push(cells, cell);
                i = next;
            }
            FieldCut::Last(cell, next) => {
                return RowCut::Cut(push(cells, cell), next);
            }
            FieldCut::Fault(byte) => {
                return RowCut::Broken(byte);
            }
        }
    }
}

// Where the bytes above the comma end that stand at a position of the sheet. One comparison serves for each byte: quote, comma, CR and LF
// are all at most the comma, and the 41 others that are, are left to `cut_fields`.
// A `for` over the places, since a search by an iterator was slower: with it the row cutter took a fifth longer.
fn bare_end(s: &[u8], at: usize) -> usize
    ensures { BareUpTo s.now at result }
{
    for i in at..s.len() {
        if s[i] <= COMMA {
            return i;
        }
    }
    at.max(s.len())
}

// Whether this byte stands at a position of the sheet.
#[tactic(auto, unfolding(crate::specs::Bare::has_at))]
fn has_at(s: &[u8], at: usize, byte: u8) -> bool
    ensures { result ≡ has_at s.now at byte }
{
    s.get(at) == Some(&byte)
}

// Where a bare field ends that begins at a position of the sheet, if this byte ends it.
fn bare_to(s: &[u8], at: usize, byte: u8) -> Option<usize>
    ensures { IfSome result (λ end. BareTo s.now at end byte) }
{
    let end = bare_end(s, at);
    has_at(s, end, byte).then_some(end)
}

// The cell of a field without quotes.
fn bare_cell(start: usize, end: usize) -> Cell
    ensures { result ≡ up_to (empty_at start) end false }
{
    up_to(empty_at(start), end, false)
}

// The row at a position of the sheet, if it has three fields without quotes and ends in CRLF: it is cut at its two commas.
fn cut_bare(s: &[u8], at: usize) -> Option<RowCut>
    ensures { IfSome result (λ cut. cut ≡ cut_row s.now at) }
{
    let first = bare_to(s, at, COMMA)?;
    let second = bare_to(s, first + 1, COMMA)?;
    let third = bare_to(s, second + 1, CR)?;
    let feed = third + 1;
    if !has_at(s, feed, LF) {
        return None;
    }
    let cells = Cells {
        count: 3,
        first: bare_cell(at, first),
        second: bare_cell(first + 1, second),
        third: bare_cell(second + 1, third),
    };
    Some(RowCut::Cut(cells, feed + 1))
}

// The row at a position of the sheet. Nearly every row has three fields without quotes and ends in CRLF: any other is cut field by
// field.
pub fn cut_row(s: &[u8], at: usize) -> RowCut
    ensures { result ≡ cut_row s.now at }
{
    match cut_bare(s, at) {
        Some(cut) => cut,
        None => cut_fields(s, at),
    }
}
