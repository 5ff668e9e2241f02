// What the cutters look at and tell: the mode of a field, what a byte does, and what cutting a field or a row finds.

// What the bytes of a field so far have led to.
#[derive(Clone, Copy)]
pub enum Mode {
    // no byte of the field yet
    Fresh,
    // in a bare field
    Bare,
    // in a quoted field, between its quotes
    Open,
    // in a quoted field, behind a quote that closes it or is the first of two
    Shut,
    // behind the CR that must have an LF
    Return,
}

// Where a field's content lies in the sheet: from `start` up to, not including, `end`. Where a quote in the content is
// doubled, the bytes there aren't the content itself.
#[derive(Clone, Copy)]
pub struct Cell {
    pub start: usize,
    pub end: usize,
    pub doubled: bool,
}

// What a byte does. Three ends, two of them good: neither `Option` nor `Result` has this shape, nor that of the cuts below.
#[derive(Clone, Copy)]
pub enum ByteMove {
    // the field goes on, in this mode and with this cell
    Go(Mode, Cell),
    // the field ends, and another follows in the row
    NextField,
    // the field ends, and so does the row
    RowEnd,
    // no continuation is a well-formed row
    Wrong,
}

// What cutting a field finds.
#[derive(Clone, Copy)]
pub enum FieldCut {
    // the field; a comma ends it, and the next field begins there
    Next(Cell, usize),
    // the field; the row ends with it, and the next row begins there (at the sheet's length: the sheet ends)
    Last(Cell, usize),
    // the first byte at which no continuation could be well formed, or the sheet's length where it ends too soon
    Fault(usize),
}

// The fields of a row: how many, and where the first three lie.
#[derive(Clone, Copy)]
pub struct Cells {
    pub count: usize,
    pub first: Cell,
    pub second: Cell,
    pub third: Cell,
}

// What cutting a row finds.
#[derive(Clone, Copy)]
pub enum RowCut {
    // the row's fields; the next row begins there (at the sheet's length: the sheet ends)
    Cut(Cells, usize),
    // no row: the position is at the sheet's end or behind it
    NoRow,
    // the first byte at which no continuation could be a well-formed row, or the sheet's length where it ends too soon
    Broken(usize),
}
