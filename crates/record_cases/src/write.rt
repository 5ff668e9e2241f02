// What the rows say and what is printed for them: numbers with a comma in front, all on the row's own line.
use cells::say::number_of;
use grammar::cut::{Cell, Cells};

// The number that a field says, 0 for none.
pub fn number_or_0(s: &[u8], cell: Cell) -> usize {
    number_of(s, cell).unwrap_or(0)
}

// The numbers of the cases have three digits at most; a larger one is the largest.
pub fn byte(n: usize) -> u8 {
    u8::try_from(n).unwrap_or(u8::MAX)
}

pub fn word(n: usize) -> u16 {
    u16::try_from(n).unwrap_or(u16::MAX)
}

pub fn write(rt: &impl Print, text: &[u8]) {
    let _ = rt.write_all(text);
}

pub fn write_next(rt: &impl Print, n: u64) {
    write(rt, b",");
    let _ = rt.print(n);
}

pub fn write_end(rt: &impl Print) {
    write(rt, b"\r\n");
}

// The row as it stands in the sheet.
pub fn write_row(rt: &impl Print, s: &[u8], cells: Cells) {
    if let Some(row) = s.get(cells.first.start..cells.third.end) {
        write(rt, row);
    }
}

// Each byte of a list.
pub fn write_bytes(rt: &impl Print, list: &[u8]) {
    for byte in list {
        write_next(rt, u64::from(*byte));
    }
}
