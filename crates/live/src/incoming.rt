// The bytes that have come on standard input and aren't answered yet. They lie in a lent list, from one place of it up to another.
use grammar::cut::RowCut;
use reader::row_at;
use std::io::{Read, Result};

const LF: u8 = 10;

// The bytes of a list from one place up to another; none where they don't lie in the list.
pub(crate) fn part(list: &[u8], from: usize, end: usize) -> &[u8] {
    list.get(from..end).unwrap_or(&[])
}

// Where the row ends that begins at a place of some bytes: a whole row, or one that is of bad form whatever follows. None where what follows
// may belong to it. A row that can be cut is whole where bytes lie behind it, or where it ends in an LF, which outside quotes stands only in
// a CRLF; else it may go on. One that breaks at a byte that has come is of bad form; one that only ends too soon may go on.
pub(crate) fn row_end(bytes: &[u8], from: usize) -> Option<usize> {
    match row_at(bytes, from) {
        RowCut::Cut(_, next) => {
            if next < bytes.len() || bytes.last() == Some(&LF) {
                return Some(next);
            }
            None
        }
        RowCut::NoRow => None,
        RowCut::Broken(byte) => {
            if byte < bytes.len() {
                return Some(bytes.len());
            }
            None
        }
    }
}

// Moves the bytes from one place up to another to the front of the list, and tells how many.
pub(crate) fn to_front(list: &mut [u8], from: usize, end: usize) -> usize {
    if from <= end && end <= list.len() {
        list.copy_within(from..end, 0);
    }
    end.saturating_sub(from)
}

// Reads what there is on standard input into the list, from a place on, and waits where there is nothing yet. Tells how many bytes were
// read: 0 at the end of the input, or where the list has no room.
pub(crate) fn read_behind(input: &mut impl Read, list: &mut [u8], from: usize) -> Result<usize> {
    if from < list.len() {
        return input.read(&mut list[from..]);
    }
    Ok(0)
}
