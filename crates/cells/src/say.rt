// What a field says: whether it is a given word, and which number it is.
ghost use Rattle.std.specs.Prelude.{◌≡◌, ◌≤◌, length};
ghost use Rattle.cell_meaning.specs.Say.{content_at, is_word, needless_zero, digits_from, number_in, number_at, says_words};
ghost use Rattle.grammar.specs.Sizes.{width};

use grammar::cut::{Cell, Cells};

// A number has at most this many digits.
const WIDTH: usize = 3;

// The bytes of a cell, as a part of the sheet; no bytes where the cell doesn't lie in the sheet.
#[tactic(auto, unfolding(cell_meaning::specs::Say::content_at))]
fn content<'a>(s: &'a [u8], cell: Cell) -> &'a [u8]
    ensures { result.now ≡ content_at s.now cell }
{
    s.get(cell.start..cell.end).unwrap_or_default()
}

// Whether the digits begin with a zero that needn't be there.
#[tactic(auto, unfolding(cell_meaning::specs::Say::needless_zero))]
fn needless_zero(c: &[u8]) -> bool
    ensures { result ≡ needless_zero c.now }
{
    matches!(c, [b'0', _, ..])
}

// The value of some bytes that may be digits.
fn digits(c: &[u8]) -> Option<usize>
    requires { length c.now ≤ width }
    ensures { result ≡ digits_from 0 c.now }
{
    let mut value = 0;
    for b in c {
        if !b.is_ascii_digit() {
            return None;
        }
        value = value * 10 + (*b - b'0') as usize;
    }
    Some(value)
}

// The number that some bytes are.
#[tactic(auto, unfolding(cell_meaning::specs::Say::number_in))]
fn number_in(c: &[u8]) -> Option<usize>
    ensures { result ≡ number_in c.now }
{
    if c.is_empty() || WIDTH < c.len() || needless_zero(c) {
        return None;
    }
    digits(c)
}

// Whether a field of the sheet is this word. One with a doubled quote in it is no word.
#[tactic(auto, unfolding(cell_meaning::specs::Say::is_word), using(crate::proofs::Words::same_equal))]
pub fn is_word(s: &[u8], cell: Cell, word: &[u8]) -> bool
    ensures { result ≡ is_word s.now cell word.now }
{
    !cell.doubled && content(s, cell) == word
}

// Whether a row has three fields and they are these words. Each on its own and no list of three: `says_words` says them so.
#[tactic(auto, unfolding(cell_meaning::specs::Say::says_words))]
pub fn says_words(s: &[u8], cells: Cells, first: &[u8], second: &[u8], third: &[u8]) -> bool
    ensures { result ≡ says_words s.now cells first.now second.now third.now }
{
    cells.count == 3
        && is_word(s, cells.first, first)
        && is_word(s, cells.second, second)
        && is_word(s, cells.third, third)
}

// The number that a field of the sheet is. One with a doubled quote in it is no number.
#[tactic(auto, unfolding(cell_meaning::specs::Say::number_at))]
pub fn number_of(s: &[u8], cell: Cell) -> Option<usize>
    ensures { result ≡ number_at s.now cell }
{
    if cell.doubled {
        return None;
    }
    number_in(content(s, cell))
}
