// What a row of a site sheet says: a line of the site, or that it is of bad form. The definitions, and the theorems of them, are
// those of crate `site_lines`.
#![tactic(auto)]

ghost use Rattle.std.specs.Prelude.{◌≡◌};
ghost use Rattle.site_lines.specs.Line.{word_of, site_line_at};

use cells::say::{is_word, number_of};
use grammar::cut::{Cell, Cells};
use site_lines::{SiteLine, Word};

// The word that a field is.
#[tactic(auto, using(cell_meaning::proofs::Naming::name_here, cell_meaning::proofs::Naming::name_on, cell_meaning::proofs::Naming::name_none), unfolding(site_lines::specs::Line::word_named))]
fn word_of(s: &[u8], cell: Cell) -> Word
    ensures { result ≡ word_of s.now cell }
{
    if is_word(s, cell, b"site") {
        return Word::Site;
    }
    if is_word(s, cell, b"door") {
        return Word::Door;
    }
    if is_word(s, cell, b"exit") {
        return Word::Exit;
    }
    if is_word(s, cell, b"right") {
        return Word::Right;
    }
    Word::Unknown
}

// What a row with these cells says. A `match` at its end, since `site_line_at` says the words one by one.
#[tactic(auto, unfolding(site_lines::specs::Line::site_line_at))]
pub fn site_line_of(s: &[u8], cells: Cells) -> SiteLine
    ensures { result ≡ site_line_at s.now cells }
{
    if cells.count != 3 {
        return SiteLine::Bad;
    }
    let Some(a) = number_of(s, cells.second) else {
        return SiteLine::Bad;
    };
    let Some(b) = number_of(s, cells.third) else {
        return SiteLine::Bad;
    };
    match word_of(s, cells.first) {
        Word::Site => SiteLine::Site(a, b),
        Word::Door => SiteLine::Door(a, b),
        Word::Exit => SiteLine::Exit(a, b),
        Word::Right => SiteLine::Right(a, b),
        Word::Unknown => SiteLine::Bad,
    }
}
