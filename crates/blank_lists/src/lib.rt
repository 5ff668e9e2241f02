// Lists of zeros: for a sheet and for the two texts, which the programs lend, and for the rights of a site. They are not one function of a
// size, since each promises the size that its list has to have, and one function would promise whatever size it is asked for.
#![tactic(auto)]

ghost use Rattle.std.specs.Prelude.{◌+◌, ◌*◌, ◌≡◌, replicate, false};
ghost use Rattle.grammar.specs.Sizes.{limit};
ghost use Rattle.tables.specs.Tables.{most_people, most_locations};
ghost use Rattle.blank_lists.specs.{most_panel_text, most_where_text};

use sheet::LIMIT;
use tables::MOST_RIGHTS;

// One byte more than a sheet may have, so that a longer file is seen to be longer.
pub const ROOM: usize = LIMIT + 1;

// A list of zeros for a sheet.
pub fn blank_sheet() -> [u8; ROOM]
    ensures { result ≡ replicate (limit + 1) 0 }
{
    [0; ROOM]
}

// Room for every text that `panel` prints, and for every one that `where` prints: `panel_fits` and `where_fits` of
// crates/demands/specs/DemandOne.antt say so.
pub const MOST_PANEL_TEXT: usize = 93184;

pub const MOST_WHERE_TEXT: usize = 512;

// A list for a text of `panel`.
pub fn blank_panel_text() -> [u8; MOST_PANEL_TEXT]
    ensures { result ≡ replicate most_panel_text 0 }
{
    [0; MOST_PANEL_TEXT]
}

// A list for a text of `where`.
pub fn blank_where_text() -> [u8; MOST_WHERE_TEXT]
    ensures { result ≡ replicate most_where_text 0 }
{
    [0; MOST_WHERE_TEXT]
}

// The rights of a site before any is given.
pub fn blank_rights() -> [bool; MOST_RIGHTS]
    ensures { result ≡ replicate (most_people * most_locations) false }
{
    [false; MOST_RIGHTS]
}
