// A site sheet becomes a fresh record, or a refusal with its place.
//
// Crate `site_tables` takes the rows; here the whole sheet is answered: its length, its header, and the rules over its tables. The
// definitions, and the theorems of them, are those of crates `site_lines` and `site_sheet`.
#![tactic(auto)]

ghost use Rattle.std.specs.Prelude.{◌≡◌};
ghost use Rattle.grammar.specs.Rows.{rows_from};
ghost use Rattle.verdict.specs.Verdict.{said_of};
ghost use Rattle.site_lines.specs.Draft.{blank_draft};
ghost use Rattle.site_lines.specs.Lent.{fault_of};
ghost use Rattle.site_lines.specs.Line.{site_header_at};
ghost use Rattle.site_lines.specs.Taking.{verdict_of, lines_in, read_lines};
ghost use Rattle.site_sheet.specs.Site.{site_told, judged_draft, settled, site_of};

use cells::say::says_words;
use grammar::cut::{Cells, RowCut};
use reader::row_at;
use record::record::Record;
use rules::Tables;
use sheet::LIMIT;
use site_lines::{Draft, RowFault, Stopped};
use site_tables::read_rows;
use verdict::SiteRefused;

// Whether a row with these cells is the header.
#[tactic(auto, unfolding(site_lines::specs::Line::site_header_at))]
fn is_header(s: &[u8], cells: Cells) -> bool
    ensures { result ≡ site_header_at s.now cells }
{
    says_words(s, cells, b"kind", b"a", b"b")
}

// Rules 6 to 10 over the whole sheet, each finished before the next, and then the record of these tables.
#[tactic(auto, unfolding(site_sheet::specs::Site::judged_draft))]
fn judged(draft: Draft) -> Result<Record, SiteRefused>
    ensures { result ≡ site_told (judged_draft draft) }
{
    if let Some(location) = rules::first_no_exit(draft.locations, &draft.given) {
        return Err(SiteRefused::NoExit(location));
    }
    let site = Tables {
        people: draft.people,
        locations: draft.locations,
        doors: draft.doors,
        origin: &draft.origin,
        destination: &draft.destination,
        exit: &draft.exit,
        right: &draft.right,
    };
    if let Some(location) = site.first_stray() {
        return Err(SiteRefused::Stray(location));
    }
    if let Some(location) = site.first_no_door() {
        return Err(SiteRefused::NoDoor(location));
    }
    if let Some((person, location)) = site.first_no_right() {
        return Err(SiteRefused::NoRight(person, location));
    }
    if let Some(person) = site.first_shut_out() {
        return Err(SiteRefused::ShutOut(person));
    }
    Ok(Record::fresh(
        draft.people,
        draft.locations,
        draft.doors,
        draft.origin,
        draft.destination,
        draft.exit,
        draft.right,
    ))
}

// The refusal of a sheet whose rows stop there. A `match` over the faults, since only some of them tell the row.
fn refused_at(stopped: Stopped) -> SiteRefused
    ensures { said_of result ≡ verdict_of (fault_of stopped.stop.fault) stopped.stop.row }
{
    let stop = stopped.stop;
    match stop.fault {
        RowFault::Form => SiteRefused::BadRow(stop.row),
        RowFault::NoSite => SiteRefused::NoSite,
        RowFault::Range => SiteRefused::OutOfRange(stop.row),
        RowFault::Twice => SiteRefused::Twice(stop.row),
    }
}

// The answer to a sheet whose first data row begins at this byte.
#[tactic(auto, unfolding(site_sheet::specs::Site::settled))]
fn settled(s: &[u8], from: usize) -> Result<Record, SiteRefused>
    ensures { result ≡ site_told (settled (read_lines blank_draft 1 (lines_in s.now (rows_from s.now from)))) }
{
    let filled = read_rows(s, from).map_err(refused_at)?;
    if filled.draft.locations == 0 {
        return Err(SiteRefused::NoSite);
    }
    judged(filled.draft)
}

// The answer to a site sheet: the fresh record that it describes, or what is wrong with it.
#[tactic(auto, unfolding(site_sheet::specs::Site::site_at, site_sheet::specs::Site::after_header))]
pub fn read_site(s: &[u8]) -> Result<Record, SiteRefused>
    ensures { result ≡ site_told (site_of s.now) }
{
    if LIMIT < s.len() {
        return Err(SiteRefused::TooLong);
    }
    match row_at(s, 0) {
        RowCut::Cut(cells, next) => {
            if !is_header(s, cells) {
                return Err(SiteRefused::BadRow(0));
            }
            settled(s, next)
        }
        RowCut::NoRow => Err(SiteRefused::BadRow(0)),
        RowCut::Broken(_) => Err(SiteRefused::BadRow(0)),
    }
}
