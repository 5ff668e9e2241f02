// How one row goes into the tables: whether it fits, and what is wrong with it where it doesn't. Where something is wrong, the tables
// stay as they are. Functions over a lent `Draft` and no methods, since the type stands in crate `site_lines`.
ghost use Rattle.std.specs.Prelude.{◌≡◌};
ghost use Rattle.site_lines.specs.Draft.{Bounded, counts_of, site_row_fits, door_row_fits, exit_row_fits, right_row_fits, take_line};
ghost use Rattle.site_lines.specs.Lent.{taken_with};

use site_lines::{Draft, RowFault, SiteLine};
use tables::{MOST_DOORS, MOST_LOCATIONS, MOST_PEOPLE};

// Whether so many people and locations make a site.
#[tactic(auto, unfolding(site_lines::specs::Draft::site_row_fits, tables::specs::Tables::and_also))]
fn site_fits(people: usize, locations: usize) -> bool
    ensures { result ≡ site_row_fits people locations }
{
    1 <= people && people <= MOST_PEOPLE && 2 <= locations && locations <= MOST_LOCATIONS
}

// Whether a door may go from one location to another, and there is room for it.
#[tactic(auto, unfolding(site_lines::specs::Draft::door_row_fits, tables::specs::Tables::and_also))]
fn door_fits(locations: usize, doors: usize, from: usize, to: usize) -> bool
    ensures { result ≡ door_row_fits locations doors from to }
{
    from < locations && to < locations && from != to && doors < MOST_DOORS
}

// Whether a location may be signed to another.
#[tactic(auto, unfolding(site_lines::specs::Draft::exit_row_fits, tables::specs::Tables::and_also))]
fn exit_fits(locations: usize, from: usize, to: usize) -> bool
    ensures { result ≡ exit_row_fits locations from to }
{
    1 <= from && from < locations && to < locations
}

// Whether a person may be given a right to a location.
#[tactic(auto, unfolding(site_lines::specs::Draft::right_row_fits, tables::specs::Tables::and_also))]
fn right_fits(people: usize, locations: usize, person: usize, location: usize) -> bool
    ensures { result ≡ right_row_fits people locations person location }
{
    person < people && 1 <= location && location < locations
}

// `site,P,L`
#[tactic(auto, unfolding(site_lines::specs::Draft::take_line, site_lines::specs::Draft::take_site))]
fn take_site(draft: &mut Draft, people: usize, locations: usize) -> Result<(), RowFault>
    ensures { taken_with result draft.new ≡ take_line draft.old (SiteLine.Site people locations) }
{
    if !site_fits(people, locations) {
        return Err(RowFault::Range);
    }
    if draft.locations != 0 {
        return Err(RowFault::Twice);
    }
    draft.people = people;
    draft.locations = locations;
    Ok(())
}

// `door,o,t`
#[tactic(auto, using(site_lines::proofs::Fits::door_in_lem), unfolding(site_lines::specs::Draft::take_line, site_lines::specs::Draft::take_door))]
fn take_door(draft: &mut Draft, from: usize, to: usize) -> Result<(), RowFault>
    requires { Bounded (counts_of draft.old) }
    ensures { taken_with result draft.new ≡ take_line draft.old (SiteLine.Door from to) }
{
    if draft.locations == 0 {
        return Err(RowFault::NoSite);
    }
    if !door_fits(draft.locations, draft.doors, from, to) {
        return Err(RowFault::Range);
    }
    let door = draft.doors;
    draft.origin[door] = from as u8;
    draft.destination[door] = to as u8;
    draft.doors = door + 1;
    Ok(())
}

// `exit,l,m`
#[tactic(auto, using(site_lines::proofs::Fits::exit_in_lem), unfolding(site_lines::specs::Draft::take_line, site_lines::specs::Draft::take_exit))]
fn take_exit(draft: &mut Draft, from: usize, to: usize) -> Result<(), RowFault>
    requires { Bounded (counts_of draft.old) }
    ensures { taken_with result draft.new ≡ take_line draft.old (SiteLine.Exit from to) }
{
    if draft.locations == 0 {
        return Err(RowFault::NoSite);
    }
    if !exit_fits(draft.locations, from, to) {
        return Err(RowFault::Range);
    }
    if draft.given[from] {
        return Err(RowFault::Twice);
    }
    draft.exit[from] = to as u8;
    draft.given[from] = true;
    Ok(())
}

// `right,p,l`
#[tactic(auto, using(site_lines::proofs::Fits::right_in), unfolding(site_lines::specs::Draft::take_line, site_lines::specs::Draft::take_right))]
fn take_right(draft: &mut Draft, person: usize, location: usize) -> Result<(), RowFault>
    requires { Bounded (counts_of draft.old) }
    ensures { taken_with result draft.new ≡ take_line draft.old (SiteLine.Right person location) }
{
    if draft.locations == 0 {
        return Err(RowFault::NoSite);
    }
    if !right_fits(draft.people, draft.locations, person, location) {
        return Err(RowFault::Range);
    }
    let at = person * MOST_LOCATIONS + location;
    if draft.right[at] {
        return Err(RowFault::Twice);
    }
    draft.right[at] = true;
    Ok(())
}

// A row goes into the tables that are lent. A `match` and no table of functions, since the kinds of row carry different numbers.
#[tactic(auto, unfolding(site_lines::specs::Draft::take_line))]
pub(crate) fn take(draft: &mut Draft, line: SiteLine) -> Result<(), RowFault>
    requires { Bounded (counts_of draft.old) }
    ensures { taken_with result draft.new ≡ take_line draft.old line }
{
    match line {
        SiteLine::Site(people, locations) => take_site(draft, people, locations),
        SiteLine::Door(from, to) => take_door(draft, from, to),
        SiteLine::Exit(from, to) => take_exit(draft, from, to),
        SiteLine::Right(person, location) => take_right(draft, person, location),
        SiteLine::Bad => Err(RowFault::Form),
    }
}
