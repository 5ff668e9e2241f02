// Are lent lists as a sound record's are? Each sentence of the paper's section is a test over the
// lists that it speaks of, which are never copied.
#![tactic(auto, using(std::proofs::lemmas::Bool::Decides::nat_tests, crate::proofs::Rights::none_past), unfolding(tables::specs::Tables::and_also, tables::specs::Tables::or_else, door_fits::specs::Fits::is_free, crate::specs::SoundTest::place_fits, crate::specs::SoundTest::door_fits, crate::specs::SoundTest::grant_fits, crate::specs::SoundTest::zero_beyond, crate::specs::SoundTest::doors_sound, crate::specs::SoundTest::lists_sound, crate::specs::Rights::row_fits, crate::specs::Rights::person_fits))]

ghost use Rattle.std.specs.Prelude.{◌≡◌, ◌*◌, ◌<◌, length};
ghost use Rattle.tables.specs.Tables.{most_locations};
ghost use Rattle.rules.specs.Lent.{plan_lent};
ghost use Rattle.soundness.specs.SoundTest.{zero_from, rights_fit, place_fits, places_fit};
ghost use Rattle.soundness.specs.SoundTest.{door_fits, doors_fit, grant_fits, grants_fit};
ghost use Rattle.soundness.specs.Rights.{none_given, row_fits, person_fits};
ghost use Rattle.soundness.specs.SoundTest.{zero_beyond, doors_sound, lists_sound};

use door::{Door, Doors};
use door_fits::{fits, grants};
use lists::entry_at;
use rules::Tables;
use sole_grants::sole_grants;
use tables::{MOST_DOORS, MOST_LOCATIONS};

// From the count on a table holds 0.
fn zero_from(count: usize, table: &[u8]) -> bool
    ensures { result ≡ zero_from count table.now }
{
    (count..table.len()).all(|at| entry_at(table, at) == 0)
}

// None of the rights from one entry on, up to another, is given.
fn none_given(right: &[bool], from: usize, to: usize) -> bool
    ensures { result ≡ none_given from to right.now }
{
    (from..to).all(|at| !entry_at(right, at))
}

// A person has no right to location 0, and none beyond the locations. Their other rights need no look here.
fn row_fits(locations: usize, right: &[bool], row: usize) -> bool
    requires { row < length right.now }
    ensures { result ≡ row_fits locations right.now row }
{
    !entry_at(right, row)
        && (MOST_LOCATIONS <= locations || none_given(right, row + locations, row + MOST_LOCATIONS))
}

// A person's rights are those that they can have, and beyond the people nobody has any.
fn person_fits(people: usize, locations: usize, right: &[bool], person: usize) -> bool
    requires { person * most_locations < length right.now }
    ensures { result ≡ person_fits people locations right.now person }
{
    let row = person * MOST_LOCATIONS;
    if person < people {
        row_fits(locations, right, row)
    } else {
        none_given(right, row, row + MOST_LOCATIONS)
    }
}

// A right is one of a person to a location other than 0. A person's row is tested at a time.
fn rights_fit(people: usize, locations: usize, right: &[bool]) -> bool
    ensures { result ≡ rights_fit people locations right.now }
{
    (0..right.len().div_ceil(MOST_LOCATIONS)).all(|person| person_fits(
        people, locations, right, person,
    ))
}

// A person is where they may be, and beyond the people stands 0.
fn place_fits(site: Tables, place: &[u8], person: usize) -> bool
    ensures { result ≡ place_fits site.entry.people site.entry.right.now place.now person }
{
    let location = entry_at(place, person) as usize;
    if person < site.people {
        site.may_be(person, location)
    } else {
        location == 0
    }
}

// Every place fits.
fn places_fit(site: Tables, place: &[u8]) -> bool
    ensures { result ≡ places_fit site.entry.people site.entry.right.now place.now }
{
    (0..place.len()).all(|person| place_fits(site, place, person))
}

// A door's fields fit, and beyond the doors stands 0.
fn door_fits(site: Tables, so: Doors, door: usize) -> bool
    ensures { result ≡ door_fits site.entry.people site.entry.doors so.entry.phase.now so.entry.holder.now so.entry.count.now door }
{
    if door < site.doors {
        fits(so.at(door), site.people)
    } else {
        so.at(door) == Door::free()
    }
}

// Every door fits, also those beyond the count.
fn doors_fit(site: Tables, so: Doors) -> bool
    ensures { result ≡ doors_fit site.entry.people site.entry.doors so.entry.phase.now so.entry.holder.now so.entry.count.now }
{
    (0..MOST_DOORS).all(|door| door_fits(site, so, door))
}

// A grant's door starts where the person is, and the person has a right to its destination.
fn grant_fits(site: Tables, place: &[u8], so: Doors, door: usize) -> bool
    ensures { result ≡ grant_fits (plan_lent site.entry) site.entry.right.now place.now so.entry.phase.now so.entry.holder.now door }
{
    let person = entry_at(so.holder, door) as usize;
    !grants(entry_at(so.phase, door))
        || (entry_at(place, person) == entry_at(site.origin, door)
            && site.may_be(person, entry_at(site.destination, door) as usize))
}

// Every grant fits.
fn grants_fit(site: Tables, place: &[u8], so: Doors) -> bool
    ensures { result ≡ grants_fit (plan_lent site.entry) site.entry.right.now place.now so.entry.phase.now so.entry.holder.now }
{
    (0..site.doors).all(|door| grant_fits(site, place, so, door))
}

// Beyond the counts the tables hold 0, and so do location 0's own exit and rights.
fn tables_end(site: Tables) -> bool
    ensures { result ≡ zero_beyond (plan_lent site.entry) site.entry.right.now }
{
    zero_from(site.doors, site.origin)
        && zero_from(site.doors, site.destination)
        && zero_from(site.locations, site.exit)
        && entry_at(site.exit, 0) == 0
        && rights_fit(site.people, site.locations, site.right)
}

// Each door's fields fit, each grant fits, and no person has two grants.
fn doors_sound(site: Tables, place: &[u8], so: Doors) -> bool
    ensures { result ≡ doors_sound (plan_lent site.entry) site.entry.right.now place.now so.entry.phase.now so.entry.holder.now so.entry.count.now }
{
    doors_fit(site, so) && grants_fit(site, place, so) && sole_grants(site.doors, so)
}

// Are these lists those of a sound record? There is room for as many people as there are places.
pub fn lists_sound(site: Tables, place: &[u8], so: Doors) -> bool
    ensures { result ≡ lists_sound (plan_lent site.entry) site.entry.right.now place.now so.entry.phase.now so.entry.holder.now so.entry.count.now }
{
    site.is_lawful(place.len())
        && tables_end(site)
        && places_fit(site, place)
        && doors_sound(site, place, so)
}
