// The rules of a site's tables, and the way out of a location.
//
// The tables are lent, never copied: `origin` and `destination` have an entry for each door, `exit`
// one for each location, `right` MOST_LOCATIONS for each person. Past the end of a table an entry
// is 0, and a right is not given. Location 0 is outside, and everybody's.
#![tactic(auto, using(tables::proofs::Ways::way_laws, tables::proofs::Chains::some_found), unfolding(tables::specs::Tables::and_also, tables::specs::Tables::or_else, tables::specs::Tables::may_be, tables::specs::Tests::door_in_range, tables::specs::Tests::exit_in_range, tables::specs::Tests::counts_fit, tables::specs::Tests::plan_in_range, tables::specs::Tests::lacks_exit, tables::specs::Tests::strays, tables::specs::Tests::lacks_right, tables::specs::Tests::first_no_right, tables::specs::Tests::lawful_b, tables::specs::Below::least_pair, tables::specs::Below::location_of, tables::specs::Below::with_location, tables::specs::Way::unvisited, tables::specs::Way::way_of, crate::specs::Marks::is_first))]

ghost use Rattle.std.specs.Prelude.{◌≡◌, ℕ, ◌+◌, ◌≤◌, List, false, length, get_or};
ghost use Rattle.std.proofs.lemmas.List.Edits.{sets};
ghost use Rattle.tables.specs.Tables.{plan, may_be, most_locations};
ghost use Rattle.tables.specs.Below.{all_below, some_below, least_below};
ghost use Rattle.tables.specs.Way.{unvisited, way_out, way_of, way_told_in, way_written_in};
ghost use Rattle.tables.specs.Tests.{door_in_range, exit_in_range, counts_fit, plan_in_range, lacks_exit, first_no_exit};
ghost use Rattle.tables.specs.Tests.{strays, first_stray, joins, first_no_door};
ghost use Rattle.tables.specs.Tests.{lacks_right, first_no_right, first_shut_out, lawful_b};
ghost use Rattle.rules.specs.Lent.{plan_lent};
ghost use Rattle.rules.specs.Marks.{is_first, has_no_first};

use findings::TooShort;
use lists::entry_at;
use tables::{MOST_DOORS, MOST_LOCATIONS};

// The tables of a site, lent: the counts, an origin and a destination for each door, an exit for each
// location, and MOST_LOCATIONS rights for each person.
#[derive(Clone, Copy)]
pub struct Tables<'a> {
    pub people: usize,
    pub locations: usize,
    pub doors: usize,
    pub origin: &'a [u8],
    pub destination: &'a [u8],
    pub exit: &'a [u8],
    pub right: &'a [bool],
}

// As many marks as a byte has values, so that every entry of a table has one.
const MOST_MARKS: usize = 256;

impl<'a> Tables<'a> {
    // Whether a person may be in a location.
    pub fn may_be(self, person: usize, location: usize) -> bool
        ensures { result ≡ may_be self.entry.right.now person location }
    {
        may_be(self.right, person, location)
    }

    // Rule 3: whether a door is from a location to another one.
    fn door_fits(self, door: usize) -> bool
        ensures { result ≡ door_in_range self.entry.locations self.entry.origin.now self.entry.destination.now door }
    {
        let from = entry_at(self.origin, door);
        let to = entry_at(self.destination, door);
        (from as usize) < self.locations && (to as usize) < self.locations && from != to
    }

    // Rule 3: whether every door fits.
    fn doors_fit(self) -> bool
        ensures { result ≡ all_below (door_in_range self.entry.locations self.entry.origin.now self.entry.destination.now) self.entry.doors }
    {
        (0..self.doors).all(|door| self.door_fits(door))
    }

    // Rule 3: whether an exit is a location.
    fn exit_fits(self, location: usize) -> bool
        ensures { result ≡ exit_in_range self.entry.locations self.entry.exit.now location }
    {
        (entry_at(self.exit, location) as usize) < self.locations
    }

    // Rule 3: whether every exit fits.
    fn exits_fit(self) -> bool
        ensures { result ≡ all_below (exit_in_range self.entry.locations self.entry.exit.now) self.entry.locations }
    {
        (0..self.locations).all(|location| self.exit_fits(location))
    }

    // Rule 3: whether the counts are in their ranges, where there is room for so many people. Comparisons, and no test of a range, with
    // which the test of soundness took a quarter more instructions.
    fn counts_fit(self, most: usize) -> bool
        ensures { result ≡ counts_fit most self.entry.people self.entry.locations self.entry.doors }
    {
        1 <= self.people
            && self.people <= most
            && 2 <= self.locations
            && self.locations <= MOST_LOCATIONS
            && self.doors <= MOST_DOORS
    }

    // Rule 3: whether the counts are in their ranges, where there is room for so many people, each door
    // is from a location to another one, and each exit is a location.
    pub fn in_range(self, most: usize) -> bool
        ensures { result ≡ plan_in_range most (plan_lent self.entry) }
    {
        self.counts_fit(most) && self.doors_fit() && self.exits_fit()
    }

    // The way out of a location, written into the front of the list that is lent for it, the rest of
    // the list unaltered. It is measured first: into a shorter list nothing is written.
    pub fn way_out(self, from: usize, list: &mut [u8]) -> Result<usize, TooShort>
        ensures way_told_in { result ≡ way_told_in (way_of self.entry.locations self.entry.exit.now from) list.old }
        ensures way_written_in { list.new ≡ way_written_in (way_of self.entry.locations self.entry.exit.now from) list.old }
    {
        let left = unvisited(self.locations);
        let steps = way_length(left, self.exit, from);
        if list.len() < steps {
            return Err(TooShort);
        }
        write_way(left, self.exit, from, list, 0);
        Ok(steps)
    }

    // Rule 7: whether the exits from a location never reach 0. With a step more than there are
    // locations unvisited, such a way takes them all.
    fn strays(self, location: usize) -> bool
        ensures { result ≡ strays self.entry.locations self.entry.exit.now location }
    {
        let left = unvisited(self.locations);
        left < way_length(left + 1, self.exit, location)
    }

    // Rule 7: the smallest location from which exits never reach 0.
    pub fn first_stray(self) -> Option<usize>
        ensures { result ≡ first_stray self.entry.locations self.entry.exit.now }
    {
        (0..self.locations).find(|location| self.strays(*location))
    }

    // Rule 8: marks each location that has a door to its exit. A `for`, since it marks and doesn't answer.
    fn mark_led(self) -> [bool; MOST_MARKS]
        ensures { (l : ℕ) → get_or result l false ≡ some_below (joins self.entry.origin.now self.entry.destination.now l (get_or self.entry.exit.now l 0)) self.entry.doors }
    {
        let mut led = [false; MOST_MARKS];
        for door in 0..self.doors {
            let from = entry_at(self.origin, door) as usize;
            let to = entry_at(self.destination, door);
            if entry_at(self.exit, from) == to {
                led[from] = true;
            }
        }
        led
    }

    // Rule 8: the smallest location that has no door to its exit: the doors are walked once, and the
    // locations are looked through as for rule 6.
    pub fn first_no_door(self) -> Option<usize>
        ensures told { result ≡ first_no_door (plan_lent self.entry) }
        ensures whatever_else { (people : ℕ) → result ≡ first_no_door (plan people self.entry.locations self.entry.doors self.entry.origin.now self.entry.destination.now self.entry.exit.now) }
    {
        first_no_exit(self.locations, &self.mark_led())
    }

    // Rule 9: whether a person has a right to a location other than 0, but not to its exit.
    fn lacks_right(self, person: usize, location: usize) -> bool
        ensures { result ≡ lacks_right self.entry.exit.now self.entry.right.now person location }
    {
        location != 0
            && self.may_be(person, location)
            && !self.may_be(person, entry_at(self.exit, location) as usize)
    }

    // Rule 9: the smallest location to whose exit a person lacks the right. Location 0 has no exit, and needs no look.
    fn first_lacking(self, person: usize) -> Option<usize>
        ensures { result ≡ least_below (lacks_right self.entry.exit.now self.entry.right.now person) self.entry.locations }
    {
        (1..self.locations).find(|location| self.lacks_right(person, *location))
    }

    // Rule 9: whether a person lacks a right to the exit of some location.
    fn lacks_some(self, person: usize) -> bool
        ensures { result ≡ some_below (lacks_right self.entry.exit.now self.entry.right.now person) self.entry.locations }
    {
        self.first_lacking(person).is_some()
    }

    // Rule 9: the smallest person who lacks a right to the exit of some location.
    fn first_who_lacks(self) -> Option<usize>
        ensures { result ≡ least_below (λ (p : ℕ). some_below (lacks_right self.entry.exit.now self.entry.right.now p) self.entry.locations) self.entry.people }
    {
        (0..self.people).find(|person| self.lacks_some(*person))
    }

    // Rule 9: the smallest person with a right to a location but not to its exit, then the location. Inline, since in the test of soundness
    // the lists' lengths are known, and each look at a right is then cheaper.
    #[inline]
    pub fn first_no_right(self) -> Option<(usize, usize)>
        ensures told { result ≡ first_no_right (plan_lent self.entry) self.entry.right.now }
        ensures whatever_else { (doors : ℕ) (origin destination : List ℕ) → result ≡ first_no_right (plan self.entry.people self.entry.locations doors origin destination self.entry.exit.now) self.entry.right.now }
    {
        let person = self.first_who_lacks()?;
        let location = self.first_lacking(person)?;
        Some((person, location))
    }

    // Rule 10: marks each location to which a door leads from outside. A `for`, as for rule 8.
    fn mark_first(self) -> [bool; MOST_MARKS]
        ensures { (l : ℕ) → get_or result l false ≡ some_below (joins self.entry.origin.now self.entry.destination.now 0 l) self.entry.doors }
    {
        let mut first = [false; MOST_MARKS];
        for door in 0..self.doors {
            let from_outside = entry_at(self.origin, door) == 0;
            if from_outside {
                first[entry_at(self.destination, door) as usize] = true;
            }
        }
        first
    }

    // Whether a location is a first one of a person. `first` marks those to which a door leads from outside.
    fn is_first(self, first: &[bool], person: usize, location: usize) -> bool
        ensures { result ≡ is_first first.now self.entry.right.now person location }
    {
        entry_at(first, location) && self.may_be(person, location)
    }

    // Rule 10: whether a person has none of the marked locations for a first one.
    fn is_shut_out(self, first: &[bool], person: usize) -> bool
        ensures { result ≡ has_no_first first.now self.entry.right.now person }
    {
        !(0..MOST_LOCATIONS).any(|location| self.is_first(first, person, location))
    }

    // Rule 10: the smallest person who has no first location from outside.
    pub fn first_shut_out(self) -> Option<usize>
        ensures told { result ≡ first_shut_out (plan_lent self.entry) self.entry.right.now }
        ensures whatever_else { (locations : ℕ) (exit : List ℕ) → result ≡ first_shut_out (plan self.entry.people locations self.entry.doors self.entry.origin.now self.entry.destination.now exit) self.entry.right.now }
    {
        let first = self.mark_first();
        (0..self.people).find(|person| self.is_shut_out(&first, *person))
    }

    // Whether the tables of a record with room for so many people pass 3 and 7 to 10, each finished
    // before the next. (In a record every location has an exit, so that 6 asks nothing.)
    pub fn is_lawful(self, most: usize) -> bool
        ensures { result ≡ lawful_b most (plan_lent self.entry) self.entry.right.now }
    {
        self.in_range(most)
            && self.first_stray().is_none()
            && self.first_no_door().is_none()
            && self.first_no_right().is_none()
            && self.first_shut_out().is_none()
    }
}

// Whether a person may be in a location.
pub fn may_be(right: &[bool], person: usize, location: usize) -> bool
    ensures { result ≡ may_be right.now person location }
{
    location == 0
        || (location < MOST_LOCATIONS
            && person <= right.len() / MOST_LOCATIONS
            && entry_at(right, person * MOST_LOCATIONS + location))
}

// Rule 6: whether a location other than 0 has no exit. `given` marks those whose exit has come.
fn lacks_exit(given: &[bool], location: usize) -> bool
    ensures { result ≡ lacks_exit given.now location }
{
    location != 0 && !entry_at(given, location)
}

// Rule 6: the smallest location that has no exit. Location 0 needs none.
pub fn first_no_exit(locations: usize, given: &[bool]) -> Option<usize>
    ensures { result ≡ first_no_exit locations given.now }
{
    (1..locations).find(|location| lacks_exit(given, *location))
}

// The locations still unvisited when one stands in one of them.
fn unvisited(locations: usize) -> usize
    ensures { result ≡ unvisited locations }
{
    locations.min(MOST_LOCATIONS).saturating_sub(1)
}

// The length of the way out of a location: its exit and the way out of that, nothing for location 0.
// It stays a recursion, since the way out is defined as one.
fn way_length(left: usize, exit: &[u8], from: usize) -> usize
    ensures { result ≡ length (way_out left exit.now from) }
{
    if left == 0 || from == 0 {
        return 0;
    }
    way_length(left - 1, exit, entry_at(exit, from) as usize) + 1
}

// Writes the way out of a location into a list, from a place on.
// It stays a recursion, since the way out is defined as one.
fn write_way<'a>(left: usize, exit: &'a [u8], from: usize, list: &'a mut [u8], at: usize)
    requires { at + length (way_out left exit.now from) ≤ length list.old }
    ensures { list.new ≡ sets list.old at (way_out left exit.now from) }
{
    if left == 0 || from == 0 {
        return;
    }
    let next = entry_at(exit, from);
    list[at] = next;
    write_way(left - 1, exit, next as usize, list, at + 1);
}
