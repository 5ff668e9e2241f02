// Which door holds a grant of a person, why a person is denied a door, and which door is told with the reason.
#![tactic(auto, using(std::proofs::lemmas::Bool::Decides::nat_tests), unfolding(tables::specs::Tables::and_also, crate::specs::Grants::grants_to, crate::specs::Grants::has_grant, crate::specs::Reasons::first_reason, crate::specs::Reasons::held_with))]

ghost use Rattle.std.specs.Prelude.{◌≡◌, List, ℕ};
ghost use Rattle.tables.specs.Tables.{plan};
ghost use Rattle.rules.specs.Lent.{plan_lent};
ghost use Rattle.granting.specs.Grants.{grants_to, grant_of, has_grant};
ghost use Rattle.granting.specs.Reasons.{first_reason, held_with};

use door::Doors;
use door_fits::grants;
use lists::entry_at;
use phases::answer::Reason;
use rules::Tables;

// Does this door hold a grant of this person?
fn grants_to(so: Doors, person: usize, door: usize) -> bool
    ensures { result ≡ grants_to so.entry.phase.now so.entry.holder.now person door }
{
    grants(entry_at(so.phase, door)) && entry_at(so.holder, door) as usize == person
}

// The first of so many doors that holds a grant of this person.
pub fn grant_of(doors: usize, so: Doors, person: usize) -> Option<usize>
    ensures { result ≡ grant_of doors so.entry.phase.now so.entry.holder.now person }
{
    (0..doors).find(|door| grants_to(so, person, *door))
}

// Does any of so many doors hold a grant of this person?
fn has_grant(doors: usize, so: Doors, person: usize) -> bool
    ensures { result ≡ has_grant doors so.entry.phase.now so.entry.holder.now person }
{
    grant_of(doors, so, person).is_some()
}

// The first reason to deny this person this door, by the tables, the places and the doors, which are three lists of a record.
pub fn first_reason(site: Tables, place: &[u8], so: Doors, door: usize, person: usize) -> u8
    ensures told { result ≡ first_reason (plan_lent site.entry) site.entry.right.now place.now so.entry.phase.now so.entry.holder.now door person }
    ensures whatever_else { (people locations : ℕ) (exit : List ℕ) → result ≡ first_reason (plan people locations site.entry.doors site.entry.origin.now site.entry.destination.now exit) site.entry.right.now place.now so.entry.phase.now so.entry.holder.now door person }
{
    if entry_at(place, person) != entry_at(site.origin, door) {
        return Reason::NOT_THERE;
    }
    if !rules::may_be(
        site.right,
        person,
        entry_at(site.destination, door) as usize,
    ) {
        return Reason::NO_RIGHT;
    }
    if has_grant(site.doors, so, person) {
        return Reason::HAS_GRANT;
    }
    Reason::NONE
}

// The door that is told with a reason: with reason 3 the first door that holds a grant of the person, 0 where none does; with any other
// reason 0.
pub fn held_with(reason: u8, doors: usize, so: Doors, person: usize) -> usize
    ensures { result ≡ held_with reason doors so.entry.phase.now so.entry.holder.now person }
{
    if reason != Reason::HAS_GRANT {
        return 0;
    }
    grant_of(doors, so, person).unwrap_or(0)
}
