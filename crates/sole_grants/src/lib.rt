// Whether no person has two grants: the doors are walked once, and each person met with a grant is marked.
//
// A walk has marks for as many people as a record has room for, from some person on: in a record whose doors fit one walk is enough. A
// person beyond the marks can't be marked. Where a grant is of such a person, the walk tells so, and another has its marks for the next
// people.
#![tactic(auto)]

ghost use Rattle.std.specs.Prelude.{◌≤◌, ◌≡◌, false, replicate};
ghost use Rattle.tables.specs.Tables.{most_people};
ghost use Rattle.sole_grants.specs.Sole.{sole_grants};
ghost use Rattle.sole_grants.specs.Marks.{is_marked, with_mark, most_holder, WalkTells};

use door::Doors;
use door_fits::grants;
use lists::{entry_at, put_entry};
use tables::MOST_PEOPLE;

// What a walk tells of the people that it has marks for.
#[derive(Clone, Copy)]
enum Walked {
    // One of them has two grants.
    Twice,
    // None of them has two, and no grant is of a person beyond them.
    Sole,
    // None of them has two, and some grant is of a person beyond them.
    Beyond,
}

// The marks before anybody is met.
fn no_marks() -> [bool; MOST_PEOPLE]
    ensures { result ≡ replicate most_people false }
{
    [false; MOST_PEOPLE]
}

// Was this person marked before? Now they are, if they have a mark.
#[tactic(auto, using(std::proofs::lemmas::Bool::Decides::nat_tests), unfolding(tables::specs::Tables::and_also, crate::specs::Marks::is_marked, crate::specs::Marks::with_mark))]
fn met_before(met: &mut [bool], from: usize, person: usize) -> bool
    ensures is_marked { result ≡ is_marked met.old from person }
    ensures with_mark { met.new ≡ with_mark met.old from person }
{
    if person < from {
        return false;
    }
    let before = entry_at(met, person - from);
    put_entry(met, person - from, true);
    before
}

// One walk over the doors, with marks for the people from this one on. By the index, which looks into two lists.
fn walk_doors(from: usize, doors: usize, so: Doors) -> Walked
    requires { from ≤ most_holder }
    ensures { WalkTells from doors so.entry.phase.now so.entry.holder.now result }
{
    let mut met = no_marks();
    let mut told = Walked::Sole;
    for door in 0..doors {
        if grants(entry_at(so.phase, door)) {
            let person = entry_at(so.holder, door) as usize;
            if met_before(&mut met, from, person) {
                return Walked::Twice;
            }
            if from + MOST_PEOPLE <= person {
                told = Walked::Beyond;
            }
        }
    }
    told
}

// Whether of no person two of so many doors hold a grant. A `loop`, since each walk tells whether another is needed.
pub fn sole_grants(doors: usize, so: Doors) -> bool
    ensures { result ≡ sole_grants doors so.entry.phase.now so.entry.holder.now }
{
    let mut from = 0;
    loop {
        match walk_doors(from, doors, so) {
            Walked::Twice => return false,
            Walked::Sole => return true,
            Walked::Beyond => from += MOST_PEOPLE,
        }
    }
}
