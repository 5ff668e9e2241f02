// What a step does and tells, judged on lent lists and carried out on them. The lists are those of a
// record, of which nothing else is needed here; any list of any length is judged.
#![tactic(auto)]

ghost use Rattle.std.specs.Prelude.{◌≡◌, ◌^◌, ◌<◌, List, ℕ, set};
ghost use Rattle.tables.specs.Tables.{plan};
ghost use Rattle.rules.specs.Lent.{plan_lent};
ghost use Rattle.granting.specs.Reasons.{first_reason};
ghost use Rattle.deeds.specs.Deeds.{exist_among, deed_of, judged_of};
ghost use Rattle.deeds.specs.Deeds.{told_of, places_after, phases_after, holders_after, counts_after};

use door::{Door, Doors};
use door_does::Does;
use door_does::step::does;
use granting::{first_reason, held_with};
use lists::{entry_at, put_entry};
use phases::answer::{Answer, Reason};
use phases::table::Kind;
use rules::Tables;
use tables::{MOST_DOORS, MOST_PEOPLE};

// The phase that is told where there is no door to tell it of.
pub const UNTOLD: u8 = 0;

// What a step tells. Its four fields are always there: numbers that the papers have for none stand in them, and no `Option`, since
// `told_of` and the rows of a run say these numbers.
#[repr(C)]
#[derive(Clone, Copy)]
pub struct Told {
    pub answer: Answer,
    pub phase: u8,
    pub reason: u8,
    pub held: usize,
}

impl Told {
    // This answer and this phase, with no reason.
    fn with_no_reason(answer: Answer, phase: u8) -> Self
        ensures { result ≡ told_of (Deed.Tells answer phase) }
    {
        Told {
            answer,
            phase,
            reason: Reason::NONE,
            held: 0,
        }
    }
}

// What is done at a door.
#[derive(Clone, Copy)]
pub enum Deed {
    // nothing; this answer and this phase are told
    Tells(Answer, u8),
    // the door becomes so, and this reason is told, with this held door
    Puts(Door, u8, usize),
    // the door becomes so, and this person is in this location
    Leads(Door, usize, u8),
}

// Do the door and, of a card, the person exist?
#[tactic(auto, using(std::proofs::lemmas::Bool::Decides::nat_tests, phases::proofs::Steps::others_name_none), unfolding(tables::specs::Tables::and_also, tables::specs::Tables::or_else, crate::specs::Deeds::exist_among))]
fn exist(site: Tables, kind: Kind, door: usize, person: usize) -> bool
    ensures { result ≡ exist_among site.entry.people site.entry.doors kind door person }
{
    door < site.doors && (kind != Kind::Card || person < site.people)
}

// The reason to deny this person this door, which only `decide` asks for.
fn reason_for(kind: Kind, site: Tables, place: &[u8], so: Doors, door: usize, person: usize) -> u8
    ensures { kind ≡ Kind.Decide → result ≡ first_reason (plan_lent site.entry) site.entry.right.now place.now so.entry.phase.now so.entry.holder.now door person }
{
    match kind {
        Kind::Decide => first_reason(site, place, so, door, person),
        _ => Reason::NONE,
    }
}

// The deed that a step does at a door that is so now and leads to this location, among so many doors.
fn deed_of(does: Does, now: Door, to: u8, doors: usize, so: Doors) -> Deed
    ensures { result ≡ deed_of does now.phase now.holder to doors so.entry.phase.now so.entry.holder.now }
{
    let person = now.holder as usize;
    match does {
        Does::Stays => Deed::Tells(Answer::Done, now.phase),
        Does::Turns(next, reason) => {
            Deed::Puts(next, reason, held_with(reason, doors, so, person))
        }
        Does::Moves(next) => Deed::Leads(next, person, to),
    }
}

// The tables and the doors go in one piece each, the places beside them: of a run the doors and places move, the tables don't.
// A step's deed: 14 where there is no room for so many people, then 11, then 12, then the step's own
// work.
#[tactic(auto, using(std::proofs::lemmas::Bool::Decides::nat_tests), unfolding(crate::specs::Deeds::judged_of))]
pub fn judge(site: Tables, place: &[u8], so: Doors, kind: Kind, door: usize, person: usize) -> Deed
    ensures told { result ≡ judged_of (plan_lent site.entry) site.entry.right.now place.now so.entry.phase.now so.entry.holder.now so.entry.count.now kind door person }
    ensures whatever_else { (locations : ℕ) (exit : List ℕ) → result ≡ judged_of (plan site.entry.people locations site.entry.doors site.entry.origin.now site.entry.destination.now exit) site.entry.right.now place.now so.entry.phase.now so.entry.holder.now so.entry.count.now kind door person }
{
    if MOST_PEOPLE < site.people {
        return Deed::Tells(Answer::Unsound, UNTOLD);
    }
    if !exist(site, kind, door, person) {
        return Deed::Tells(Answer::NoSuch, UNTOLD);
    }
    let now = so.at(door);
    if !kind.allowed_in(now.phase) {
        return Deed::Tells(Answer::NotAllowed, now.phase);
    }
    let named = u16::try_from(person).unwrap_or(0);
    let why = reason_for(kind, site, place, so, door, now.holder as usize);
    let done = does(now, kind, named, why);
    deed_of(done, now, entry_at(site.destination, door), site.doors, so)
}

// The lists that steps alter: where each person is, and of each door its phase, its person and its countdown.
#[derive(Clone, Copy)]
pub struct Moving {
    pub place: [u8; MOST_PEOPLE],
    pub phase: [u8; MOST_DOORS],
    pub holder: [u16; MOST_DOORS],
    pub count: [u16; MOST_DOORS],
}

impl Moving {
    // What these lists keep of the doors, lent.
    pub fn door_lists(&self) -> Doors<'_>
        ensures phases { result.phase.now ≡ self.now.phase }
        ensures holders { result.holder.now ≡ self.now.holder }
        ensures counts { result.count.now ≡ self.now.count }
    {
        Doors {
            phase: &self.phase,
            holder: &self.holder,
            count: &self.count,
        }
    }

    // The lists with this door so.
    fn put_door(&mut self, door: usize, so: Door)
        ensures places { self.new.place ≡ self.old.place }
        ensures phases { self.new.phase ≡ set self.old.phase door so.phase }
        ensures holders { self.new.holder ≡ set self.old.holder door so.holder }
        ensures counts { self.new.count ≡ set self.old.count door so.count }
    {
        put_entry(&mut self.phase, door, so.phase);
        put_entry(&mut self.holder, door, so.holder);
        put_entry(&mut self.count, door, so.count);
    }

    // Carries a deed out: the lists hold what they hold after the step.
    pub fn carry_out(&mut self, deed: Deed, door: usize) -> Told
        ensures told { result ≡ told_of deed }
        ensures places { self.new.place ≡ places_after deed self.old.place }
        ensures phases { self.new.phase ≡ phases_after deed door self.old.phase }
        ensures holders { self.new.holder ≡ holders_after deed door self.old.holder }
        ensures counts { self.new.count ≡ counts_after deed door self.old.count }
    {
        match deed {
            Deed::Tells(answer, phase) => Told::with_no_reason(answer, phase),
            Deed::Puts(so, reason, held) => {
                self.put_door(door, so);
                Told {
                    answer: Answer::Done,
                    phase: so.phase,
                    reason,
                    held,
                }
            }
            Deed::Leads(so, person, to) => {
                put_entry(&mut self.place, person, to);
                self.put_door(door, so);
                Told::with_no_reason(Answer::Done, so.phase)
            }
        }
    }
}
