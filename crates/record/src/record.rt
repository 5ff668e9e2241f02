// The record: the tables of a site, where each person is, and the phase, the person and the
// countdown of each door; and whether it is sound.
ghost use Rattle.std.specs.Prelude.{◌≡◌};
ghost use Rattle.tables.specs.Tables.{plan};
ghost use Rattle.rules.specs.Lent.{plan_lent};
ghost use Rattle.record.specs.Doors.{fresh_record, plan_of};
ghost use Rattle.record.specs.SoundTest.{sound_b};
ghost use Rattle.record.specs.Deeds.{holding};

use deeds::Moving;
use door::{Door, Doors};
use rules::Tables;
use soundness::lists_sound;
use tables::{MOST_DOORS, MOST_LOCATIONS, MOST_PEOPLE, MOST_RIGHTS};

// The tables: the counts, each door's origin and destination, each location's exit, and the rights,
// MOST_LOCATIONS to a person. Beside them: the location of each person, and for each door its phase,
// the person whom it holds and its countdown.
#[repr(C)]
#[derive(Clone, Copy)]
pub struct Record {
    pub people: usize,
    pub locations: usize,
    pub doors: usize,
    pub origin: [u8; MOST_DOORS],
    pub destination: [u8; MOST_DOORS],
    pub exit: [u8; MOST_LOCATIONS],
    pub right: [bool; MOST_RIGHTS],
    pub place: [u8; MOST_PEOPLE],
    pub phase: [u8; MOST_DOORS],
    pub holder: [u16; MOST_DOORS],
    pub count: [u16; MOST_DOORS],
}

impl Record {
    // The record of these tables with everyone outside and every door free.
    // Its lists come by value and not as `Tables`: a list that is lent may have another length.
    #[tactic(auto, unfolding(tables::specs::Zero::zeros))]
    pub fn fresh(
        people: usize,
        locations: usize,
        doors: usize,
        origin: [u8; MOST_DOORS],
        destination: [u8; MOST_DOORS],
        exit: [u8; MOST_LOCATIONS],
        right: [bool; MOST_RIGHTS],
    ) -> Self
        ensures { result ≡ fresh_record (plan people locations doors origin destination exit) right }
    {
        let free = Door::free();
        Record {
            people,
            locations,
            doors,
            origin,
            destination,
            exit,
            right,
            place: [0; MOST_PEOPLE],
            phase: [free.phase; MOST_DOORS],
            holder: [free.holder; MOST_DOORS],
            count: [free.count; MOST_DOORS],
        }
    }

    // The tables of this record, lent.
    pub fn tables(&self) -> Tables<'_>
        ensures plan { plan_lent result ≡ plan_of self.now }
        ensures rights { result.right.now ≡ self.now.right }
    {
        Tables {
            people: self.people,
            locations: self.locations,
            doors: self.doors,
            origin: &self.origin,
            destination: &self.destination,
            exit: &self.exit,
            right: &self.right,
        }
    }

    // What this record keeps of the doors, lent.
    // As `Moving` has it: two lines, whose fields are those of another struct.
    pub fn door_lists(&self) -> Doors<'_>
        ensures phases { result.phase.now ≡ self.now.phase }
        ensures holders { result.holder.now ≡ self.now.holder }
        ensures counts { result.count.now ≡ self.now.count }
    {
        Doors {
            phase: &self.phase,
            holder: &self.holder,
            count: &self.count,
        }
    }

    // The lists of this record that steps alter.
    pub fn moving(&self) -> Moving
        ensures places { result.place ≡ self.now.place }
        ensures phases { result.phase ≡ self.now.phase }
        ensures holders { result.holder ≡ self.now.holder }
        ensures counts { result.count ≡ self.now.count }
    {
        Moving {
            place: self.place,
            phase: self.phase,
            holder: self.holder,
            count: self.count,
        }
    }

    // Takes these lists for those that steps alter.
    pub fn hold(&mut self, moving: &Moving)
        ensures { self.new ≡ holding self.old moving.now.place moving.now.phase moving.now.holder moving.now.count }
    {
        self.place = moving.place;
        self.phase = moving.phase;
        self.holder = moving.holder;
        self.count = moving.count;
    }

    // Is this record sound?
    #[tactic(auto, unfolding(crate::specs::SoundTest::sound_b))]
    pub fn is_sound(self) -> bool
        ensures { result ≡ sound_b self }
    {
        lists_sound(self.tables(), &self.place, self.door_lists())
    }
}
