// One door: what is kept of it, and the lists that keep it. Whether its fields fit its phase stands in the crate `door_fits`, and
// what a step does to it in the crate `door_does`.
#![tactic(auto)]

ghost use Rattle.std.specs.Prelude.{◌≡◌};
ghost use Rattle.door.specs.Door.{door, free_door, door_in};

use lists::entry_at;
use phases::phase::Phase;

// What the record keeps of one door.
#[derive(Clone, Copy, PartialEq, Eq)]
pub struct Door {
    pub phase: u8,
    pub holder: u16,
    pub count: u16,
}

impl Door {
    // A door in this phase, with this person and this countdown.
    pub fn new(phase: u8, holder: u16, count: u16) -> Self
        ensures { result ≡ door phase holder count }
    {
        Door {
            phase,
            holder,
            count,
        }
    }

    // A door at which nobody has shown a card.
    pub fn free() -> Self
        ensures { result ≡ free_door }
    {
        Door::new(Phase::FREE, 0, 0)
    }
}

// What the record keeps of its doors, as lent lists: of each door a phase, a person and a countdown.
#[derive(Clone, Copy)]
pub struct Doors<'a> {
    pub phase: &'a [u8],
    pub holder: &'a [u16],
    pub count: &'a [u16],
}

impl<'a> Doors<'a> {
    // What these lists keep of a door.
    pub fn at(self, door: usize) -> Door
        ensures { result ≡ door_in self.entry.phase.now self.entry.holder.now self.entry.count.now door }
    {
        Door::new(
            entry_at(self.phase, door),
            entry_at(self.holder, door),
            entry_at(self.count, door),
        )
    }
}
