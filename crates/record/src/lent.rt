// The thin step for the panel: its own loop lends the one record and finds it altered, or as it was
// after a refusal. The work is that of the step by value, whose record is stored and the rest told.
ghost use Rattle.std.specs.Prelude.{◌≡◌};
ghost use Rattle.record.specs.Steps.{step_of, told_by};

use crate::record::Record;
use deeds::Told;
use phases::table::Kind;

impl Record {
    // A step of the record that is lent.
    pub fn step_lent(&mut self, kind: Kind, door: usize, person: usize) -> Told
        ensures next { self.new ≡ (step_of self.old kind door person).next }
        ensures told { result ≡ told_by (step_of self.old kind door person) }
    {
        let step = self.step(kind, door, person);
        *self = step.next;
        step.told()
    }
}
