// A step of a record that is lent for it: whoever holds the one record lends it to the thin step, and
// finds it altered, or as it was after a refusal.
#![tactic(auto)]

ghost use Rattle.std.specs.Prelude.{◌≡◌};
ghost use Rattle.record.specs.Steps.{step_of};

use phases::table::Kind;
use record::record::Record;
use record::steps::Step;

// A step by lending the record: the record as it is found afterwards, and what was told.
pub fn lend(mut start: Record, kind: Kind, door: usize, person: usize) -> Step
    ensures { result ≡ step_of start kind door person }
{
    let told = start.step_lent(kind, door, person);
    Step::telling(start, told)
}
