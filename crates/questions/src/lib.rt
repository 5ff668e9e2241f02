// The three questions: where is a person, which door is granted to a person, and the way out of a
// location. Each answers 14, then 11, then 13.
#![tactic(auto)]

ghost use Rattle.std.specs.Prelude.{◌≡◌, cond, length, get_or, ltb, None, Ok, Err};
ghost use Rattle.tables.specs.Way.{way_of};
ghost use Rattle.findings.specs.Told.{place_no, place_told, grant_no, grant_told, way_no, length_told};
ghost use Rattle.findings.specs.declared.Refused.TheVariants.{NoSuch, Unsound};
ghost use Rattle.granting.specs.Grants.{grant_of};
ghost use Rattle.record.specs.SoundTest.{sound_b};
ghost use Rattle.record.specs.Questions.{asked_no, unless_refused, place_of, granted_to, way_answer_of, way_written, way_asked_no};

use findings::{Refused, WayRefused};
use granting::grant_of;
use lists::entry_at;
use record::Record;

// Whether a record can be asked about this one of so many people or locations.
fn asked(held: &Record, count: usize, one: usize) -> Result<(), Refused>
    ensures { result ≡ cond (sound_b held.now) (cond (ltb one count) (Ok tt) (Err NoSuch)) (Err Unsound) }
{
    if !held.is_sound() {
        return Err(Refused::Unsound);
    }
    if count <= one {
        return Err(Refused::NoSuch);
    }
    Ok(())
}

// Where is this person?
pub fn place_of(held: Record, person: usize) -> Result<u8, Refused>
    ensures answer { result ≡ place_of held person }
    ensures number { place_no result ≡ asked_no held (ltb person held.people) }
    ensures place { place_told result ≡ unless_refused (place_no result) (get_or held.place person 0) 0 }
{
    asked(&held, held.people, person)?;
    Ok(entry_at(&held.place, person))
}

// Which door is granted to this person?
pub fn granted_to(held: Record, person: usize) -> Result<Option<usize>, Refused>
    ensures answer { result ≡ granted_to held person }
    ensures number { grant_no result ≡ asked_no held (ltb person held.people) }
    ensures door { grant_told result ≡ unless_refused (grant_no result) (grant_of held.doors held.phase held.holder person) None }
{
    asked(&held, held.people, person)?;
    Ok(grant_of(held.doors, held.door_lists(), person))
}

// The way out of this location, written into the front of the list.
pub fn way_out(held: Record, location: usize, list: &mut [u8]) -> Result<usize, WayRefused>
    ensures answer { result ≡ way_answer_of held location list.old }
    ensures number { way_no result ≡ way_asked_no held location list.old }
    ensures length { length_told result ≡ unless_refused (way_no result) (length (way_of held.locations held.exit location)) 0 }
    ensures written { list.new ≡ way_written held location list.old }
{
    asked(&held, held.locations, location)?;
    Ok(held.tables().way_out(location, list)?)
}
