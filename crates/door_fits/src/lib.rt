// What a phase decides of its door: whether the door keeps a person, whether it holds a grant, and whether its fields fit.
#![tactic(auto, using(std::proofs::lemmas::Bool::Decides::nat_tests), unfolding(tables::specs::Tables::and_also, tables::specs::Tables::or_else, phases::specs::Phase::keeps, phases::specs::Phase::grants, phases::specs::Phase::lit, phases::specs::Phase::least_count, phases::specs::Phase::most_count, crate::specs::Fits::holder_fits, crate::specs::Fits::fields_fit))]

ghost use Rattle.std.specs.Prelude.{◌≡◌};
ghost use Rattle.phases.specs.Phase.{keeps, grants};
ghost use Rattle.door_fits.specs.Fits.{holder_fits, count_fits, fields_fit};

use door::Door;
use phases::phase::{Phase, Span};

// Does a door in this phase keep a person?
fn keeps(phase: u8) -> bool
    ensures { result ≡ keeps phase }
{
    matches!(phase, Phase::READ..=Phase::EXPIRED)
}

// Does a door in this phase hold a grant?
pub fn grants(phase: u8) -> bool
    ensures { result ≡ grants phase }
{
    matches!(phase, Phase::GRANTED..=Phase::EXPIRED)
}

// A phase that keeps a person has one who exists, and every other phase has 0.
fn holder_fits(people: usize, phase: u8, holder: usize) -> bool
    ensures { result ≡ holder_fits people phase holder }
{
    if keeps(phase) {
        holder < people
    } else {
        holder == 0
    }
}

// A light that burns has a countdown of 1 to its span, and every other phase has 0.
fn count_fits(phase: u8, count: u16) -> bool
    ensures { result ≡ count_fits phase count }
{
    match phase {
        Phase::GREEN => matches!(count, 1..=Span::GREEN),
        Phase::RED => matches!(count, 1..=Span::RED),
        _ => count == 0,
    }
}

// Do the fields of a door that is so fit its phase, where there are so many people?
pub fn fits(so: Door, people: usize) -> bool
    ensures { result ≡ fields_fit people so }
{
    so.phase <= Phase::CLOSED
        && holder_fits(people, so.phase, so.holder as usize)
        && count_fits(so.phase, so.count)
}
