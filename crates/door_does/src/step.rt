// What each step that may be done does to its door.
ghost use Rattle.std.specs.Prelude.{◌≡◌};
ghost use Rattle.door_does.specs.Does.{burns, effect};

use crate::Does;
use door::Door;
use phases::answer::Reason;
use phases::phase::{Phase, Span};
use phases::table::Kind;

// `decide`: granted, or denied with the first reason that applies.
fn decided(now: Door, why: u8) -> Does
    ensures { result ≡ effect Kind.Decide 0 why now }
{
    if why == Reason::NONE {
        return Does::Turns(Door::new(Phase::GRANTED, now.holder, 0), Reason::NONE);
    }
    Does::Turns(Door::new(Phase::DENIED, 0, 0), why)
}

// A tick of a light that burns: its countdown falls, and on reaching 0 the phase becomes `out`.
fn burnt(now: Door, out: u8) -> Does
    ensures { result ≡ burns now out }
{
    if 1 < now.count {
        return Does::Turns(
            Door::new(now.phase, now.holder, now.count - 1),
            Reason::NONE,
        );
    }
    Does::Turns(Door::new(out, now.holder, 0), Reason::NONE)
}

// `tick`: a light burns down, and all else stays as it is.
fn ticked(now: Door) -> Does
    ensures { result ≡ effect Kind.Tick 0 0 now }
{
    match now.phase {
        Phase::GREEN => burnt(now, Phase::EXPIRED),
        Phase::RED => burnt(now, Phase::DIMMED),
        _ => Does::Stays,
    }
}

// A `match` and no table of functions: most of these deeds are values, and `effect` says them case by case.
// What a step that may be done does to a door that is so now: `person` is the person of a card,
// and `why` the reason to deny.
pub fn does(now: Door, kind: Kind, person: u16, why: u8) -> Does
    ensures { result ≡ effect kind person why now }
{
    let holder = now.holder;
    match kind {
        Kind::Card => Does::Turns(Door::new(Phase::READ, person, 0), Reason::NONE),
        Kind::Decide => decided(now, why),
        Kind::Green => Does::Turns(Door::new(Phase::GREEN, holder, Span::GREEN), Reason::NONE),
        Kind::Red => Does::Turns(Door::new(Phase::RED, holder, Span::RED), Reason::NONE),
        Kind::Walk => Does::Turns(Door::new(Phase::WALKED, holder, 0), Reason::NONE),
        Kind::Tick => ticked(now),
        Kind::Passed => Does::Moves(Door::new(Phase::CLOSED, 0, 0)),
        Kind::Lapsed => Does::Turns(Door::new(Phase::CLOSED, 0, 0), Reason::NONE),
        Kind::Dark => Does::Turns(Door::new(Phase::CLOSED, holder, 0), Reason::NONE),
        Kind::Ack => Does::Turns(Door::free(), Reason::NONE),
        Kind::Unknown => Does::Stays,
    }
}
