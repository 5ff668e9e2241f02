// The ten steps, by value: each takes a record and hands the next record back with its answer, the
// door's phase afterwards, the reason and the door that is told with it.
ghost use Rattle.std.specs.Prelude.{◌≡◌};
ghost use Rattle.phases.specs.Kinds.{kind_of};
ghost use Rattle.record.specs.Steps.{refused, step_of, told_by};
ghost use Rattle.record.specs.Deeds.{telling};

use crate::record::Record;
use deeds::{Told, UNTOLD, judge};
use phases::answer::{Answer, Reason};
use phases::table::Kind;

// What a step hands back. The fields of `Told` stand here again, since the theorems of the steps name them as fields of a step.
#[derive(Drop)]
pub struct Step {
    pub next: Record,
    pub answer: Answer,
    pub phase: u8,
    pub reason: u8,
    pub held: usize,
}

impl Step {
    // The step that hands this record back and tells this.
    pub fn telling(next: Record, told: Told) -> Self
        ensures { result ≡ telling next told }
    {
        Step {
            next,
            answer: told.answer,
            phase: told.phase,
            reason: told.reason,
            held: told.held,
        }
    }

    // What is told beside the record.
    pub fn told(&self) -> Told
        ensures { result ≡ told_by self.now }
    {
        Told {
            answer: self.answer,
            phase: self.phase,
            reason: self.reason,
            held: self.held,
        }
    }
}

impl Record {
    // A refusal: the same record.
    fn refused(self, answer: Answer, phase: u8) -> Step
        ensures { result ≡ refused self answer phase }
    {
        Step {
            next: self,
            answer,
            phase,
            reason: Reason::NONE,
            held: 0,
        }
    }

    // A step: 14, then as it is judged and carried out.
    #[tactic(auto, unfolding(crate::specs::Steps::step_of))]
    pub fn step(mut self, kind: Kind, door: usize, person: usize) -> Step
        ensures { result ≡ step_of self kind door person }
    {
        if !self.is_sound() {
            return self.refused(Answer::Unsound, UNTOLD);
        }
        let mut moving = self.moving();
        let deed = judge(
            self.tables(),
            &moving.place,
            moving.door_lists(),
            kind,
            door,
            person,
        );
        let told = moving.carry_out(deed, door);
        self.hold(&moving);
        Step::telling(self, told)
    }

    // A step by its number.
    pub fn step_numbered(self, number: u8, door: usize, person: usize) -> Step
        ensures { result ≡ step_of self (kind_of number) door person }
    {
        self.step(Kind::from(number), door, person)
    }

    // A card is shown: the door holds the person.
    pub fn card(self, door: usize, person: usize) -> Step
        ensures { result ≡ step_of self Kind.Card door person }
    {
        self.step(Kind::Card, door, person)
    }

    // The card is granted or denied.
    pub fn decide(self, door: usize) -> Step
        ensures { result ≡ step_of self Kind.Decide door 0 }
    {
        self.step(Kind::Decide, door, 0)
    }

    // The green light is ordered.
    pub fn green(self, door: usize) -> Step
        ensures { result ≡ step_of self Kind.Green door 0 }
    {
        self.step(Kind::Green, door, 0)
    }

    // The red light is ordered.
    pub fn red(self, door: usize) -> Step
        ensures { result ≡ step_of self Kind.Red door 0 }
    {
        self.step(Kind::Red, door, 0)
    }

    // The person walks through.
    pub fn walk(self, door: usize) -> Step
        ensures { result ≡ step_of self Kind.Walk door 0 }
    {
        self.step(Kind::Walk, door, 0)
    }

    // A tenth of a second of this door's own clock.
    pub fn tick(self, door: usize) -> Step
        ensures { result ≡ step_of self Kind.Tick door 0 }
    {
        self.step(Kind::Tick, door, 0)
    }

    // The passage is recorded: the person is in the destination.
    pub fn passed(self, door: usize) -> Step
        ensures { result ≡ step_of self Kind.Passed door 0 }
    {
        self.step(Kind::Passed, door, 0)
    }

    // The lapse is recorded: the person is dropped.
    pub fn lapsed(self, door: usize) -> Step
        ensures { result ≡ step_of self Kind.Lapsed door 0 }
    {
        self.step(Kind::Lapsed, door, 0)
    }

    // The red light is out.
    pub fn dark(self, door: usize) -> Step
        ensures { result ≡ step_of self Kind.Dark door 0 }
    {
        self.step(Kind::Dark, door, 0)
    }

    // The door is free again.
    pub fn ack(self, door: usize) -> Step
        ensures { result ≡ step_of self Kind.Ack door 0 }
    {
        self.step(Kind::Ack, door, 0)
    }
}
