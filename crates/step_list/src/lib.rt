// The run of a list of steps. The record is tested once; then each step goes to the record that the
// step before it handed back.
#![tactic(auto)]

ghost use Rattle.std.specs.Prelude.{◌≡◌, map, length};
ghost use Rattle.std.proofs.lemmas.List.Edits.{sets};
ghost use Rattle.record.specs.Sound.{Sound};
ghost use Rattle.step_list.specs.Room.{RunRoom};
ghost use Rattle.record.specs.Run.{rows_of, last_of, replies_of, answer_told, phase_told, reason_told, held_told};
ghost use Rattle.record.specs.Run.{room_for, run_of, answers_of, phases_of, reasons_of, held_of};

use deeds::judge;
use lists::entry_at;
use numbers::Numbered;
use phases::answer::Answer;
use phases::table::Kind;
use record::{Ran, Record};

// Has each list room for this many steps?
#[tactic(auto, unfolding(record::specs::Run::room_for, tables::specs::Tables::and_also))]
fn room_for(
    steps: usize,
    doors: usize,
    persons: usize,
    answers: usize,
    phases: usize,
    reasons: usize,
    held: usize,
) -> bool
    ensures { result ≡ room_for steps doors persons answers phases reasons held }
{
    steps <= doors
        && steps <= persons
        && steps <= answers
        && steps <= phases
        && steps <= reasons
        && steps <= held
}

// The steps of a sound record, one after the other. By the index, which looks into seven lists.
fn run_rows<'a>(
    mut start: Record,
    steps: &'a [u8],
    doors: &'a [u16],
    persons: &'a [u16],
    answers: &'a mut [u8],
    phases: &'a mut [u8],
    reasons: &'a mut [u8],
    held: &'a mut [usize],
) -> Record
    requires sound { Sound start }
    requires room { RunRoom (length steps.now) (length doors.now) (length persons.now) (length answers.old) (length phases.old) (length reasons.old) (length held.old) }
    ensures last { result ≡ last_of start (rows_of steps.now doors.now persons.now) }
    ensures answers { answers.new ≡ sets answers.old 0 (map answer_told (replies_of start (rows_of steps.now doors.now persons.now))) }
    ensures phases { phases.new ≡ sets phases.old 0 (map phase_told (replies_of start (rows_of steps.now doors.now persons.now))) }
    ensures reasons { reasons.new ≡ sets reasons.old 0 (map reason_told (replies_of start (rows_of steps.now doors.now persons.now))) }
    ensures held { held.new ≡ sets held.old 0 (map held_told (replies_of start (rows_of steps.now doors.now persons.now))) }
{
    let mut moving = start.moving();
    for at in 0..steps.len() {
        let door = entry_at(doors, at) as usize;
        let deed = judge(
            start.tables(),
            &moving.place,
            moving.door_lists(),
            Kind::from(steps[at]),
            door,
            entry_at(persons, at) as usize,
        );
        let told = moving.carry_out(deed, door);
        answers[at] = told.answer.number();
        phases[at] = told.phase;
        reasons[at] = told.reason;
        held[at] = told.held;
    }
    start.hold(&moving);
    start
}

// Seven lists, and none of structs: `run_of` and the rows `short` of the tests speak of lists of unlike lengths.
// Runs a list of steps: the number of each step, its door and its person are lent, and the
// answer, the phase, the reason and the held door of each are written into the lists lent for them.
pub fn run<'a>(
    start: Record,
    steps: &'a [u8],
    doors: &'a [u16],
    persons: &'a [u16],
    answers: &'a mut [u8],
    phases: &'a mut [u8],
    reasons: &'a mut [u8],
    held: &'a mut [usize],
) -> Ran
    ensures ran { result ≡ run_of start steps.now doors.now persons.now answers.old phases.old reasons.old held.old }
    ensures answers { answers.new ≡ answers_of start steps.now doors.now persons.now answers.old phases.old reasons.old held.old }
    ensures phases { phases.new ≡ phases_of start steps.now doors.now persons.now answers.old phases.old reasons.old held.old }
    ensures reasons { reasons.new ≡ reasons_of start steps.now doors.now persons.now answers.old phases.old reasons.old held.old }
    ensures held { held.new ≡ held_of start steps.now doors.now persons.now answers.old phases.old reasons.old held.old }
{
    if !start.is_sound() {
        return Ran {
            next: start,
            answer: Answer::Unsound,
        };
    }
    if !room_for(
        steps.len(),
        doors.len(),
        persons.len(),
        answers.len(),
        phases.len(),
        reasons.len(),
        held.len(),
    ) {
        return Ran {
            next: start,
            answer: Answer::TooShort,
        };
    }
    let next = run_rows(start, steps, doors, persons, answers, phases, reasons, held);
    Ran {
        next,
        answer: Answer::Done,
    }
}
