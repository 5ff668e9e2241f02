// The steps of a sheet, run on the record of a site.
ghost use Rattle.std.specs.Prelude.{◌≡◌, ◌≤◌, map, length, take};
ghost use Rattle.std.proofs.lemmas.List.Edits.{sets};
ghost use Rattle.record.specs.Run.{replies_of, answer_told, phase_told, reason_told, held_told};
ghost use Rattle.steps_sheet.specs.Lent.{most_steps};
ghost use Rattle.steps_sheet.specs.Steps.{steps_from};
ghost use Rattle.run_text.specs.Printed.{replies_from, most_run_text, ran_text, served_of};

use run_text::serve::{Run, Served};
use steps::{MOST_STEPS, decode};

// What is told of steps, each list with an entry for each step: its answer, the door's phase afterwards, the reason and the held door.
#[derive(Clone, Copy)]
pub(crate) struct Replies<'a> {
    pub answers: &'a [u8],
    pub phases: &'a [u8],
    pub reasons: &'a [u8],
    pub held: &'a [usize],
    ghost phases_told: { length phases.now ≡ length answers.now },
    ghost reasons_told: { length reasons.now ≡ length answers.now },
    ghost held_told: { length held.now ≡ length answers.now },
}

// The same lists with room for every step that a sheet can have.
#[derive(Drop)]
pub(crate) struct Lists {
    pub answers: [u8; MOST_STEPS],
    pub phases: [u8; MOST_STEPS],
    pub reasons: [u8; MOST_STEPS],
    pub held: [usize; MOST_STEPS],
}

impl Lists {
    // Nothing is told yet.
    pub(crate) fn blank() -> Self {
        Lists {
            answers: [0; MOST_STEPS],
            phases: [0; MOST_STEPS],
            reasons: [0; MOST_STEPS],
            held: [0; MOST_STEPS],
        }
    }

    // What is told of the first so many steps.
    pub(crate) fn front(&self, count: usize) -> Replies<'_>
        requires { count ≤ most_steps }
        ensures answers { result.answers.now ≡ take count self.now.answers }
        ensures phases { result.phases.now ≡ take count self.now.phases }
        ensures reasons { result.reasons.now ≡ take count self.now.reasons }
        ensures held { result.held.now ≡ take count self.now.held }
        ensures long { length result.answers.now ≡ count }
    {
        Replies {
            answers: &self.answers[..count],
            phases: &self.phases[..count],
            reasons: &self.reasons[..count],
            held: &self.held[..count],
        }
    }
}

// Runs the steps of the rows of a sheet, and tells of each in the lists.
pub(crate) fn serve(run: &Run<'_>, told: &mut Lists) -> Served
    ensures served { result ≡ served_of run.now.fresh (steps_from run.now.sheet.now run.now.from) }
    ensures few { result.count ≤ most_steps }
    ensures short { length (ran_text run.now.fresh (steps_from run.now.sheet.now run.now.from)) ≤ most_run_text result.count }
    ensures answers { told.new.answers ≡ sets told.old.answers 0 (map answer_told (replies_of run.now.fresh (steps_from run.now.sheet.now run.now.from).rows)) }
    ensures phases { told.new.phases ≡ sets told.old.phases 0 (map phase_told (replies_of run.now.fresh (steps_from run.now.sheet.now run.now.from).rows)) }
    ensures reasons { told.new.reasons ≡ sets told.old.reasons 0 (map reason_told (replies_of run.now.fresh (steps_from run.now.sheet.now run.now.from).rows)) }
    ensures held { told.new.held ≡ sets told.old.held 0 (map held_told (replies_of run.now.fresh (steps_from run.now.sheet.now run.now.from).rows)) }
    ensures told { replies_from (take result.count told.new.answers) (take result.count told.new.phases) (take result.count told.new.reasons) (take result.count told.new.held) ≡ replies_of run.now.fresh (steps_from run.now.sheet.now run.now.from).rows }
{
    let mut kinds = [0; MOST_STEPS];
    let mut doors = [0; MOST_STEPS];
    let mut persons = [0; MOST_STEPS];
    let Ok(decoded) = decode(run.sheet, run.from, &mut kinds, &mut doors, &mut persons) else {
        unreachable!()
    };
    let count = decoded.count;
    let ran = step_list::run(
        run.fresh,
        &kinds[..count],
        &doors[..count],
        &persons[..count],
        &mut told.answers,
        &mut told.phases,
        &mut told.reasons,
        &mut told.held,
    );
    Served {
        next: ran.next,
        count,
        whole: decoded.whole,
    }
}
