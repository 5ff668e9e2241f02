// What the run of a list of steps hands back. The run itself is in crate `step_list`.
use crate::record::Record;
use phases::answer::Answer;

// What a run hands back: the last record, and how the run as a whole ended. No `Result`: the record is handed back with each answer.
#[derive(Drop)]
pub struct Ran {
    pub next: Record,
    pub answer: Answer,
}
