// One row of the steps sheet, answered on the record.
use crate::incoming::part;
use crate::say::{Events, ROOM, say, say_refused, tell};
use attend::attend_once;
use cells::say::says_words;
use grammar::cut::RowCut;
use numbers::Paper;
use phases::table::Kind;
use reader::row_at;
use record::record::Record;
use std::io::Write;

// What is known from turn to turn: the record, the number of the row that comes next, 0 for the header, and where the bytes that aren't
// answered yet lie in the list that holds them.
#[derive(Clone, Copy)]
pub(crate) struct State {
    pub record: Record,
    pub number: usize,
    pub from: usize,
    pub end: usize,
}

// What is known when a row was answered: the record is so, and the next row begins at this place.
fn onward(state: State, record: Record, from: usize) -> State {
    State {
        record,
        number: state.number.wrapping_add(1),
        from,
        end: state.end,
    }
}

// Whether a row is the header of a steps sheet.
fn is_header(row: &[u8]) -> bool {
    let RowCut::Cut(cells, _) = row_at(row, 0) else {
        return false;
    };
    says_words(row, cells, b"step", b"door", b"person")
}

// The header, which is answered only where it is wrong. Then no row follows.
fn answer_header(
    rt: &(impl Print + Eprint),
    state: State,
    row: &[u8],
    next: usize,
) -> Option<State> {
    if is_header(row) {
        return Some(onward(state, state.record, next));
    }
    say_refused(rt, Paper::BAD_FORM)?;
    None
}

// A step: its event is told before its row is printed. No row follows one of bad form, nor one that can't be told or printed.
fn answer_step<F: Write>(
    rt: &(impl Print + Eprint),
    state: State,
    row: &[u8],
    next: usize,
    events: &mut Option<Events<'_, F>>,
) -> Option<State> {
    let mut text = [0; ROOM];
    let turn = attend_once(state.record, row, state.number, &mut text);
    let attended = turn.attended;
    if let Some(events) = events {
        tell(rt, attended, events)?;
    }
    say(rt, part(&text, 0, attended.length))?;
    if attended.asked.kind == Kind::Unknown {
        return None;
    }
    Some(onward(state, turn.next, next))
}

// What to print with and the events' file go along through all of these. One struct of both would name their types and their lifetimes at
// each place, and is no plainer.
// A row, the header or a step; the one behind it begins at this place of the list that holds them. Nothing is known where no row follows.
pub(crate) fn answer<F: Write>(
    rt: &(impl Print + Eprint),
    state: State,
    row: &[u8],
    next: usize,
    events: &mut Option<Events<'_, F>>,
) -> Option<State> {
    if state.number == 0 {
        return answer_header(rt, state, row, next);
    }
    answer_step(rt, state, row, next, events)
}
