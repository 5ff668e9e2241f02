// The questions: whether the record is sound, where a person is, which door is granted to a person, the way out of a location; a
// run of which one list is too short; and whether no person has two grants, of any record.
use crate::step::write_ran;
use crate::words::Question;
use crate::write::{write, write_bytes, write_next};
use numbers::Numbered;
use questions::{granted_to, place_of, way_out};
use record::record::Record;
use sole_grants::sole_grants;
use tables::MOST_LOCATIONS;

// What a list holds before a way out is written into it.
const UNWRITTEN: u8 = 99;

fn write_place(rt: &impl Print, person: usize, record: Record) {
    let answer = place_of(record, person);
    write_next(rt, u64::from(answer.number()));
    write_next(rt, u64::from(answer.unwrap_or(0)));
}

fn write_grant(rt: &impl Print, person: usize, record: Record) {
    let answer = granted_to(record, person);
    write_next(rt, u64::from(answer.number()));
    match answer.unwrap_or(None) {
        Some(door) => write_next(rt, door as u64),
        None => write(rt, b",none"),
    }
}

// The way out of a location, into a list with so much room, and the whole list.
fn write_way(rt: &impl Print, location: usize, room: usize, record: Record) {
    let mut list = [UNWRITTEN; MOST_LOCATIONS];
    if MOST_LOCATIONS < room {
        return;
    }
    let answer = way_out(record, location, &mut list[..room]);
    write_next(rt, u64::from(answer.number()));
    write_next(rt, answer.unwrap_or(0) as u64);
    write_bytes(rt, &list);
}

fn write_whether(rt: &impl Print, so: bool) {
    if so {
        write(rt, b",yes");
    } else {
        write(rt, b",no");
    }
}

// Answers a question: a `match`, since each has numbers of its own. `short` asks for a run of one step in which the list of this number has
// no room, and for the lists that were lent.
pub fn ask(rt: &impl Print, question: Question, a: usize, b: usize, record: Record) {
    match question {
        Question::Sound => write_whether(rt, record.is_sound()),
        Question::Where => write_place(rt, a, record),
        Question::Granted => write_grant(rt, a, record),
        Question::Way => write_way(rt, a, b, record),
        Question::Short => {
            let _next = write_ran(rt, 0, 0, 0, Some(a), UNWRITTEN, record);
        }
        Question::Sole => write_whether(rt, sole_grants(record.doors, record.door_lists())),
    }
}
