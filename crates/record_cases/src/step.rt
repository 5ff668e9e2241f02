// A step, in each way in which the record does one.
ghost use Rattle.std.specs.Prelude.{◌≤◌};

use crate::write::{word, write, write_bytes, write_next};
use lending::lend;
use lists::entry_at;
use numbers::Numbered;
use phases::table::Kind;
use record::record::Record;
use record::steps::Step;

// By the method of the step's name: each of the ten is tried as it stands, so that they are named one by one.
fn by_method(kind: u8, door: usize, person: usize, record: Record) -> Step {
    match Kind::from(kind) {
        Kind::Card => record.card(door, person),
        Kind::Decide => record.decide(door),
        Kind::Green => record.green(door),
        Kind::Red => record.red(door),
        Kind::Walk => record.walk(door),
        Kind::Tick => record.tick(door),
        Kind::Passed => record.passed(door),
        Kind::Lapsed => record.lapsed(door),
        Kind::Dark => record.dark(door),
        Kind::Ack => record.ack(door),
        Kind::Unknown => record.step(Kind::Unknown, door, person),
    }
}

// What the record keeps of a door, and where the first two people are.
fn write_kept(rt: &impl Print, door: usize, record: Record) {
    write_next(rt, u64::from(entry_at(&record.phase, door)));
    write_next(rt, u64::from(entry_at(&record.holder, door)));
    write_next(rt, u64::from(entry_at(&record.count, door)));
    write_next(rt, u64::from(entry_at(&record.place, 0)));
    write_next(rt, u64::from(entry_at(&record.place, 1)));
}

// The answer, the phase and the reason of a step, the door told with it, and what is kept afterwards.
fn write_step(rt: &impl Print, way: &[u8], door: usize, step: Step) {
    write(rt, way);
    write_next(rt, u64::from(step.answer.number()));
    write_next(rt, u64::from(step.phase));
    write_next(rt, u64::from(step.reason));
    write_next(rt, step.held as u64);
    write_kept(rt, door, step.next);
}

// How much is lent of this list of a run of one step: nothing of the one that has no room.
fn room(list: usize, short: Option<usize>) -> usize
    ensures { result ≤ 1 }
{
    match short {
        Some(at) => usize::from(at != list),
        None => 1,
    }
}

// A run of one step in which the list of this number has no room: 0 is the answers, 1 the phases, 2 the reasons, 3 the held doors; without
// a number each has. One value of each list of `step_list::run`. Its answer, and the four lists, which held this before. The record that it
// hands back.
pub fn write_ran(
    rt: &impl Print,
    kind: u8,
    door: usize,
    person: usize,
    short: Option<usize>,
    unwritten: u8,
    record: Record,
) -> Record {
    let mut answers = [unwritten; 1];
    let mut phases = [unwritten; 1];
    let mut reasons = [unwritten; 1];
    let mut held = [unwritten as usize; 1];
    let ran = step_list::run(
        record,
        &[kind],
        &[word(door)],
        &[word(person)],
        &mut answers[..room(0, short)],
        &mut phases[..room(1, short)],
        &mut reasons[..room(2, short)],
        &mut held[..room(3, short)],
    );
    write_next(rt, u64::from(ran.answer.number()));
    write_bytes(rt, &answers);
    write_bytes(rt, &phases);
    write_bytes(rt, &reasons);
    write_next(rt, held[0] as u64);
    ran.next
}

// A step in its five ways; the record that the method hands back.
pub fn do_step(rt: &impl Print, kind: u8, door: usize, person: usize, record: Record) -> Record {
    let named = Kind::from(kind);
    write_step(rt, b" step", door, record.step(named, door, person));
    write_step(
        rt,
        b" numbered",
        door,
        record.step_numbered(kind, door, person),
    );
    write_step(rt, b" lent", door, lend(record, named, door, person));
    write(rt, b" run");
    write_kept(rt, door, write_ran(rt, kind, door, person, None, 0, record));
    let step = by_method(kind, door, person, record);
    let next = step.next;
    write_step(rt, b" method", door, step);
    next
}
