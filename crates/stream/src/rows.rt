// The events of a run as frames, row after row.
ghost use Rattle.std.specs.Prelude.{◌≡◌, get_or, set, replicate};
ghost use Rattle.tables.specs.Tables.{most_doors};
ghost use Rattle.text.specs.Wrote.{Wrote};
ghost use Rattle.phases.specs.Kinds.{kind_of};
ghost use Rattle.syslog.specs.Line.{framed_of};
ghost use Rattle.stream_text.specs.Rows.{line_words, stream_from, Heard, decided_event, told_text, card_after};

use lists::{entry_at, put_entry};
use numbers::Paper;
use phases::phase::Phase;
use phases::table::Kind;
use syslog::{LineEvent, Msgid};
use syslog_write::put_frame;
use tables::MOST_DOORS;

// Whose card is at each door before any is taken: 0, which no event tells, since a card is taken before.
// Not one function with the blank lists: those promise sizes of the programs, this one the number of doors.
pub fn no_cards() -> [u16; MOST_DOORS]
    ensures { result ≡ replicate most_doors 0 }
{
    [0; MOST_DOORS]
}

// A step, and what was told of it: the paper's number, the door's phase afterwards, the reason and the held door. The numbers that a run
// writes, since `told_text` says them.
#[derive(Clone, Copy, PartialEq, Eq)]
pub struct StepTold {
    pub kind: Kind,
    pub door: usize,
    pub person: u16,
    pub answer: u8,
    pub phase: u8,
    pub reason: u8,
    pub held: usize,
}

// The steps of a run and what was told of them, as lists with an entry for each step.
#[derive(Clone, Copy)]
pub(crate) struct Columns<'a> {
    pub kinds: &'a [u8],
    pub doors: &'a [u16],
    pub persons: &'a [u16],
    pub answers: &'a [u8],
    pub phases: &'a [u8],
    pub reasons: &'a [u8],
    pub held: &'a [usize],
    ghost heard: { Heard kinds.now doors.now persons.now answers.now phases.now reasons.now held.now },
}

// An event that has neither a reason nor a held door.
fn event_of(msgid: Msgid, door: usize, person: usize) -> LineEvent
    ensures { result ≡ line_words msgid door person 0 0 }
{
    LineEvent {
        msgid,
        door,
        person,
        reason: 0,
        held: 0,
    }
}

// The event of a decision: a grant where the door is granted, else a denial with its reason and the door told with it.
fn decided(step: StepTold, person: usize) -> LineEvent
    ensures { result ≡ decided_event step.phase step.reason step.held step.door person }
{
    if step.phase == Phase::GRANTED {
        return event_of(Msgid::Grant, step.door, person);
    }
    LineEvent {
        msgid: Msgid::Deny,
        door: step.door,
        person,
        reason: step.reason as usize,
        held: step.held,
    }
}

// What one step writes, this person's card being at its door: the frame of its event, or nothing.
fn put_told(out: &mut [u8], at: usize, step: StepTold, person: usize) -> usize
    ensures { Wrote out.old at (told_text step.kind step.answer step.phase step.reason step.held step.door person) out.new result }
{
    if step.answer != Paper::DONE {
        return at;
    }
    match step.kind {
        Kind::Decide => put_frame(out, at, decided(step, person)),
        Kind::Passed => put_frame(out, at, event_of(Msgid::Pass, step.door, person)),
        Kind::Lapsed => put_frame(out, at, event_of(Msgid::Lapse, step.door, person)),
        _ => at,
    }
}

// Whose card is at a door after a step there.
#[tactic(auto, unfolding(stream_text::specs::Rows::card_after))]
fn card_after(kind: Kind, answer: u8, person: u16, was: u16) -> u16
    ensures { result ≡ card_after kind answer person was }
{
    if answer != Paper::DONE {
        return was;
    }
    match kind {
        Kind::Card => person,
        Kind::Ack => 0,
        _ => was,
    }
}

// One step's event: its frame is written at a place of the list, if it gives one, and the list of cards has whose card is at its door
// afterwards.
pub fn put_event(cards: &mut [u16], step: StepTold, out: &mut [u8], at: usize) -> usize
    ensures wrote { Wrote out.old at (told_text step.kind step.answer step.phase step.reason step.held step.door (get_or cards.old step.door 0)) out.new result }
    ensures cards { cards.new ≡ set cards.old step.door (card_after step.kind step.answer step.person (get_or cards.old step.door 0)) }
{
    let card = entry_at(cards, step.door);
    let next = put_told(out, at, step, card as usize);
    let kept = card_after(step.kind, step.answer, step.person, card);
    put_entry(cards, step.door, kept);
    next
}

// The frames of a run's events, in the order of its rows. By the index, which looks into seven lists.
pub(crate) fn put_events(run: Columns<'_>, out: &mut [u8]) -> usize
    ensures { Wrote out.old 0 (stream_from run.entry.kinds.now run.entry.doors.now run.entry.persons.now run.entry.answers.now run.entry.phases.now run.entry.reasons.now run.entry.held.now) out.new result }
{
    let mut cards = no_cards();
    let mut next = 0;
    for i in 0..run.kinds.len() {
        let step = StepTold {
            kind: Kind::from(run.kinds[i]),
            door: entry_at(run.doors, i) as usize,
            person: entry_at(run.persons, i),
            answer: entry_at(run.answers, i),
            phase: entry_at(run.phases, i),
            reason: entry_at(run.reasons, i),
            held: run.held[i],
        };
        next = put_event(&mut cards, step, out, next);
    }
    next
}
