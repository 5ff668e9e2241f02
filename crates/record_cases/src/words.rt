// The words that a row may begin with, and what each asks for.
use cells::say::is_word;
use grammar::cut::Cell;

// What is asked of a record.
#[derive(Clone, Copy, PartialEq, Eq)]
pub enum Question {
    // is it sound?
    Sound,
    // where is a person?
    Where,
    // which door is granted to a person?
    Granted,
    // the way out of a location
    Way,
    // a run of which one list is too short
    Short,
    // has no person two grants?
    Sole,
}

// A field of a record.
#[derive(Clone, Copy, PartialEq, Eq)]
pub enum RecordField {
    People,
    Locations,
    Doors,
    Origin,
    Destination,
    Exit,
    Right,
    Place,
    Phase,
    Person,
    Countdown,
}

// What a row asks for: four things, and an unknown word is a `None` beside it.
#[derive(Clone, Copy, PartialEq, Eq)]
pub enum CaseWord {
    // a step, by the paper's number; with 10 one that isn't there
    Step(u8),
    // a site sheet is read
    Site,
    // a question
    Asks(Question),
    // a field is put anew
    Puts(RecordField),
}

const WORDS: [(&str, CaseWord); 29] = [
    ("card", CaseWord::Step(0)),
    ("decide", CaseWord::Step(1)),
    ("green", CaseWord::Step(2)),
    ("red", CaseWord::Step(3)),
    ("walk", CaseWord::Step(4)),
    ("tick", CaseWord::Step(5)),
    ("passed", CaseWord::Step(6)),
    ("lapsed", CaseWord::Step(7)),
    ("dark", CaseWord::Step(8)),
    ("ack", CaseWord::Step(9)),
    ("unknown", CaseWord::Step(10)),
    ("site", CaseWord::Site),
    ("sound", CaseWord::Asks(Question::Sound)),
    ("where", CaseWord::Asks(Question::Where)),
    ("granted", CaseWord::Asks(Question::Granted)),
    ("way", CaseWord::Asks(Question::Way)),
    ("short", CaseWord::Asks(Question::Short)),
    ("sole", CaseWord::Asks(Question::Sole)),
    ("people", CaseWord::Puts(RecordField::People)),
    ("locations", CaseWord::Puts(RecordField::Locations)),
    ("doors", CaseWord::Puts(RecordField::Doors)),
    ("origin", CaseWord::Puts(RecordField::Origin)),
    ("destination", CaseWord::Puts(RecordField::Destination)),
    ("exit", CaseWord::Puts(RecordField::Exit)),
    ("right", CaseWord::Puts(RecordField::Right)),
    ("place", CaseWord::Puts(RecordField::Place)),
    ("phase", CaseWord::Puts(RecordField::Phase)),
    ("person", CaseWord::Puts(RecordField::Person)),
    ("countdown", CaseWord::Puts(RecordField::Countdown)),
];

// What the word of a row asks for; nothing if it is none of these.
pub fn case_word(s: &[u8], cell: Cell) -> Option<CaseWord> {
    for (text, word) in WORDS {
        if is_word(s, cell, text.as_bytes()) {
            return Some(word);
        }
    }
    None
}
