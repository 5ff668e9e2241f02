// The fields of the record, each put anew.
use crate::words::RecordField;
use crate::write::{byte, word};
use lists::put_entry;
use record::record::Record;
use tables::{MOST_LOCATIONS, MOST_PEOPLE};

// The record with a person's right to a location turned about.
fn turn_right(person: usize, location: usize, mut record: Record) -> Record {
    if person < MOST_PEOPLE && location < MOST_LOCATIONS {
        let at = person * MOST_LOCATIONS + location;
        record.right[at] = !record.right[at];
    }
    record
}

// The record with a field put anew, or an entry of it; without it where there is no such entry.
pub fn with_field(field: RecordField, a: usize, b: usize, mut record: Record) -> Record {
    match field {
        RecordField::People => record.people = a,
        RecordField::Locations => record.locations = a,
        RecordField::Doors => record.doors = a,
        RecordField::Origin => put_entry(&mut record.origin, a, byte(b)),
        RecordField::Destination => put_entry(&mut record.destination, a, byte(b)),
        RecordField::Exit => put_entry(&mut record.exit, a, byte(b)),
        RecordField::Right => return turn_right(a, b, record),
        RecordField::Place => put_entry(&mut record.place, a, byte(b)),
        RecordField::Phase => put_entry(&mut record.phase, a, byte(b)),
        RecordField::Person => put_entry(&mut record.holder, a, word(b)),
        RecordField::Countdown => put_entry(&mut record.count, a, word(b)),
    }
    record
}
