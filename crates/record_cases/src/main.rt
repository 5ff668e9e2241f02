// `record_cases`: does what the rows of cases.csv say to a record, and prints what the record's functions answer. The record comes
// from a site sheet, and rows may alter any of its fields, so that it meets records that aren't sound. tests/make-record-cases makes
// the rows, and from the papers' reference what is expected.
//
// A row has a word and two numbers. `site` reads a site sheet. The name of a field puts its entry anew, `right` turns a right about.
// The name of a step does it in five ways, from the same record: by `step`, by `step_numbered`, on the record that is lent, by `run`
// and by the method of that name, whose record is kept. `short` runs a step with no room in one list, by the list's number.
// `sound`, `where`, `granted`, `way` and `sole` ask.
#![tactic(auto)]

mod ask;
mod put;
mod step;
mod words;
mod write;

use ask::ask;
use blank_lists::blank_sheet;
use grammar::cut::{Cells, RowCut};
use numbers::Numbered;
use put::with_field;
use reader::row_at;
use record::record::Record;
use sheet_files::read_sheet;
use site::read_site;
use std::fs::Files;
use step::do_step;
use tables::{MOST_DOORS, MOST_LOCATIONS, MOST_RIGHTS};
use words::{CaseWord, case_word};
use write::{number_or_0, write_end, write_next, write_row};

// The sheets of sites, by the last digit of their numbers.
const SITES: [&str; 10] = [
    "0-site.csv",
    "1-site.csv",
    "2-site.csv",
    "3-site.csv",
    "4-site.csv",
    "5-site.csv",
    "6-site.csv",
    "7-site.csv",
    "8-site.csv",
    "9-site.csv",
];

// The record of no site.
fn blank_record() -> Record {
    Record::fresh(
        0,
        0,
        0,
        [0; MOST_DOORS],
        [0; MOST_DOORS],
        [0; MOST_LOCATIONS],
        [false; MOST_RIGHTS],
    )
}

// The fresh record of a site sheet, or the blank one of a refused sheet.
fn take_site(rt: &(impl Files + Print + Eprint), n: usize) -> Record {
    let mut sheet = blank_sheet();
    let length = read_sheet(rt, SITES[n % 10], &mut sheet);
    let read = read_site(&sheet[..length]);
    write_next(rt, u64::from(read.number()));
    read.unwrap_or(blank_record())
}

// Prints a row and does what it says. A row with another word leaves the record as it is.
fn take_row(rt: &(impl Files + Print + Eprint), s: &[u8], cells: Cells, record: Record) -> Record {
    write_row(rt, s, cells);
    let a = number_or_0(s, cells.second);
    let b = number_or_0(s, cells.third);
    match case_word(s, cells.first) {
        Some(CaseWord::Step(kind)) => do_step(rt, kind, a, b, record),
        Some(CaseWord::Site) => take_site(rt, a),
        Some(CaseWord::Asks(question)) => {
            ask(rt, question, a, b, record);
            record
        }
        Some(CaseWord::Puts(field)) => with_field(field, a, b, record),
        None => record,
    }
}

// The rows of a sheet, one after the other; there are no more of them than bytes.
fn take_rows(rt: &(impl Files + Print + Eprint), s: &[u8], blank: Record) {
    let mut record = blank;
    let mut at = 0;
    for _ in 0..s.len() {
        let RowCut::Cut(cells, next) = row_at(s, at) else {
            return;
        };
        record = take_row(rt, s, cells, record);
        write_end(rt);
        at = next;
    }
}

fn main(rt: HostRuntime) {
    let mut cases = blank_sheet();
    let length = read_sheet(&rt, "cases.csv", &mut cases);
    take_rows(&rt, &cases[..length], blank_record());
}
