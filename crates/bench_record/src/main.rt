// `bench_record`: puts a grant at every door of a site's record, and then tests its soundness as many times as the argument says;
// with a second argument it does so many steps on the record lent instead, a tick at one door after the other. It
// writes how many tests said sound, or how many steps were done. bench/run counts its instructions.
#![tactic(auto)]

use blank_lists::blank_sheet;
use lending::lend;
use phases::answer::Answer;
use phases::phase::Phase;
use phases::table::Kind;
use program_io::number_asked;
use record::record::Record;
use sheet_files::read_sheet;
use site::read_site;
use std::env::Env;
use tables::MOST_DOORS;

// So many bytes of an argument are looked at.
const MOST_WORD: usize = 4096;

// The record with a grant at each door, of the person who has the door's number, who stands where it starts. By the index, which is the
// person.
fn with_grants(mut record: Record) -> Record {
    for door in 0..MOST_DOORS {
        if door < record.doors {
            record.place[door] = record.origin[door];
            record.phase[door] = Phase::GRANTED;
            record.holder[door] = door as u16;
        }
    }
    record
}

// How many of so many tests say that the record is sound.
fn tests_passed(rounds: usize, record: Record) -> u64 {
    let mut passed = 0u64;
    for _ in 0..rounds {
        passed = passed.saturating_add(u64::from(record.is_sound()));
    }
    passed
}

// How many of so many steps on the record are done, each at the next door.
fn steps_done(rounds: usize, mut record: Record) -> u64 {
    let mut done = 0u64;
    for n in 0..rounds {
        let step = lend(record, Kind::Tick, n % MOST_DOORS, 0);
        record = step.next;
        done = done.saturating_add(u64::from(step.answer == Answer::Done));
    }
    done
}

// How many bytes the program's second argument has; 0 without one.
fn second_word(rt: &impl Env) -> usize {
    let mut word = [0u8; MOST_WORD];
    rt.arg(2, &mut word).unwrap_or(0)
}

// What is done with the record of a site.
fn done(rt: &impl Env, fresh: Record) -> u64 {
    let record = with_grants(fresh);
    let rounds = number_asked(rt, 1);
    if second_word(rt) == 0 {
        tests_passed(rounds, record)
    } else {
        steps_done(rounds, record)
    }
}

fn main(rt: HostRuntime) {
    let mut sheet = blank_sheet();
    let length = read_sheet(&rt, "site.csv", &mut sheet);
    let done = match read_site(&sheet[..length]) {
        Ok(fresh) => done(&rt, fresh),
        Err(_) => 0,
    };
    let _ = rt.print(done);
}
