// The two texts: what `panel` prints and what `where` prints, from the bytes of the two sheets.
ghost use Rattle.std.specs.Prelude.{◌≡◌, ◌≤◌, true, length, take};
ghost use Rattle.text.specs.Printed.{Prints};
ghost use Rattle.text.specs.Wrote.{Wrote};
ghost use Rattle.tables.specs.Tables.{most_people};
ghost use Rattle.record.specs.Run.{last_of, replies_of};
ghost use Rattle.record.specs.SoundTest.{sound_b};
ghost use Rattle.steps_sheet.specs.Lent.{most_steps};
ghost use Rattle.steps_sheet.specs.Steps.{steps_from, heading_of};
ghost use Rattle.run_text.specs.Printed.{answer_rows, replies_from, run_text, most_run_text, alone_text, ran_text, steps_text, panel_text, places_text, record_text, last_record, where_text};

use crate::serve::{Lists, Replies, serve};
use findings::TooShort;
use number_rows::put_row;
use numbers::{Numbered, Paper};
use record::record::Record;
use run_text::serve::Run;
use site::read_site;
use steps::heading_of;
use text::print::print;
use text::write::put_bytes;

// A row for each answer, the first of them row 1. By the index, which is the row's number and looks into four lists.
fn put_answers(replies: Replies<'_>, out: &mut [u8], at: usize) -> usize
    ensures { Wrote out.old at (answer_rows 1 (replies_from replies.entry.answers.now replies.entry.phases.now replies.entry.reasons.now replies.entry.held.now)) out.new result }
{
    let mut next = at;
    for i in 0..replies.answers.len() {
        let answer = replies.answers[i] as usize;
        let phase = replies.phases[i] as usize;
        let reason = replies.reasons[i] as usize;
        next = put_row(out, next, i + 1, &[answer, phase, reason, replies.held[i]]);
    }
    next
}

// The text of a run: the header, the answers, and the row of bad form that ended the run.
fn put_run(replies: Replies<'_>, whole: bool, out: &mut [u8]) -> usize
    ensures { Wrote out.old 0 (run_text (replies_from replies.entry.answers.now replies.entry.phases.now replies.entry.reasons.now replies.entry.held.now) whole) out.new result }
{
    let rows = put_bytes(out, 0, b"row,answer,phase,reason,held\r\n");
    let end = put_answers(replies, out, rows);
    if whole {
        return end;
    }
    put_row(
        out,
        end,
        replies.answers.len() + 1,
        &[Paper::BAD_FORM as usize, 0, 0, 0],
    )
}

// The most bytes of the text of a run of so many steps.
fn most_text(steps: usize) -> usize
    requires { steps ≤ most_steps }
    ensures { result ≡ most_run_text steps }
{
    30 + 15 * (steps + 1)
}

// The text of a run, if it fits. Where the list is so long that it must, it is written at once; else it is measured first.
fn print_run(replies: Replies<'_>, whole: bool, out: &mut [u8]) -> Result<usize, TooShort>
    requires few { length replies.answers.now ≤ most_steps }
    requires short { length (run_text (replies_from replies.answers.now replies.phases.now replies.reasons.now replies.held.now) whole) ≤ most_run_text (length replies.answers.now) }
    ensures { Prints (run_text (replies_from replies.entry.answers.now replies.entry.phases.now replies.entry.reasons.now replies.entry.held.now) whole) out.old result out.new }
{
    if most_text(replies.answers.len()) <= out.len() {
        return Ok(put_run(replies, whole, out));
    }
    print(|list| put_run(replies, whole, list), out)
}

// A number alone after the header: a sheet was refused.
fn put_alone(number: u8, out: &mut [u8]) -> usize
    ensures { Wrote out.old 0 (alone_text number) out.new result }
{
    let row = put_bytes(out, 0, b"row,answer,phase,reason,held\r\n");
    put_row(out, row, 0, &[number as usize, 0, 0, 0])
}

fn print_alone(number: u8, out: &mut [u8]) -> Result<usize, TooShort>
    ensures { Prints (alone_text number) out.old result out.new }
{
    print(|list| put_alone(number, list), out)
}

// The rows of a steps sheet, run and printed.
fn print_steps(run: &Run<'_>, out: &mut [u8]) -> Result<usize, TooShort>
    ensures { Prints (ran_text run.now.fresh (steps_from run.now.sheet.now run.now.from)) out.old result out.new }
{
    let mut told = Lists::blank();
    let served = serve(run, &mut told);
    print_run(told.front(served.count), served.whole, out)
}

// A steps sheet, run from the record of a site and printed; or a number alone where it can't be run. That the record is sound is a clause
// only up to here: `Run` holds it behind the header.
fn print_headed(fresh: Record, steps: &[u8], out: &mut [u8]) -> Result<usize, TooShort>
    requires { sound_b fresh ≡ true }
    ensures { Prints (steps_text fresh steps.now (heading_of steps.now)) out.old result out.new }
{
    match heading_of(steps) {
        Ok(from) => {
            let run = Run {
                fresh,
                sheet: steps,
                from,
            };
            print_steps(&run, out)
        }
        Err(unheaded) => print_alone(unheaded.number(), out),
    }
}

// What `panel` prints.
pub fn panel_text<'a>(site: &'a [u8], steps: &'a [u8], out: &'a mut [u8]) -> Result<usize, TooShort>
    ensures { Prints (panel_text site.now steps.now) out.old result out.new }
{
    match read_site(site) {
        Ok(fresh) => print_headed(fresh, steps, out),
        Err(refusal) => print_alone(refusal.number(), out),
    }
}

// The header of what `where` prints, and a row for each of these places. By the index, which is the person.
fn put_places(places: &[u8], out: &mut [u8]) -> usize
    ensures { Wrote out.old 0 (places_text places.now) out.new result }
{
    let mut next = put_bytes(out, 0, b"person,location\r\n");
    for i in 0..places.len() {
        next = put_row(out, next, i, &[places[i] as usize]);
    }
    next
}

fn print_places(places: &[u8], out: &mut [u8]) -> Result<usize, TooShort>
    ensures { Prints (places_text places.now) out.old result out.new }
{
    print(|list| put_places(places, list), out)
}

// The places of the people of a record.
fn print_record(r: &Record, out: &mut [u8]) -> Result<usize, TooShort>
    requires { r.now.people ≤ most_people }
    ensures { Prints (record_text r.now) out.old result out.new }
{
    print_places(&r.place[..r.people], out)
}

// The record after a steps sheet: the fresh one where the sheet can't be run.
fn last_record(fresh: Record, steps: &[u8]) -> Record
    requires { sound_b fresh ≡ true }
    ensures { result ≡ last_record fresh steps.now (heading_of steps.now) }
{
    let Ok(from) = heading_of(steps) else {
        return fresh;
    };
    let run = Run {
        fresh,
        sheet: steps,
        from,
    };
    serve(&run, &mut Lists::blank()).next
}

// What `where` prints.
pub fn where_text<'a>(site: &'a [u8], steps: &'a [u8], out: &'a mut [u8]) -> Result<usize, TooShort>
    ensures { Prints (where_text site.now steps.now) out.old result out.new }
{
    match read_site(site) {
        Ok(fresh) => print_record(&last_record(fresh, steps), out),
        Err(_) => print_places(&[], out),
    }
}
