// The stream of two sheets, from their bytes.
ghost use Rattle.std.specs.Prelude.{◌≡◌, ◌≤◌, true, length};
ghost use Rattle.text.specs.Printed.{Prints};
ghost use Rattle.record.specs.Run.{rows_of};
ghost use Rattle.record.specs.SoundTest.{sound_b};
ghost use Rattle.steps_sheet.specs.Lent.{most_steps};
ghost use Rattle.steps_sheet.specs.Steps.{steps_from, heading_of};
ghost use Rattle.syslog.specs.Line.{stream_of};
ghost use Rattle.stream_text.specs.Rows.{stream_from};
ghost use Rattle.stream_text.specs.Stream.{line_events_in, steps_events, events_text};

use crate::rows::{Columns, put_events};
use findings::TooShort;
use record::record::Record;
use run_text::serve::Run;
use site::read_site;
use steps::{MOST_STEPS, decode, heading_of};
use text::print::print;

// The steps of a sheet, as lists with an entry for each step.
#[derive(Clone, Copy)]
struct Steps<'a> {
    kinds: &'a [u8],
    doors: &'a [u16],
    persons: &'a [u16],
    ghost few: { length kinds.now ≤ most_steps },
    ghost doors_long: { length doors.now ≡ length kinds.now },
    ghost persons_long: { length persons.now ≡ length kinds.now },
}

// The stream of a run, if it fits.
fn print_events(run: Columns<'_>, out: &mut [u8]) -> Result<usize, TooShort>
    ensures { Prints (stream_from run.entry.kinds.now run.entry.doors.now run.entry.persons.now run.entry.answers.now run.entry.phases.now run.entry.reasons.now run.entry.held.now) out.old result out.new }
{
    print(|list| put_events(run, list), out)
}

// Runs steps from a record and prints their events.
fn print_run(fresh: Record, steps: Steps<'_>, out: &mut [u8]) -> Result<usize, TooShort>
    requires { sound_b fresh ≡ true }
    ensures { Prints (stream_of (line_events_in fresh (rows_of steps.entry.kinds.now steps.entry.doors.now steps.entry.persons.now))) out.old result out.new }
{
    let mut answers = [0; MOST_STEPS];
    let mut phases = [0; MOST_STEPS];
    let mut reasons = [0; MOST_STEPS];
    let mut held = [0; MOST_STEPS];
    let _ran = step_list::run(
        fresh,
        steps.kinds,
        steps.doors,
        steps.persons,
        &mut answers,
        &mut phases,
        &mut reasons,
        &mut held,
    );
    let count = steps.kinds.len();
    let run = Columns {
        kinds: steps.kinds,
        doors: steps.doors,
        persons: steps.persons,
        answers: &answers[..count],
        phases: &phases[..count],
        reasons: &reasons[..count],
        held: &held[..count],
    };
    print_events(run, out)
}

// Runs the rows of a steps sheet and prints their events.
fn print_steps(run: &Run<'_>, out: &mut [u8]) -> Result<usize, TooShort>
    ensures { Prints (stream_of (line_events_in run.now.fresh (steps_from run.now.sheet.now run.now.from).rows)) out.old result out.new }
{
    let mut kinds = [0; MOST_STEPS];
    let mut doors = [0; MOST_STEPS];
    let mut persons = [0; MOST_STEPS];
    let Ok(decoded) = decode(run.sheet, run.from, &mut kinds, &mut doors, &mut persons) else {
        unreachable!()
    };
    let count = decoded.count;
    let steps = Steps {
        kinds: &kinds[..count],
        doors: &doors[..count],
        persons: &persons[..count],
    };
    print_run(run.fresh, steps, out)
}

// A steps sheet, run from the record of a site; nothing is printed where it can't be run.
// As in crate `run`, a clause only up to where a `Run` is made.
fn print_headed(fresh: Record, steps: &[u8], out: &mut [u8]) -> Result<usize, TooShort>
    requires { sound_b fresh ≡ true }
    ensures { Prints (stream_of (steps_events fresh steps.now (heading_of steps.now))) out.old result out.new }
{
    let Ok(from) = heading_of(steps) else {
        return Ok(0);
    };
    let run = Run {
        fresh,
        sheet: steps,
        from,
    };
    print_steps(&run, out)
}

// What `events` prints: the frames of the run's events. Nothing is printed where the site is refused.
pub fn events_text<'a>(
    site: &'a [u8],
    steps: &'a [u8],
    out: &'a mut [u8],
) -> Result<usize, TooShort>
    ensures { Prints (events_text site.now steps.now) out.old result out.new }
{
    match read_site(site) {
        Ok(fresh) => print_headed(fresh, steps, out),
        Err(_) => Ok(0),
    }
}
