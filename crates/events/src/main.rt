// `events`: reads a site sheet and a steps sheet and writes the run's events as a syslog stream. The sheets are the two files that its
// arguments name, or site.csv and steps.csv of the folder that it is run in. The stream is proved in the crate `stream`; here is only
// reading and writing.
#![tactic(auto)]

use blank_lists::blank_sheet;
use program_io::write_text;
use sheet_files::read_asked;
use stream::texts::events_text;
use stream_lists::blank_events_text;

// As the other two programs of two sheets, but for the text and its list: what a program does stands whole in it.
fn main(rt: HostRuntime) {
    let mut site = blank_sheet();
    let mut steps = blank_sheet();
    let mut out = blank_events_text();
    let in_site = read_asked(&rt, 1, "site.csv", &mut site);
    let in_steps = read_asked(&rt, 2, "steps.csv", &mut steps);
    if let Ok(length) = events_text(&site[..in_site], &steps[..in_steps], &mut out) {
        write_text(&rt, &out, length);
    }
}
