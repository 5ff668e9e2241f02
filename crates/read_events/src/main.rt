// `read_events`: reads a syslog stream from standard input and writes its events as rows. The text is proved in the crate
// `stream_rows`; here is only reading and writing.
#![tactic(auto)]

use program_io::write_text;
use sheet_files::read_input;
use stream_lists::{blank_rows_text, blank_stream};
use stream_rows::read_events_text;

fn main(rt: HostRuntime) {
    let mut stream = blank_stream();
    let mut out = blank_rows_text();
    let length = read_input(&rt, &mut stream);
    if let Ok(written) = read_events_text(&stream[..length], &mut out) {
        write_text(&rt, &out, written);
    }
}
