// `syslog_cases`: writes events as lines and as frames, and reads texts back. tests/make-syslog-cases makes the texts, and from the
// papers' reference what is expected.
//
// First 2500 events are written, each as a line and as a frame. A row tells the form, the number for a list of 64 bytes, the length
// told, whether the list was altered behind that, the number for a list of just that length, the number for one a byte shorter, whether
// that one was altered, and the text. Then each line of the file `cases` is read: as a line, as a stream from its front on, and as a
// frame behind its end.
#![tactic(auto)]

mod read;
mod write;

use read::read_cases;
use write::write_events;

fn main(rt: HostRuntime) {
    write_events(&rt);
    read_cases(&rt);
}
