// Lists of zeros that the programs lend: for a stream that is read, for the stream that `events` prints, and for the text of `read-events`.
// They are not one function of a size, since each promises the size that its list has to have.
#![tactic(auto)]

ghost use Rattle.std.specs.Prelude.{◌+◌, ◌≡◌, replicate};
ghost use Rattle.syslog.specs.Rows.{most_stream};
ghost use Rattle.stream_lists.specs.{most_events_text, most_rows_text};

use stream_rows::MOST_STREAM;

// One byte more than a stream may have, so that a longer one is seen to be longer.
pub const STREAM_ROOM: usize = MOST_STREAM + 1;

// A list of zeros for a stream that is read.
pub fn blank_stream() -> [u8; STREAM_ROOM]
    ensures { result ≡ replicate (most_stream + 1) 0 }
{
    [0; STREAM_ROOM]
}

// Room for every stream that `events` prints, and for every text of `read-events`: `events_fits` and `read_events_fits` of
// crates/demands/specs/DemandOne.antt say so.
pub const MOST_EVENTS_TEXT: usize = 356352;

pub const MOST_ROWS_TEXT: usize = 524352;

// A list for the stream of `events`.
pub fn blank_events_text() -> [u8; MOST_EVENTS_TEXT]
    ensures { result ≡ replicate most_events_text 0 }
{
    [0; MOST_EVENTS_TEXT]
}

// A list for a text of `read-events`.
pub fn blank_rows_text() -> [u8; MOST_ROWS_TEXT]
    ensures { result ≡ replicate most_rows_text 0 }
{
    [0; MOST_ROWS_TEXT]
}
