// The run of two sheets as a syslog stream: the two sheets go in, the whole stream comes out, in a lent list.
//
// `rows` writes the events of a run, row after row; `texts` runs the steps of a sheet and prints their events. The definitions are in the
// crate `stream_text`, in the words of paper 02, C-11.
#![tactic(auto)]

pub mod rows;
pub mod texts;
