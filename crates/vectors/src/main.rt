// `vectors`: runs numbered pairs of sheets and prints what they are told. The pairs are the files NNNN-site.csv and
// NNNN-steps.csv of the folder that it is run in, from 0000 on; the last pair is the first of which neither file is there. For
// each it prints a line `case NNNN`, a line `site,number,place,second` with what the site sheet is told, the texts of `panel` and
// `where`, and the stream of `events`, if there is one, with CRLF behind it. Behind each text of a steps sheet of at most 1,024 bytes
// stands what a list gives that is one byte too short for it (13, and no byte of the list is altered) and one that is just long enough
// (0, and the text). tests/make-vectors makes the sheets, and from the papers' reference what is expected.
#![tactic(auto)]

use blank_lists::{blank_panel_text, blank_sheet};
use findings::TooShort;
use numbers::Numbered;
use run::texts::{panel_text, where_text};
use sheet_files::read_sheet;
use site::read_site;
use std::fs::Files;
use std::{fs, str};
use stream::texts::events_text;
use stream_lists::blank_events_text;

// The longest steps sheet whose texts also go into lists of their own length, and room for those.
const MOST_SHORT: usize = 1024;

const MOST_LENT: usize = 2048;

// How many pairs four digits can number.
const MOST_CASES: usize = 10000;

// Writes a word, the paper's number of an answer, and a last word with the line's end.
fn write_line(rt: &impl Print, word: &[u8], printed: Result<usize, TooShort>, last: &[u8]) {
    let _ = rt.write_all(word);
    let _ = rt.print(printed.number());
    let _ = rt.write_all(last);
}

// A text into a list of which so many bytes are lent, one too few. `put` puts it into the list that it is lent.
fn write_short<F: Fn(&mut [u8]) -> Result<usize, TooShort>>(rt: &impl Print, put: &F, room: usize)
    requires { F.IsAlwaysCallable put.now }
{
    let mut list = [0; MOST_LENT];
    if MOST_LENT < room {
        return;
    }
    let printed = put(&mut list[..room]);
    if list == [0; MOST_LENT] {
        write_line(rt, b"short,", printed, b"\r\n");
    } else {
        write_line(rt, b"short,", printed, b",altered\r\n");
    }
}

// The same into a list of which as many bytes are lent as the text has.
fn write_exact<F: Fn(&mut [u8]) -> Result<usize, TooShort>>(
    rt: &impl Print,
    put: &F,
    expected: &[u8],
)
    requires { F.IsAlwaysCallable put.now }
{
    let mut list = [0; MOST_LENT];
    let room = expected.len();
    if MOST_LENT < room {
        return;
    }
    let printed = put(&mut list[..room]);
    if &list[..room] == expected {
        write_line(rt, b"exact,", printed, b"\r\n");
    } else {
        write_line(rt, b"exact,", printed, b",differs\r\n");
    }
}

// A text of a short sheet into lists of the text's own length and of one byte less.
fn write_lent<F: Fn(&mut [u8]) -> Result<usize, TooShort>>(
    rt: &impl Print,
    put: &F,
    expected: &[u8],
    is_short: bool,
)
    requires { F.IsAlwaysCallable put.now }
{
    let length = expected.len();
    if 0 < length && is_short {
        write_short(rt, put, length - 1);
        write_exact(rt, put, expected);
    }
}

// A text, and the lists beside it.
fn show<F: Fn(&mut [u8]) -> Result<usize, TooShort>>(rt: &impl Print, put: &F, is_short: bool)
    requires { F.IsAlwaysCallable put.now }
{
    let mut out = blank_panel_text();
    if let Ok(length) = put(&mut out) {
        if let Some(text) = out.get(..length) {
            let _ = rt.write_all(text);
            write_lent(rt, put, text, is_short);
        }
    }
}

// The stream, if there is one, with CRLF behind it, and the lists beside it.
fn show_events<F: Fn(&mut [u8]) -> Result<usize, TooShort>>(
    rt: &impl Print,
    put: &F,
    is_short: bool,
)
    requires { F.IsAlwaysCallable put.now }
{
    let mut out = blank_events_text();
    if let Ok(length) = put(&mut out) {
        if let Some(stream) = out.get(..length) {
            if !stream.is_empty() {
                let _ = rt.write_all(stream);
                let _ = rt.write_all(b"\r\n");
                write_lent(rt, put, stream, is_short);
            }
        }
    }
}

// What the site sheet is told: the paper's number, the place told with it and the second place.
fn write_verdict(rt: &impl Print, site: &[u8]) {
    let read = read_site(site);
    let (place, second) = match read {
        Ok(_) => (0, 0),
        Err(refusal) => (refusal.place(), refusal.second_place()),
    };
    let _ = rt.write_all(b"site,");
    let _ = rt.print(read.number());
    let _ = rt.write_all(b",");
    let _ = rt.print(place);
    let _ = rt.write_all(b",");
    let _ = rt.print(second);
    let _ = rt.write_all(b"\r\n");
}

// What a pair of sheets is told.
fn show_pair(rt: &impl Print, site: &[u8], steps: &[u8]) {
    let is_short = steps.len() <= MOST_SHORT;
    write_verdict(rt, site);
    show(rt, &|out: &mut [u8]| panel_text(site, steps, out), is_short);
    show(rt, &|out: &mut [u8]| where_text(site, steps, out), is_short);
    show_events(
        rt,
        &|out: &mut [u8]| events_text(site, steps, out),
        is_short,
    );
}

fn is_there(rt: &impl Files, name: &str) -> bool {
    fs::open(rt, name).is_ok()
}

// What the sheets of two files are told; answers whether one of the two files is there.
fn run_pair(rt: &(impl Files + Print + Eprint), site_name: &str, steps_name: &str) -> bool {
    let mut site = blank_sheet();
    let mut steps = blank_sheet();
    let in_site = read_sheet(rt, site_name, &mut site);
    let in_steps = read_sheet(rt, steps_name, &mut steps);
    show_pair(rt, &site[..in_site], &steps[..in_steps]);
    is_there(rt, site_name) || is_there(rt, steps_name)
}

// The last decimal digit of a number.
fn digit(n: usize) -> u8 {
    b'0' + (n % 10) as u8
}

// A file's name with the case's number in front.
fn numbered<const N: usize>(n: usize, mut name: [u8; N]) -> [u8; N] {
    for (byte, of) in name.iter_mut().zip([1000, 100, 10, 1]) {
        *byte = digit(n / of);
    }
    name
}

// A name as text, which those of the files are.
fn text_of_name(name: &[u8]) -> &str {
    str::from_utf8(name).unwrap_or("")
}

fn run_case(rt: &(impl Files + Print + Eprint), n: usize) -> bool {
    let site = numbered(n, *b"NNNN-site.csv");
    let steps = numbered(n, *b"NNNN-steps.csv");
    let _ = rt.write_all(b"case ");
    let _ = rt.write_all(&site[..4]);
    let _ = rt.write_all(b"\r\n");
    run_pair(rt, text_of_name(&site), text_of_name(&steps))
}

fn main(rt: HostRuntime) {
    for n in 0..MOST_CASES {
        if !run_case(&rt, n) {
            return;
        }
    }
}
