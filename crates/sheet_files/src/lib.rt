// Sheets from files, and a stream from standard input. What goes wrong is said on standard error.
#![tactic(auto)]

mod fault;

ghost use Rattle.std.specs.Prelude.{◌≡◌, IfSome};
ghost use Rattle.io.specs.Counts.{IsPrefixLen};

pub use fault::fail;
use std::env::{Env, FillError};
use std::fs::Files;
use std::io::{Error, Input, Read};
use std::{fs, str};

// So many bytes of an argument are looked at. The system opens no file by a name that is as long.
const MOST_NAME: usize = 4096;

// The system's numbers for no error, and for a name that is no text.
const NO_ERROR: i32 = 0;

const NO_TEXT: i32 = 84;

// Reads until a list is full, the file ends or a read fails. Tells how many bytes lie at the start of the list, and the error of the read
// that failed. A `while`, since a read tells itself how much it read.
fn read_full(file: &mut impl Read, list: &mut [u8]) -> (usize, Option<Error>)
    ensures { IsPrefixLen result.0 list.new }
{
    let mut done = 0;
    while done < list.len() {
        match file.read(&mut list[done..]) {
            Ok(0) => break,
            Ok(count) => done += count,
            Err(error) => return (done, Some(error)),
        }
    }
    (done, None)
}

// Whether a file has come to its end: a read finds nothing, and doesn't fail.
fn at_end(file: &mut impl Read) -> Result<bool, Error> {
    let mut next = [0u8; 1];
    Ok(file.read(&mut next)? == 0)
}

// Puts an open file's bytes at the start of a list and tells how many. What was read is all of the file, or as much as there is room
// for, or else it doesn't count: half a sheet can be a good sheet.
fn read_whole(rt: &impl Eprint, file: &mut impl Read, name: &str, sheet: &mut [u8]) -> usize
    ensures { IsPrefixLen result sheet.new }
{
    let (read, failed) = read_full(file, sheet);
    if read == sheet.len() {
        return read;
    }
    match at_end(file) {
        Ok(true) => return read,
        Ok(false) => fail(
            rt,
            name,
            failed.unwrap_or(Error::from_raw_os_error(NO_ERROR)),
        ),
        Err(error) => fail(rt, name, error),
    }
    0
}

// Puts a file's bytes at the start of a list and tells how many. A file that can't be opened or read counts as empty, and is named
// on standard error.
pub fn read_sheet(rt: &(impl Files + Eprint), name: &str, sheet: &mut [u8]) -> usize
    ensures { IsPrefixLen result sheet.new }
{
    let mut file = match fs::open(rt, name) {
        Ok(file) => file,
        Err(error) => {
            fail(rt, name, error);
            return 0;
        }
    };
    read_whole(rt, &mut file, name, sheet)
}

// The same of the file that the program's argument at a place names, or of another without such an argument. A file whose name is no
// text can't be opened.
pub fn read_asked(
    rt: &(impl Files + Env + Eprint),
    place: usize,
    otherwise: &str,
    sheet: &mut [u8],
) -> usize
    ensures { IsPrefixLen result sheet.new }
{
    let mut name = [0u8; MOST_NAME];
    match rt.arg(place, &mut name) {
        Ok(length) => read_named(rt, &name[..length], sheet),
        Err(FillError::TooLong) => read_sheet(rt, "", sheet),
        Err(FillError::NotPresent) => read_sheet(rt, otherwise, sheet),
    }
}

// The same of a file by the bytes of its name.
fn read_named(rt: &(impl Files + Eprint), name: &[u8], sheet: &mut [u8]) -> usize
    ensures { IsPrefixLen result sheet.new }
{
    match name_in(rt, name) {
        Some(text) => read_sheet(rt, text, sheet),
        None => 0,
    }
}

// A file's name as text. One that is no text is named on standard error: no file can be opened by it.
pub fn name_in<'a>(rt: &impl Eprint, name: &'a [u8]) -> Option<&'a str>
    ensures { IfSome result (λ text. text.now ≡ name.now) }
{
    match str::from_utf8(name) {
        Ok(text) => Some(text),
        Err(_) => {
            fail(rt, name.escape_ascii(), Error::from_raw_os_error(NO_TEXT));
            None
        }
    }
}

// The same of what comes on standard input.
pub fn read_input(rt: &(impl Input + Eprint), stream: &mut [u8]) -> usize
    ensures { IsPrefixLen result stream.new }
{
    read_whole(rt, &mut rt.reader(), "standard input", stream)
}
