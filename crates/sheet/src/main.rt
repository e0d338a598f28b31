// Prints what the box shows for a sheet file (RULES F): that of the file which the first argument names, or that of
// standard input where there is none. What it prints is `printout::print_file`'s; here files are opened, read and written.
#![tactic(auto)]

ghost use Rattle.std.specs.Prelude.{◌≤◌, length, IfOk};

use std::env::FillError;
use std::fs::File;
use std::io;
use std::io::Read;
use std::rt::Env;

// The system's number for a name that is too long.
const ENAMETOOLONG: i32 = 36;

// Reads up to the end of the input, and no further than the buffer goes, and tells how many bytes came. As `input::read_full` of the tests does; it stays,
// for the wrong program `read_file_whole` is one of this function.
fn read_file(input: &mut impl Read, file: &mut [u8]) -> io::Result<usize>
    ensures { IfOk result (λ n. n ≤ length file.new) }
{
    let mut at = 0;
    while at < file.len() {
        let n = input.read(&mut file[at..])?;
        if n == 0 {
            return Ok(at);
        }
        at += n;
    }
    Ok(at)
}

// The system's words for an error, without the number that stands after them.
fn words_of(text: &str) -> &str {
    text.split_once(" (os error ")
        .map_or(text, |(words, _)| words)
}

// Says on standard error why something failed.
fn fail(rt: &(impl Eprint + Alloc), what: &str, error: io::Error) -> io::Result<()> {
    let text = format!(in rt.alloc(); "{error}")?;
    let why = words_of(text.as_str());
    eprintln!(rt; "sheet: {what}: {why}")
}

fn write(rt: &(impl Print + Eprint + Alloc), text: &[u8]) -> io::Result<()> {
    rt.write_all(text)
        .or_else(|error| fail(rt, "standard output", error))
}

// Prints what the box shows for the bytes of a file. `print_file` promises that no text is longer than the buffer.
fn print_bytes(rt: &(impl Print + Eprint + Alloc), bytes: &[u8]) -> io::Result<()> {
    let mut rows = [0u32; 12288];
    let mut records = [0u32; 4096];
    let mut out = [0u8; 180244];
    match printout::print_file(bytes, &mut rows, &mut records, &mut out) {
        Some(n) => write(rt, &out[..n]),
        None => rt.eprintln("sheet: the text is too long"),
    }
}

// Prints what the box shows for the file that an input has. One byte more than the longest sheet file has is read: a file that goes on is
// no sheet's, whatever follows.
fn print_input(
    rt: &(impl Print + Eprint + Alloc),
    input: &mut impl Read,
    name: &str,
) -> io::Result<()> {
    let mut file = [0u8; 8205];
    match read_file(input, &mut file) {
        Ok(n) => print_bytes(rt, &file[..n]),
        Err(error) => fail(rt, name, error),
    }
}

// Prints what the box shows for the file of a name.
fn print_named(rt: &HostRuntime, name: &str) -> io::Result<()> {
    match File::open(rt, name) {
        Ok(mut file) => print_input(rt, &mut file, name),
        Err(error) => fail(rt, name, error),
    }
}

// Whether the program was started with an argument of this place; the place 0 has its own name.
fn is_given(rt: &impl Env, place: usize) -> bool {
    let mut start = [0u8; 1];
    !matches!(rt.arg(place, &mut start), Err(FillError::NotPresent))
}

fn main(rt: HostRuntime) -> io::Result<()> {
    if !is_given(&rt, 1) {
        return print_input(&rt, &mut rt.stdin(), "standard input");
    }
    if is_given(&rt, 2) {
        return rt.eprintln("usage: sheet [FILE]");
    }
    let mut name = [0u8; 4096];
    let Ok(n) = rt.arg(1, &mut name) else {
        let error = io::Error::from_raw_os_error(ENAMETOOLONG);
        return fail(&rt, "the file's name", error);
    };
    match str::from_utf8(&name[..n]) {
        Ok(name) => print_named(&rt, name),
        Err(_) => rt.eprintln("sheet: the file's name: not UTF-8"),
    }
}
