// What the box prints (RULES F3), written into a lent buffer. A function answers how many bytes of the buffer are written then, and None
// where a byte was lost because the buffer is shorter than the text: it then holds the beginning of the text.
#![tactic(auto)]

ghost use Rattle.std.specs.Prelude.{◌+◌, ◌*◌, ◌≤◌, ◌<◌, ◌≡◌, get_or, [], ◌∷◌, ◌++◌};
ghost use Rattle.text.specs.Text.{decimal, line, line_of, lines_from, text, bad_file};
ghost use Rattle.text.specs.Post.{Prints, Adds};

use tokens::cause::{Answer, Cause, Counts};

const SPACE: u8 = b' ';

const NEWLINE: u8 = b'\n';

// Adds a byte.
fn put(out: &mut [u8], at: usize, byte: u8) -> Option<usize>
    ensures { Adds (byte ∷ []) out.old at out.new result }
{
    if out.len() <= at {
        return None;
    }
    out[at] = byte;
    Some(at + 1)
}

// Adds the bytes of a list.
fn put_all(out: &mut [u8], mut at: usize, bytes: &[u8]) -> Option<usize>
    ensures { Adds bytes.now out.old at out.new result }
{
    for &byte in bytes {
        at = put(out, at, byte)?;
    }
    Some(at)
}

// Adds a decimal number. std's own printing promises nothing of a text that does not fit, and here each byte of the buffer is promised.
fn put_number(out: &mut [u8], at: usize, n: usize) -> Option<usize>
    ensures { Adds (decimal n) out.old at out.new result }
{
    let digit = b'0' + (n % 10) as u8;
    if n < 10 {
        return put(out, at, digit);
    }
    let last = put_number(out, at, n / 10)?;
    put(out, last, digit)
}

// Adds a number and a byte after it.
fn put_ended(out: &mut [u8], at: usize, n: usize, end: u8) -> Option<usize>
    ensures { Adds (decimal n ++ (end ∷ [])) out.old at out.new result }
{
    let after = put_number(out, at, n)?;
    put(out, after, end)
}

// A word of a group of words, in groups of so many; past the end it reads as 0.
fn word(words: &[u32], width: usize, n: usize, i: usize) -> usize
    ensures { result ≡ get_or words.now (width * n + i) 0 }
{
    let at = width.saturating_mul(n).saturating_add(i);
    match words.get(at) {
        Some(&word) => word as usize,
        None => 0,
    }
}

// Adds the line of a group of words.
fn put_line(out: &mut [u8], mut at: usize, words: &[u32], width: usize, n: usize) -> Option<usize>
    requires { 1 ≤ width }
    ensures { Adds (line_of words.now width n) out.old at out.new result }
{
    for i in 0..width - 1 {
        at = put_ended(out, at, word(words, width, n, i), SPACE)?;
    }
    put_ended(out, at, word(words, width, n, width - 1), NEWLINE)
}

// Adds the lines of the first groups of words, and stops where the buffer is full.
fn put_lines(
    out: &mut [u8],
    mut at: usize,
    words: &[u32],
    width: usize,
    count: usize,
) -> Option<usize>
    requires { 1 ≤ width }
    ensures { Adds (lines_from words.now width 0 count) out.old at out.new result }
{
    for n in 0..count {
        at = put_line(out, at, words, width, n)?;
    }
    Some(at)
}

// Adds the line of the three counts.
fn put_counts(out: &mut [u8], at: usize, counts: Counts) -> Option<usize>
    ensures { Adds (line (counts.rows ∷ counts.records ∷ counts.abandoned ∷ [])) out.old at out.new result }
{
    let first = put_ended(out, at, counts.rows, SPACE)?;
    let second = put_ended(out, first, counts.records, SPACE)?;
    put_ended(out, second, counts.abandoned, NEWLINE)
}

// Prints a reading.
fn print_read(out: &mut [u8], counts: Counts, rows: &[u32], records: &[u32]) -> Option<usize>
    ensures { Prints out.old (text (Answer.Read counts) rows.now records.now) out.new result }
{
    let word = put_all(out, 0, b"read ")?;
    let head = put_counts(out, word, counts)?;
    let tree = put_lines(out, head, rows, 6, counts.rows)?;
    put_lines(out, tree, records, 2, counts.records)
}

// Prints a refusal.
fn print_refused(out: &mut [u8], cause: Cause) -> Option<usize>
    ensures { Prints out.old (text (Answer.Refused cause) [] []) out.new result }
{
    let word = put_all(out, 0, b"refused ")?;
    let first = put_ended(out, word, cause.number() as usize, SPACE)?;
    put_ended(out, first, cause.place(), NEWLINE)
}

// Prints an answer with the rows and records that it counts.
pub fn print_answer(out: &mut [u8], answer: Answer, rows: &[u32], records: &[u32]) -> Option<usize>
    ensures { Prints out.old (text answer rows.now records.now) out.new result }
{
    match answer {
        Answer::Read(counts) => print_read(out, counts, rows, records),
        Answer::Refused(cause) => print_refused(out, cause),
    }
}

// Prints that a file is no sheet.
pub fn print_bad_file(out: &mut [u8]) -> Option<usize>
    ensures { Prints out.old bad_file out.new result }
{
    put_all(out, 0, b"bad file\n")
}
