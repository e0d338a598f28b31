// What the reader answers, printed. `stdin` has sheets, each after twelve bytes: the entry (0 read, 1 pattern), what to print (1 the kinds of
// the rows, 2 the records, 4 the abandoned count, 8 all words of the rows, 16 a sum over them), and five numbers, low byte first: how many
// kinds and flags there are, how many words of rows and of records are lent, and 0.
// tests/reader.py makes `stdin` and `stdout`; it was written from the rules and shares nothing with the reader.
#![tactic(auto)]

ghost use Rattle.std.specs.Prelude.{◌≤◌};

use std::io;
use std::io::Read;
use tokens::cause::{Answer, Counts};

// What to print of a reading, a bit each.
const KINDS: u8 = 1;

const RECORDS: u8 = 2;

const ABANDONED: u8 = 4;

const ROWS: u8 = 8;

const SUM: u8 = 16;

// Two bytes of a sheet's head as a number, or the limit where that is less.
fn number(head: &[u8; 12], at: usize, limit: usize) -> usize
    requires { at ≤ 10 }
    ensures { result ≤ limit }
{
    usize::from(u16::from_le_bytes([head[at], head[at + 1]])).min(limit)
}

// Whether all words from a place on have this value.
fn all(words: &[u32], from: usize, value: u32) -> bool {
    words.iter().skip(from).all(|word| *word == value)
}

// The kinds of the first n rows.
fn print_kinds(rt: &impl Print, rows: &[u32], n: usize) -> io::Result<()> {
    rt.print(" K")?;
    for row in rows.chunks_exact(6).take(n) {
        print!(rt; " {}", row[0])?;
    }
    Ok(())
}

// The first n records, as number@place.
fn print_records(rt: &impl Print, records: &[u32], n: usize) -> io::Result<()> {
    rt.print(" R")?;
    for record in records.chunks_exact(2).take(n) {
        print!(rt; " {}@{}", record[0], record[1])?;
    }
    Ok(())
}

// The first n rows, a line each, as the sheet program prints them.
fn print_rows(rt: &impl Print, rows: &[u32], n: usize) -> io::Result<()> {
    for row in rows.chunks_exact(6).take(n) {
        print!(rt;
            "\n{} {} {} {} {} {}",
            row[0], row[1], row[2], row[3], row[4], row[5]
        )?;
    }
    Ok(())
}

// A sum over all words in which each place counts.
fn print_sum(rt: &impl Print, words: &[u32]) -> io::Result<()> {
    let mut sum: usize = 7;
    for &word in words {
        sum = (sum * 31 + word as usize) % 4294967291;
    }
    print!(rt; " sum {sum}")
}

// What was read, as much of it as is asked for.
fn print_read(
    rt: &impl Print,
    what: u8,
    counts: Counts,
    rows: &[u32],
    records: &[u32],
) -> io::Result<()> {
    rt.print("read")?;
    if what & (ROWS | SUM) != 0 {
        print!(rt; " {}", counts.rows)?;
    }
    if what & ABANDONED != 0 {
        print!(rt; " A {}", counts.abandoned)?;
    }
    if what & KINDS != 0 {
        print_kinds(rt, rows, counts.rows)?;
    }
    if what & RECORDS != 0 {
        print_records(rt, records, counts.records)?;
    }
    if what & SUM != 0 {
        print_sum(rt, rows)?;
    }
    if what & ROWS != 0 {
        print_rows(rt, rows, counts.rows)?;
    }
    Ok(())
}

// Says of a buffer that it does not hold this value in every word from a place on.
fn print_left(
    rt: &impl Print,
    rows: &[u32],
    from_row: usize,
    records: &[u32],
    from_record: usize,
    value: u32,
) -> io::Result<()> {
    if !all(rows, from_row.saturating_mul(6), value) {
        rt.print(" rows left")?;
    }
    if !all(records, from_record.saturating_mul(2), value) {
        rt.print(" records left")?;
    }
    Ok(())
}

fn print_answer(
    rt: &impl Print,
    what: u8,
    answer: Answer,
    rows: &[u32],
    records: &[u32],
) -> io::Result<()> {
    match answer {
        Answer::Read(counts) => {
            print_read(rt, what, counts, rows, records)?;
            // the words past the used ones are 0
            print_left(rt, rows, counts.rows, records, counts.records, 0)?;
        }
        Answer::Refused(cause) => {
            print!(rt; "refused {cause}")?;
            // both buffers hold what they held, or nothing
            let value = if cause.number() < 8 { 9 } else { 0 };
            print_left(rt, rows, 0, records, 0, value)?;
        }
    }
    rt.println("")
}

// Reads the next sheet, in buffers of exactly so many words that hold 9 each, and prints what comes of it.
fn print_sheet(rt: &impl Print, input: &mut impl Read, head: &[u8; 12]) -> io::Result<()> {
    let mut kinds = [0u8; 4096];
    let mut flags = [0u8; 4096];
    let mut rows = [9u32; 12300];
    let mut records = [9u32; 4100];
    let kinds = &mut kinds[..number(head, 2, 4096)];
    let flags = &mut flags[..number(head, 4, 4096)];
    let rows = &mut rows[..number(head, 6, 12300)];
    let records = &mut records[..number(head, 8, 4100)];
    input::read_full(input, kinds)?;
    input::read_full(input, flags)?;
    let answer = if head[0] == 1 {
        reader::pattern(kinds, flags, rows, records)
    } else {
        reader::read(kinds, flags, rows, records)
    };
    print_answer(rt, head[1], answer, rows, records)
}

fn main(rt: HostRuntime) -> io::Result<()> {
    let mut input = rt.stdin();
    let mut head = [0u8; 12];
    for _ in 0..4096 {
        if input::read_full(&mut input, &mut head)? < head.len() {
            break;
        }
        print_sheet(&rt, &mut input, &head)?;
    }
    Ok(())
}
