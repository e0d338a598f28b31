// What the three-way answer is, printed: F is False, T True, M Maybe, and - a refusal. `stdin` has the lists: on every branch of the worker,
// with both flags on and off, at the end of the list, with and without breaks after Async, and lists that break the entry's checks.
// tests/lookahead.py makes `stdin` and `stdout`; it was written from the rules and arrow.rs and not from this program.
#![tactic(auto)]

ghost use Rattle.std.specs.Prelude.{◌≡◌, length};

use lookahead::Tristate;
use std::io;
use tokens::cause::Cause;
use tokens::kind;

// A row of 22 bytes describes a list: how many kinds and flags it has, the place (255: the largest), whether TypeScript and JSX are on,
// whether every next kind is to be tried, eight kinds and eight flags. The ninth of each is for the next token; no list has more.
#[derive(Clone, Copy)]
struct Row {
    kind_count: usize,
    flag_count: usize,
    at: usize,
    is_ts: bool,
    is_jsx: bool,
    is_open: bool,
    kinds: [u8; 9],
    flags: [u8; 9],
}

impl Row {
    fn from_bytes(bytes: &[u8]) -> Row
        requires { length bytes.now ≡ 22 }
    {
        let mut kinds = [0; 9];
        let mut flags = [0; 9];
        kinds[..8].copy_from_slice(&bytes[6..14]);
        flags[..8].copy_from_slice(&bytes[14..]);
        let place = usize::from(bytes[2]);
        Row {
            kind_count: usize::from(bytes[0]),
            flag_count: usize::from(bytes[1]),
            at: if place == 255 { usize::MAX } else { place },
            is_ts: bytes[3] == 1,
            is_jsx: bytes[4] == 1,
            is_open: bytes[5] == 1,
            kinds,
            flags,
        }
    }

    // The entry's answer for the list, with one more token after its last one if there is a next.
    fn answer(&self, next: Option<u8>) -> Result<Tristate, Cause> {
        let mut kinds = self.kinds;
        let mut more = 0;
        if let Some(k) = next {
            if let Some(after) = kinds.get_mut(self.kind_count) {
                *after = k;
            }
            more = 1;
        }
        lookahead::three_way(
            first(&kinds, self.kind_count.saturating_add(more)),
            first(&self.flags, self.flag_count.saturating_add(more)),
            self.is_ts,
            self.is_jsx,
            self.at,
        )
    }

    // The answer without the checks.
    fn unchecked(&self) -> Tristate {
        lookahead::is_parenthesized_arrow_function_expression(
            first(&self.kinds, self.kind_count),
            first(&self.flags, self.flag_count),
            self.is_ts,
            self.is_jsx,
            self.at,
        )
    }
}

// The first n of a list, or all of it.
fn first(list: &[u8], n: usize) -> &[u8] {
    &list[..n.min(list.len())]
}

fn letter(answer: Tristate) -> u8 {
    match answer {
        Tristate::False => b'F',
        Tristate::True => b'T',
        Tristate::Maybe => b'M',
    }
}

fn answer_letter(answer: Result<Tristate, Cause>) -> u8 {
    answer.map_or(b'-', letter)
}

// The answers at the end of the list, and for each next kind from 1 to 78.
fn letters(row: &Row) -> [u8; 79] {
    let mut line = [answer_letter(row.answer(None)); 79];
    for k in 1..79u8 {
        line[usize::from(k)] = answer_letter(row.answer(Some(k)));
    }
    line
}

fn print_answer(rt: &impl Print, answer: Result<Tristate, Cause>) -> io::Result<()> {
    match answer {
        Ok(told) => rt.write_all(&[letter(told)]),
        Err(cause) => print!(rt; "refused {cause}"),
    }
}

fn print_bytes(rt: &impl Print, bytes: &[u8]) -> io::Result<()> {
    for byte in bytes {
        print!(rt; " {byte}")?;
    }
    Ok(())
}

// The row as it stands: as many bytes as it says, or up to its end.
fn print_row(rt: &impl Print, row: &Row, bytes: &[u8]) -> io::Result<()>
    requires { length bytes.now ≡ 22 }
{
    rt.print("kinds")?;
    print_bytes(rt, first(&bytes[6..], row.kind_count))?;
    rt.print(", flags")?;
    print_bytes(rt, first(&bytes[14..], row.flag_count))?;
    print!(rt; ", at {}", row.at)?;
    if row.is_ts {
        rt.print(", ts")?;
    }
    if row.is_jsx {
        rt.print(", jsx")?;
    }
    rt.print(": ")
}

fn print_answers(rt: &impl Print, row: &Row) -> io::Result<()> {
    if row.is_open {
        rt.write_all(&letters(row))?;
    } else {
        print_answer(rt, row.answer(None))?;
        rt.print(", unchecked ")?;
        rt.write_all(&[letter(row.unchecked())])?;
    }
    rt.println("")
}

fn print_long(rt: &impl Print, kinds: &[u8], flags: &[u8], at: usize) -> io::Result<()> {
    print!(rt; "tokens {}, at {at}: ", kinds.len())?;
    print_answer(rt, lookahead::three_way(kinds, flags, false, false, at))?;
    rt.println("")
}

// 2,048 and 2,049 tokens, the last of kind 0; and 65 open brackets, which are no matter here.
fn print_limits(rt: &impl Print) -> io::Result<()> {
    let kinds = [kind::L_PAREN; 2049];
    let flags = [0u8; 2049];
    print_long(rt, &kinds[..65], &flags[..65], 64)?;
    print_long(rt, &kinds[..2048], &flags[..2048], 2047)?;
    print_long(rt, &kinds, &flags, 2047)?;
    print_long(rt, &flags, &flags, 2047)
}

fn main(rt: HostRuntime) -> io::Result<()> {
    let mut rows = [0u8; 65536];
    let n = input::read_full(&mut rt.stdin(), &mut rows)?;
    for bytes in rows[..n].chunks_exact(22) {
        let row = Row::from_bytes(bytes);
        print_row(&rt, &row, bytes)?;
        print_answers(&rt, &row)?;
    }
    print_limits(&rt)
}
