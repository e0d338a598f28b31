// What `tokens` answers, printed: the classes of all 256 bytes, what stands at a place, the causes, and the checks of the lists that
// `stdin` describes. tests/tokens.py makes `stdin` and `stdout`; it was written from the rules and not from this program.
#![tactic(auto)]

ghost use Rattle.std.specs.Prelude.{◌≤◌, length, IfSome};

use std::io;
use tokens::cause::Cause;
use tokens::{checks, classes};

// The classes of a byte: name, word, literal, and the three-way answer's name and modifier. 1 or 0 each.
fn print_classes(rt: &impl Print, k: u8) -> io::Result<()> {
    let told = [
        classes::is_name(k),
        classes::is_word(k),
        classes::is_literal(k),
        classes::is_binding_identifier(k),
        classes::is_modifier_kind(k),
    ]
    .map(|test| u8::from(test));
    println!(rt;
        "byte {k}: {}{}{}{}{}",
        told[0], told[1], told[2], told[3], told[4]
    )
}

// A range, and whether 0, 7, 8, 13, 14, 255 are in it.
fn print_range(rt: &impl Print, low: u8, high: u8) -> io::Result<()> {
    let told = [0, 7, 8, 13, 14, 255].map(|k| u8::from(classes::between(low, high, k)));
    println!(rt;
        "range {low} to {high}: {}{}{}{}{}{}",
        told[0], told[1], told[2], told[3], told[4], told[5]
    )
}

// What stands at a place of the list 7 1 9, and `more` places after it, as a kind and as a flag.
fn print_place(rt: &impl Print, at: usize, more: usize) -> io::Result<()> {
    let bytes = b"\x07\x01\x09";
    let kind = tokens::kind_at(bytes, at);
    let flag = tokens::flag_at(bytes, at);
    let kind_after = tokens::kind_after(bytes, at, more);
    let flag_after = tokens::flag_after(bytes, at, more);
    println!(rt; "place {at} and {more} more: {kind} {flag} {kind_after} {flag_after}")
}

fn all_places(rt: &impl Print) -> io::Result<()> {
    for (at, more) in [
        (0, 0),
        (0, 2),
        (1, 1),
        (2, 1),
        (3, 0),
        (1, usize::MAX),
        (usize::MAX, 1),
        (usize::MAX, usize::MAX),
    ] {
        print_place(rt, at, more)?;
    }
    Ok(())
}

// A cause of each number, with the place 100 more.
fn all_causes(rt: &impl Print) -> io::Result<()> {
    for cause in [
        Cause::Length(101),
        Cause::FlagLength(102),
        Cause::RowRoom(103),
        Cause::RecordRoom(104),
        Cause::Flag(105),
        Cause::Kind(106),
        Cause::Nesting(107),
        Cause::Unexpected(108),
        Cause::Target(109),
        Cause::Spread(110),
        Cause::RestName(111),
        Cause::RestLast(112),
        Cause::Tree(113),
        Cause::Outside(114),
    ] {
        println!(rt; "cause {cause}")?;
    }
    Ok(())
}

// A part of a list: so many times a byte.
#[derive(Clone, Copy)]
struct Run {
    count: u16,
    byte: u8,
}

// A row of 28 bytes describes a list: four runs of kinds and three of flags, each a count and a byte, as numbers of two bytes.
fn run_of(row: &[u8], n: usize) -> Run
    requires { n ≤ 6 }
{
    let number = |at: usize| u16::from_le_bytes([
        tokens::kind_at(row, at),
        tokens::kind_after(row, at, 1),
    ]);
    Run {
        count: number(4 * n),
        byte: u8::try_from(number(4 * n + 2)).unwrap_or(0),
    }
}

// Writes the runs from one to another, and tells how long the list is then, if it has the room.
fn put_runs(list: &mut [u8], row: &[u8], from: usize, to: usize) -> Option<usize>
    requires { to ≤ 7 }
    ensures { IfSome result (λ n. n ≤ length list.new) }
{
    let mut at = 0;
    for n in from..to {
        let run = run_of(row, n);
        let end = at + run.count as usize;
        if list.len() < end {
            return None;
        }
        list[at..end].fill(run.byte);
        at = end;
    }
    Some(at)
}

fn print_runs(rt: &impl Print, row: &[u8], from: usize, to: usize) -> io::Result<()>
    requires { to ≤ 7 }
{
    for n in from..to {
        let run = run_of(row, n);
        if run.count != 0 {
            print!(rt; " {}*{}", run.count, run.byte)?;
        }
    }
    Ok(())
}

// What a check finds.
fn print_checked(rt: &impl Print, label: &str, checked: Result<(), Cause>) -> io::Result<()> {
    match checked {
        Ok(()) => print!(rt; "{label} fine"),
        Err(cause) => print!(rt; "{label} refused {cause}"),
    }
}

// All checks of a list, each by itself.
fn print_checks(rt: &impl Print, kinds: &[u8], flags: &[u8]) -> io::Result<()> {
    print_checked(rt, ": length", checks::check_length(kinds))?;
    print_checked(rt, ", flag length", checks::check_flag_length(kinds, flags))?;
    print_checked(rt, ", flags", checks::check_flags(flags))?;
    print_checked(rt, ", kinds", checks::check_kinds(kinds))?;
    print_checked(rt, ", nesting", checks::check_nesting(kinds))?;
    rt.println("")
}

fn print_list(rt: &impl Print, row: &[u8]) -> io::Result<()> {
    let mut kinds = [0u8; 2049];
    let mut flags = [0u8; 2049];
    let Some(tokens) = put_runs(&mut kinds, row, 0, 4) else {
        return Ok(());
    };
    let Some(breaks) = put_runs(&mut flags, row, 4, 7) else {
        return Ok(());
    };
    print_checks(rt, &kinds[..tokens], &flags[..breaks])
}

fn print_row(rt: &impl Print, row: &[u8]) -> io::Result<()> {
    rt.print("kinds")?;
    print_runs(rt, row, 0, 4)?;
    rt.print(", flags")?;
    print_runs(rt, row, 4, 7)?;
    print_list(rt, row)
}

fn main(rt: HostRuntime) -> io::Result<()> {
    for k in 0..=255 {
        print_classes(&rt, k)?;
    }
    for (low, high) in [(8, 13), (0, 255), (13, 8), (8, 8)] {
        print_range(&rt, low, high)?;
    }
    all_places(&rt)?;
    all_causes(&rt)?;
    let mut rows = [0u8; 4096];
    let n = input::read_full(&mut rt.stdin(), &mut rows)?;
    for row in rows[..n].chunks_exact(28) {
        print_row(&rt, row)?;
    }
    Ok(())
}
