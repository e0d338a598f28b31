// Conversions as their own entry, each on a line: the answer, the kinds of all rows after it, and the record words after it, which
// were 7 before it.
#![tactic(auto)]

ghost use Rattle.std.specs.Prelude.{◌≤◌, length};

use rows::row;
use std::io;
use tokens::cause::Answer;

fn show_answer(rt: &impl Print, answer: Answer) -> io::Result<()> {
    match answer {
        Answer::Read(counts) => print!(rt; "read {counts}"),
        Answer::Refused(cause) => print!(rt; "refused {cause}"),
    }
}

// The kinds of the rows.
fn show_kinds(rt: &impl Print, rows: &[u32]) -> io::Result<()> {
    rt.print(" |")?;
    for row in rows.chunks_exact(6) {
        print!(rt; " {}", row[0])?;
    }
    Ok(())
}

fn show_words(rt: &impl Print, words: &[u32]) -> io::Result<()> {
    rt.print(" |")?;
    for word in words {
        print!(rt; " {word}")?;
    }
    Ok(())
}

// Converts a row of a tree, with room for so many record words, and shows what came of it.
fn try_row(rt: &impl Print, tree: &mut [u32], row: usize, room: usize) -> io::Result<()>
    requires { room ≤ 14 }
{
    let mut records = [7u32; 14];
    let records = &mut records[..room];
    let answer = targets::convert(tree, row, records);
    show_answer(rt, answer)?;
    show_kinds(rt, tree)?;
    show_words(rt, records)?;
    rt.println("")
}

// The sheets P1 and P4 to P8 of docs/RULES.md.
fn sheets(rt: &impl Print) -> io::Result<()> {
    // P1: `[a, b]`
    try_row(
        rt,
        &mut [1, 1, 1, 2, 0, 1, 1, 3, 3, 4, 0, 1, 5, 0, 0, 5, 2, 3],
        2,
        6,
    )?;
    // P4: `((a))`
    try_row(
        rt,
        &mut [1, 2, 2, 3, 0, 1, 4, 1, 1, 4, 1, 2, 4, 0, 0, 5, 1, 3],
        2,
        6,
    )?;
    // P5: `({a})`
    try_row(
        rt,
        &mut [
            1, 2, 2, 3, 0, 1, 11, 2, 2, 3, 1, 2, 7, 1, 1, 4, 1, 3, 4, 0, 0, 5, 1, 4,
        ],
        3,
        8,
    )?;
    // P6: `{...[a]}`
    try_row(
        rt,
        &mut [
            1, 3, 3, 4, 0, 1, 5, 2, 2, 5, 1, 2, 10, 1, 1, 5, 1, 3, 7, 0, 0, 6, 1, 4,
        ],
        3,
        8,
    )?;
    // P7: `[...a,]`
    try_row(
        rt,
        &mut [1, 2, 2, 3, 0, 1, 10, 1, 1, 3, 1, 2, 6, 0, 0, 5, 1, 3],
        2,
        6,
    )?;
    // P8: `[...a, b]`
    try_row(
        rt,
        &mut [
            1, 2, 2, 3, 0, 1, 10, 1, 1, 3, 1, 2, 1, 4, 4, 5, 0, 1, 5, 0, 0, 6, 2, 4,
        ],
        3,
        8,
    )
}

// The order of elements, defaults and shorthands (RULES C5 to C10).
fn elements(rt: &impl Print) -> io::Result<()> {
    // `[a = 1]`, and `[(a = 1)]`, which is no default
    try_row(
        rt,
        &mut [
            40, 1, 1, 2, 0, 1, 3, 3, 3, 4, 0, 1, 25, 2, 1, 4, 2, 3, 5, 0, 0, 5, 1, 4,
        ],
        3,
        8,
    )?;
    try_row(
        rt,
        &mut [
            40, 2, 2, 3, 0, 1, 3, 4, 4, 5, 0, 1, 25, 3, 2, 5, 2, 3, 4, 1, 1, 6, 1, 4, 5, 0, 0, 7,
            1, 5,
        ],
        4,
        10,
    )?;
    // `[a += 1]`
    try_row(
        rt,
        &mut [
            40, 1, 1, 2, 0, 1, 3, 3, 3, 4, 0, 1, 26, 2, 1, 4, 2, 3, 5, 0, 0, 5, 1, 4,
        ],
        3,
        8,
    )?;
    // `{a, b = 1}`
    try_row(
        rt,
        &mut [
            1, 1, 1, 2, 0, 1, 11, 1, 1, 2, 1, 2, 1, 3, 3, 4, 0, 1, 3, 5, 5, 6, 0, 1, 12, 4, 3, 6,
            2, 3, 7, 0, 0, 7, 2, 6,
        ],
        5,
        12,
    )?;
    // `{[c]: d = 1}`
    try_row(
        rt,
        &mut [
            1, 2, 2, 3, 0, 1, 15, 1, 1, 4, 1, 2, 40, 5, 5, 6, 0, 1, 3, 7, 7, 8, 0, 1, 25, 6, 5, 8,
            2, 3, 13, 1, 1, 8, 2, 6, 7, 0, 0, 9, 1, 7,
        ],
        6,
        14,
    )?;
    // `[, a.b, c[d]]`
    try_row(
        rt,
        &mut [
            9, 1, 1, 2, 0, 1, 1, 2, 2, 3, 0, 1, 16, 4, 2, 5, 1, 2, 1, 6, 6, 7, 0, 1, 1, 8, 8, 9, 0,
            1, 17, 6, 6, 10, 2, 3, 5, 0, 0, 11, 3, 7,
        ],
        6,
        14,
    )?;
    // `[1, ...a, b]` and `[...1, 2]`
    try_row(
        rt,
        &mut [
            3, 1, 1, 2, 0, 1, 1, 4, 4, 5, 0, 1, 10, 3, 3, 5, 1, 2, 1, 6, 6, 7, 0, 1, 5, 0, 0, 8, 3,
            5,
        ],
        4,
        10,
    )?;
    try_row(
        rt,
        &mut [
            3, 2, 2, 3, 0, 1, 10, 1, 1, 3, 1, 2, 3, 4, 4, 5, 0, 1, 5, 0, 0, 6, 2, 4,
        ],
        3,
        8,
    )?;
    // `{...[...a,],}` and `[...[...a,],]`
    try_row(
        rt,
        &mut [
            1, 4, 4, 5, 0, 1, 10, 3, 3, 5, 1, 2, 6, 2, 2, 7, 1, 3, 10, 1, 1, 7, 1, 4, 8, 0, 0, 9,
            1, 5,
        ],
        4,
        10,
    )?;
    try_row(
        rt,
        &mut [
            1, 4, 4, 5, 0, 1, 10, 3, 3, 5, 1, 2, 6, 2, 2, 7, 1, 3, 10, 1, 1, 7, 1, 4, 6, 0, 0, 9,
            1, 5,
        ],
        4,
        10,
    )
}

// Rows inside a tree: the array of `f([a])`, whose parent stays, and the rows of `[a] = b`.
fn inside(rt: &impl Print) -> io::Result<()> {
    try_row(
        rt,
        &mut [
            1, 0, 0, 1, 0, 1, 1, 3, 3, 4, 0, 1, 5, 2, 2, 5, 1, 2, 18, 0, 0, 6, 2, 4,
        ],
        2,
        8,
    )?;
    for row in 0..4 {
        try_row(
            rt,
            &mut [
                40, 1, 1, 2, 0, 1, 42, 0, 0, 3, 1, 2, 1, 4, 4, 5, 0, 1, 25, 3, 0, 5, 2, 4,
            ],
            row,
            8,
        )?;
    }
    Ok(())
}

// The first words of `[a, b]`.
fn try_part(rt: &impl Print, words: usize, row: usize, room: usize) -> io::Result<()>
    requires words { words ≤ 18 }
    requires room { room ≤ 14 }
{
    let mut tree = [1, 1, 1, 2, 0, 1, 1, 3, 3, 4, 0, 1, 5, 0, 0, 5, 2, 3];
    try_row(rt, &mut tree[..words], row, room)
}

// The checks 1, 13, 14 and 4, the last by one record word.
fn checks(rt: &impl Print) -> io::Result<()> {
    try_part(rt, 0, 0, 6)?;
    try_part(rt, 17, 2, 6)?;
    try_part(rt, 12, 1, 6)?;
    try_part(rt, 18, 3, 6)?;
    try_part(rt, 18, usize::MAX, 0)?;
    try_part(rt, 18, 2, 5)?;
    try_part(rt, 18, 0, 1)?;
    try_part(rt, 18, 0, 2)
}

// 2,047 names in one Array.
fn names(tree: &mut [u32; 12288]) {
    for n in 0..2047 {
        rows::push_row(tree, n, row::IDENTIFIER, n, n, n + 1, 0, 1);
    }
    rows::push_row(tree, 2047, row::ARRAY, 0, 0, 2048, 2047, 2048);
}

// 2,047 rows of two kinds in turn, each over the one before it, over a name.
fn nested(tree: &mut [u32; 12288], odd: u32, even: u32) {
    rows::push_row(tree, 0, row::IDENTIFIER, 0, 0, 1, 0, 1);
    for n in 1..2048 {
        let kind = if n % 2 == 1 { odd } else { even };
        rows::push_row(tree, n, kind, n, n, n + 1, 1, n + 1);
    }
}

// Converts a row of a large tree, and shows the kinds of its first and last rows, and the first and last record words.
fn try_large(
    rt: &impl Print,
    tree: &mut [u32; 12288],
    row: usize,
    records: &mut [u32],
) -> io::Result<()>
    requires { 4088 ≤ length records.old }
{
    let answer = targets::convert(tree, row, records);
    show_answer(rt, answer)?;
    show_kinds(rt, &tree[..18])?;
    show_kinds(rt, &tree[12270..])?;
    show_words(rt, &records[..6])?;
    show_words(rt, &records[4088..])?;
    rt.println("")
}

// 2,048 rows at once: as many kids, Parens in Parens, and rests in rests, each of which gives records; one record word too few.
fn large(rt: &impl Print) -> io::Result<()> {
    let mut tree = [0u32; 12288];
    let mut records = [7u32; 4096];
    let mut few = [7u32; 4095];
    names(&mut tree);
    try_large(rt, &mut tree, 2047, &mut few)?;
    try_large(rt, &mut tree, 2047, &mut records)?;
    nested(&mut tree, row::PAREN, row::PAREN);
    try_large(rt, &mut tree, 2047, &mut records)?;
    nested(&mut tree, row::SPREAD, row::OBJECT_REST_COMMA);
    try_large(rt, &mut tree, 2046, &mut records)?;
    nested(&mut tree, row::UNARY, row::PAREN);
    try_large(rt, &mut tree, 2046, &mut records)
}

// One row more than there may be.
fn too_large(rt: &impl Print) -> io::Result<()> {
    let mut tree = [0u32; 12294];
    let mut records = [7u32; 2];
    let answer = targets::convert(&mut tree, 0, &mut records);
    show_answer(rt, answer)?;
    show_words(rt, &records)?;
    rt.println("")
}

fn main(rt: HostRuntime) -> io::Result<()> {
    sheets(&rt)?;
    elements(&rt)?;
    inside(&rt)?;
    checks(&rt)?;
    large(&rt)?;
    too_large(&rt)
}
