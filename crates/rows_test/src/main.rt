// Trees that are well-formed and trees that are not, each on a line of its own: 1 or 0, how many words the subtree of a row has, and
// the kind of that row (0 if there are no words).
#![tactic(auto)]

ghost use Rattle.std.specs.Prelude.{◌≤◌, length};

use std::io;

// A line of the output.
fn show(rt: &impl Print, tree: &[u32], row: usize) -> io::Result<()> {
    let is_tree = u8::from(trees::well_formed(tree));
    let part = trees::subtree(tree, row);
    let kind = match part.len() / 6 {
        0 => 0,
        count => rows::row_word(part, count - 1, 0),
    };
    println!(rt; "{is_tree} {} {kind}", part.len())
}

// `[a, b] = c`
const ASSIGNED: [u32; 30] = [
    40, 1, 1, 2, 0, 1, 40, 3, 3, 4, 0, 1, 42, 0, 0, 5, 2, 3, 1, 6, 6, 7, 0, 1, 25, 5, 0, 7, 2, 5,
];

// `((a)) = b`
const PARENTHESIZED: [u32; 30] = [
    40, 2, 2, 3, 0, 1, 41, 1, 1, 4, 1, 2, 41, 0, 0, 5, 1, 3, 1, 6, 6, 7, 0, 1, 25, 5, 0, 7, 2, 5,
];

// A line of the output, of the first words of a tree.
fn show_first(rt: &impl Print, tree: &[u32], words: usize, row: usize) -> io::Result<()>
    requires { words ≤ length tree.now }
{
    show(rt, &tree[..words], row)
}

// A row over a row over a row.
fn chain(rt: &impl Print, first: u32, second: u32, third: u32) -> io::Result<()> {
    let tree = [
        first, 0, 0, 0, 0, 1, second, 0, 0, 0, 1, 2, third, 0, 0, 0, 1, 3,
    ];
    show(rt, &tree, 1)
}

// A row over a row over two.
fn fork(rt: &impl Print, left: u32, right: u32, second: u32, third: u32) -> io::Result<()> {
    let tree = [
        left, 0, 0, 0, 0, 1, right, 0, 0, 0, 0, 1, second, 0, 0, 0, 2, 3, third, 0, 0, 0, 1, 4,
    ];
    show(rt, &tree, 2)
}

// Unary over Unary, as many as there is room for, over an Identifier.
fn unary() -> [u32; 12294] {
    let mut tree = [0; 12294];
    rows::push_row(&mut tree, 0, rows::row::IDENTIFIER, 0, 0, 1, 0, 1);
    for n in 1..2049 {
        rows::push_row(&mut tree, n, rows::row::UNARY, 0, 0, 1, 1, n + 1);
    }
    tree
}

// The two trees, at each of their rows and outside.
fn whole(rt: &impl Print) -> io::Result<()> {
    for row in [0, 1, 2, 3, 4, 5, usize::MAX] {
        show(rt, &ASSIGNED, row)?;
    }
    show(rt, &PARENTHESIZED, 2)?;
    show(rt, &PARENTHESIZED, 4)
}

// `[a, b] = c` with one word changed: kinds, kid counts, sizes, kids of other kinds, and words that are not looked at.
fn damaged(rt: &impl Print) -> io::Result<()> {
    for (at, word) in [
        (0, 0),
        (0, 37),
        (0, 51),
        (0, 4294967295),
        (16, 1),
        (16, 3),
        (16, 4294967295),
        (17, 0),
        (17, 2),
        (17, 4),
        (17, 4294967295),
        (29, 4),
        (29, 6),
        (12, 5),
        (0, 1),
        (18, 40),
        (18, 27),
        (18, 3),
        (1, 4294967295),
        (26, 9),
    ] {
        let mut tree = ASSIGNED;
        if let Some(place) = tree.get_mut(at) {
            *place = word;
        }
        show(rt, &tree, 4)?;
    }
    Ok(())
}

// A forest, and lengths that are no multiple of 6.
fn lengths(rt: &impl Print) -> io::Result<()> {
    show_first(rt, &ASSIGNED, 24, 3)?;
    show_first(rt, &ASSIGNED, 18, 2)?;
    show_first(rt, &ASSIGNED, 29, 2)?;
    show_first(rt, &ASSIGNED, 6, 0)?;
    show_first(rt, &ASSIGNED, 5, 0)?;
    show_first(rt, &ASSIGNED, 0, 0)
}

// Rests, properties and closing spreads.
fn shapes(rt: &impl Print) -> io::Result<()> {
    for (first, second, third) in [
        (30, 33, 32),
        (30, 33, 31),
        (31, 33, 32),
        (31, 33, 31),
        (30, 33, 28),
        (1, 10, 5),
        (1, 10, 6),
        (1, 4, 6),
        (1, 10, 8),
        (40, 41, 20),
        (42, 41, 20),
    ] {
        chain(rt, first, second, third)?;
    }
    for (left, right, second, third) in [
        (14, 1, 13, 7),
        (14, 30, 13, 7),
        (14, 1, 13, 32),
        (14, 30, 13, 32),
        (30, 7, 28, 4),
        (30, 1, 28, 4),
        (33, 1, 28, 4),
        (1, 1, 27, 4),
        (1, 1, 27, 10),
    ] {
        fork(rt, left, right, second, third)?;
    }
    Ok(())
}

// The longest tree, one row more, and one word less.
fn longest(rt: &impl Print) -> io::Result<()> {
    let tree = unary();
    show_first(rt, &tree, 12288, 2046)?;
    show(rt, &tree, 2046)?;
    show_first(rt, &tree, 12287, 2046)
}

fn main(rt: HostRuntime) -> io::Result<()> {
    whole(&rt)?;
    damaged(&rt)?;
    lengths(&rt)?;
    shapes(&rt)?;
    longest(&rt)
}
