// The public entries for programs in C and Rust, on numbers and slices. What an entry returns is 0, or the number that RULES A gives a
// refusal; what it tells beside that it writes to the words that are lent for it. Numbers and not enums, and a function for each entry: the C interface.
#![tactic(auto)]

ghost use Rattle.std.specs.Prelude.{◌≡◌};
ghost use Rattle.operators.specs.Precedence.{level, expression_level};
ghost use Rattle.lookahead.specs.Entry.{three_way_entry};
ghost use Rattle.grammar.specs.Told.{Told, tristate_number, ToldThreeWay, ToldRead, ToldPattern, ToldConvert, ToldSubtree};

use lookahead::Tristate;
use tokens::cause::Answer;

// An answer as numbers: 0 and the counts of rows, records and abandoned heads; or the refusal's number, its place, 0 and 0.
fn tell(answer: Answer, first: &mut usize, second: &mut usize, third: &mut usize) -> u32
    ensures { Told answer first.new second.new third.new result }
{
    match answer {
        Answer::Read(counts) => {
            *first = counts.rows;
            *second = counts.records;
            *third = counts.abandoned;
            0
        }
        Answer::Refused(cause) => {
            *first = cause.place();
            *second = 0;
            *third = 0;
            cause.number()
        }
    }
}

// The reader.
#[unsafe(no_mangle)]
pub extern "C" fn vuolmaset_read(
    kinds: &[u8],
    flags: &[u8],
    rows: &mut [u32],
    records: &mut [u32],
    first: &mut usize,
    second: &mut usize,
    third: &mut usize,
) -> u32
    ensures { ToldRead kinds.now flags.now rows.old records.old rows.new records.new first.new second.new third.new result }
{
    let answer = reader::read(kinds, flags, rows, records);
    tell(answer, first, second, third)
}

// The pattern entry.
#[unsafe(no_mangle)]
pub extern "C" fn vuolmaset_pattern(
    kinds: &[u8],
    flags: &[u8],
    rows: &mut [u32],
    records: &mut [u32],
    first: &mut usize,
    second: &mut usize,
    third: &mut usize,
) -> u32
    ensures { ToldPattern kinds.now flags.now rows.old records.old rows.new records.new first.new second.new third.new result }
{
    let answer = reader::pattern(kinds, flags, rows, records);
    tell(answer, first, second, third)
}

// Conversion of a row of a tree into a target.
#[unsafe(no_mangle)]
pub extern "C" fn vuolmaset_convert(
    tree: &mut [u32],
    row: usize,
    records: &mut [u32],
    first: &mut usize,
    second: &mut usize,
    third: &mut usize,
) -> u32
    ensures { ToldConvert tree.old records.old row tree.new records.new first.new second.new third.new result }
{
    let answer = targets::convert(tree, row, records);
    tell(answer, first, second, third)
}

// 0 False, 1 True, 2 Maybe.
fn tristate_number(answer: Tristate) -> usize
    ensures { result ≡ tristate_number answer }
{
    match answer {
        Tristate::False => 0,
        Tristate::True => 1,
        Tristate::Maybe => 2,
    }
}

// The three-way answer: 0 False, 1 True, 2 Maybe, or the refusal's place.
#[unsafe(no_mangle)]
pub extern "C" fn vuolmaset_three_way(
    kinds: &[u8],
    flags: &[u8],
    is_ts: bool,
    is_jsx: bool,
    at: usize,
    told: &mut usize,
) -> u32
    ensures { ToldThreeWay (three_way_entry kinds.now flags.now is_ts is_jsx at) told.new result }
{
    match lookahead::three_way(kinds, flags, is_ts, is_jsx, at) {
        Ok(answer) => {
            *told = tristate_number(answer);
            0
        }
        Err(cause) => {
            *told = cause.place();
            cause.number()
        }
    }
}

// The subtree that a row of a tree roots: how many of the tree's words it has, none if it is refused, up to past the row's own.
#[unsafe(no_mangle)]
pub extern "C" fn vuolmaset_subtree(tree: &[u32], row: usize) -> usize
    ensures { ToldSubtree tree.now row result }
{
    trees::subtree(tree, row).len()
}

// The level of a kind in the table of operators, 0 for none.
#[unsafe(no_mangle)]
pub extern "C" fn vuolmaset_precedence(kind: u8) -> u8
    ensures { result ≡ level kind }
{
    operators::kind_to_precedence(kind)
}

// The level of a kind in an expression, where As and Satisfies are no operators.
#[unsafe(no_mangle)]
pub extern "C" fn vuolmaset_expression_precedence(kind: u8) -> u8
    ensures { result ≡ expression_level kind }
{
    operators::expression_precedence(kind)
}
