// What is made of operators once their operands are read: binary rows with their records, updates, prefix operators.
ghost use Rattle.std.specs.Prelude.{◌≡◌, ◌≤◌};
ghost use Rattle.grammar.specs.Assignment as Assignment;
ghost use Rattle.grammar.specs.Binary as Binary;
ghost use Rattle.grammar.specs.Update as Update;
ghost use Rattle.build.specs.Operation as Operation;

use crate::cursor::{Cursor, over, say};
use rows::row;
use tokens::cause::Cause;
use tokens::{Sheet, kind};

// The level above which an operator's right operand reads on: its own, but for `**`. Stands for a part of `parse_binary_expression_or_higher`.
#[tactic(auto, unfolding(grammar::specs::Binary::right_floor, operators::specs::Precedence::expression_level, operators::specs::Precedence::level))]
pub fn right_floor(operator: u8) -> u8
    ensures { result ≡ Binary.right_floor operator }
{
    let level = operators::expression_precedence(operator);
    if operator == kind::STAR2 {
        return level - 1;
    }
    level
}

// `??`, `||` and `&&` make a Logical row, all other operators a Binary one. Stands for a part of `parse_binary_expression_or_higher`.
#[tactic(auto, unfolding(grammar::specs::Binary::operation_kind))]
pub fn operation_kind(operator: u8) -> u32
    ensures { result ≡ Binary.operation_kind operator }
{
    match operator {
        kind::QUESTION2..=kind::AMP2 => row::LOGICAL,
        _ => row::BINARY,
    }
}

// Whether the row is a Logical one whose own operator is `||` or `&&`. Stands for a part of `parse_binary_expression_or_higher`.
fn is_or_and(kinds: &[u8], rows: &[u32], root: usize) -> bool
    ensures { result ≡ Operation.or_and kinds.now rows.now root }
{
    let mark = rows::row_word(rows, root, 1) as usize;
    rows::row_word(rows, root, 0) == row::LOGICAL && tokens::kind_at(kinds, mark) != kind::QUESTION2
}

// The record of a binary row: 6 for `??` with a bare `||` or `&&` operand, 7 for a bare Unary left of `**`.
// Stands for a part of `parse_binary_expression_or_higher`.
fn record_number(kinds: &[u8], rows: &[u32], at: usize, left: usize, right: usize) -> Option<u32>
    ensures { result ≡ Operation.record_number kinds.now rows.now at left right }
{
    match tokens::kind_at(kinds, at) {
        kind::QUESTION2 if is_or_and(kinds, rows, left) || is_or_and(kinds, rows, right) => Some(6),
        kind::STAR2 if rows::row_word(rows, left, 0) == row::UNARY => Some(7),
        _ => None,
    }
}

// A binary row over the operands that stand from `from` and from `left`, and its record. Stands for a part of `parse_binary_expression_or_higher`.
pub fn finish(
    kinds: &[u8],
    rows: &mut [u32],
    records: &mut [u32],
    d: Cursor,
    at: usize,
    first: usize,
    left: usize,
    from: usize,
) -> Cursor
    requires { Operation.FinishFits rows.old records.old d at first left from }
    ensures { Operation.Finished kinds.now rows.old records.old d at first left from rows.new records.new result }
{
    let right = d.rows;
    let number = record_number(kinds, rows, at, left - 1, right - 1);
    let kind = operation_kind(tokens::kind_at(kinds, at));
    let done = over(rows, d, kind, at, first, d.at, 2, from);
    match number {
        Some(number) => say(records, done, number, at),
        None => done,
    }
}

// 13.15: = and the compound operators. Stands for a part of `parse_assignment_expression_or_higher_impl`.
#[tactic(auto, unfolding(grammar::specs::Assignment::is_assignment_operator))]
pub fn is_assignment_operator(k: u8) -> bool
    ensures { result ≡ Assignment.is_assignment_operator k }
{
    matches!(k, kind::EQ..=kind::STAR2_EQ)
}

// 13.5: delete void typeof + - ~ !
#[tactic(auto, unfolding(grammar::specs::Update::is_unary_operator))]
fn is_unary_operator(k: u8) -> bool
    ensures { result ≡ Update.is_unary_operator k }
{
    // in two tests: one `matches!` becomes a table of jumps, which costs a chain of them a quarter more time
    matches!(k, kind::BANG..=kind::DELETE) || k == kind::PLUS || k == kind::MINUS
}

// 13.4: ++ --
#[tactic(auto, unfolding(grammar::specs::Update::is_update_operator))]
fn is_update_operator(k: u8) -> bool
    ensures { result ≡ Update.is_update_operator k }
{
    matches!(k, kind::PLUS2 | kind::MINUS2)
}

// What may stand before an operand.
pub fn is_prefix_operator(k: u8) -> bool
    ensures { result ≡ Operation.is_prefix_operator k }
{
    is_unary_operator(k) || is_update_operator(k)
}

// 13.4: an update on the line of the token before it, of a simple target.
pub fn postfix(
    sheet: &Sheet,
    rows: &mut [u32],
    records: &mut [u32],
    d: Cursor,
    first: usize,
    from: usize,
) -> Result<Cursor, Cause>
    requires operand_fits { Operation.OperandFits sheet.now.kinds.now rows.old records.old d from }
    requires first_bound { first ≤ 2048 }
    ensures { Operation.MetPostfix sheet.now.kinds.now sheet.now.flags.now rows.old records.old d first from rows.new records.new result }
{
    let at = d.at;
    if !is_update_operator(tokens::kind_at(sheet.kinds, at)) {
        return Ok(d);
    }
    if tokens::flag_at(sheet.flags, at) == 1 {
        return Ok(d);
    }
    let count = targets::convert_row(rows, d.rows - 1, true, records, d.records)?;
    let target = Cursor {
        records: d.records + count,
        ..d
    };
    Ok(over(
        rows,
        target,
        row::POSTFIX_UPDATE,
        at,
        first,
        at + 1,
        1,
        from,
    ))
}

// The prefix operators from `first` up to the place `start` of their operand, from the innermost out.
pub fn prefixes(
    kinds: &[u8],
    rows: &mut [u32],
    records: &mut [u32],
    d: Cursor,
    first: usize,
    start: usize,
    from: usize,
) -> Result<Cursor, Cause>
    requires { Operation.PrefixFits kinds.now rows.old records.old d first start from }
    ensures { Operation.MetPrefixes kinds.now rows.old records.old d first start from rows.new records.new result }
{
    let end = d.at;
    let mut here = d;
    for at in (first..start).rev() {
        if is_update_operator(tokens::kind_at(kinds, at)) {
            let count = targets::convert_row(rows, here.rows - 1, true, records, here.records)?;
            let target = Cursor {
                records: here.records + count,
                ..here
            };
            here = over(rows, target, row::PREFIX_UPDATE, at, at, end, 1, from);
        } else {
            here = over(rows, here, row::UNARY, at, at, end, 1, from);
        }
    }
    Ok(here)
}
