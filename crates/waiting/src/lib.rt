// What nests to the right (13.6 to 13.15, 15.3, 15.9) waits, while its last part is read, as a row at the far end of the lent tree, the innermost
// first. The words of a row that waits: its kind, mark and first; of an operator the rows before its right operand, and else 0; of an operator the
// floor of its right operand, and else the kids; and the row that it begins with.
#![tactic(auto)]

ghost use Rattle.std.specs.Prelude.{◌≡◌, Ok, length, get_or, ◌+◌, ◌-◌, ◌*◌, ◌≤◌, ◌<◌, take};
ghost use Rattle.rows.specs.Post.{RowInside};
ghost use Rattle.build.specs.Post.{Room, Operand, Topped};
ghost use Rattle.waiting.specs.Waiting.{is_operation};
ghost use Rattle.waiting.specs.Post.{word, ends_operand, OperationFits, FinishedOperation, WaitFits, WaitsOperand, WaitsChoice, WaitsRight, BodyFits, WaitsBody, LastPartFits, Otherwise, opens_body, NameBody, PartEnding, PartEnded, Grouping, Followed, Level, FollowedLevel, StartFits, AfterStart};

use build::cursor::{Cursor, leaf, over, say};
use build::operation;
use heads::Head;
use rows::row;
use tokens::cause::Cause;
use tokens::{Sheet, kind};

// The kind of a Conditional that waits for its `:`: a word of the lent tree, as all kinds of rows, and of no row that is read.
const CHOICE: u32 = 0;

// What stands where an expression or an operand starts: a head up to its `=>`, or an operand.
#[derive(Clone, Copy, Debug, PartialEq, Eq)]
pub enum Start {
    Opened(Cursor, Head),
    Operand(Cursor),
}

// Where a part starts, or an operand, and the row from which on rows wait. `part` is a flag, since what waits says which of the two it is (`awaits_operand`).
#[derive(Clone, Copy, Debug, PartialEq, Eq)]
pub struct Spot {
    pub here: Cursor,
    pub top: usize,
    pub part: bool,
}

// What comes next: a part or an operand is read; or all is read.
#[derive(Clone, Copy, Debug, PartialEq, Eq)]
pub enum Next {
    Read(Spot),
    Ended(Cursor),
}

// An operand, or a row over operands, and where it ends: its first token and first row, and the row from which on rows wait.
#[derive(Clone, Copy, Debug, PartialEq, Eq)]
pub struct Group {
    pub end: Cursor,
    pub first: usize,
    pub from: usize,
    pub top: usize,
}

// Past a start: an arrow waits for its body, or what follows an operand is read. Follows `parse_parenthesized_arrow_function_expression`.
pub fn after_start(
    sheet: &Sheet,
    rows: &mut [u32],
    records: &mut [u32],
    got: Result<Start, Cause>,
    from: Spot,
    base: usize,
) -> Result<Next, Cause>
    requires { StartFits sheet.now.kinds.now sheet.now.flags.now rows.old records.old got from base }
    ensures { AfterStart sheet.now.kinds.now sheet.now.flags.now rows.old records.old got from base rows.new records.new result }
{
    match got? {
        Start::Opened(d, head) => wait_body(sheet, rows, records, d, head, from.top),
        Start::Operand(d) => {
            let operand = Group {
                end: d,
                first: from.here.at,
                from: from.here.rows,
                top: from.top,
            };
            follow(sheet, rows, records, operand, base)
        }
    }
}

// 15.3, 15.9: an arrow waits for its body, from its `=>` on: a break before `=>` is record 1, and `{` as body is 8.
// Follows `parse_arrow_function_expression_body`.
fn wait_body(
    sheet: &Sheet,
    rows: &mut [u32],
    records: &mut [u32],
    d: Cursor,
    head: Head,
    waiting: usize,
) -> Result<Next, Cause>
    requires { BodyFits (length rows.old) (length records.old) d head waiting }
    ensures { WaitsBody sheet.now.kinds.now sheet.now.flags.now rows.old records.old d head waiting rows.new records.new result }
{
    let at = d.at;
    if heads::is_block(sheet.kinds, at + 1) {
        return Err(Cause::Unexpected(at + 1));
    }
    let mut c = Cursor { at: at + 1, ..d };
    if tokens::flag_at(sheet.flags, at) == 1 {
        c = say(records, c, 1, at);
    }
    let top = waiting - 1;
    let kids = head.kids + 1;
    rows::push_row(rows, top, head.kind, at, head.first, 0, kids, head.from);
    Ok(Next::Read(Spot {
        here: c,
        top,
        part: true,
    }))
}

// 13.6 to 13.15: past an operand, what waits and ends here is made, and what begins here waits.
// Stands for a part of `parse_binary_expression_or_higher`.
fn follow(
    sheet: &Sheet,
    rows: &mut [u32],
    records: &mut [u32],
    operand: Group,
    base: usize,
) -> Result<Next, Cause>
    requires { Grouping sheet.now.kinds.now sheet.now.flags.now rows.old records.old operand base }
    ensures { Followed sheet.now.kinds.now sheet.now.flags.now rows.old records.old operand base rows.new records.new result }
{
    let level = operators::expression_precedence(tokens::kind_at(sheet.kinds, operand.end.at));
    let mut group = operand;
    while ends_operand(rows, group.top, base, level) {
        group = finish_operation(sheet.kinds, rows, records, group);
    }
    if level != 0 {
        return Ok(wait_operand(sheet.kinds, rows, group));
    }
    after_binary(sheet, rows, records, group, base)
}

// Whether the innermost row that waits is an operator's, and its right operand ends before an operator of this level.
// Stands for a part of `parse_binary_expression_or_higher`.
fn ends_operand(rows: &[u32], top: usize, base: usize, level: u8) -> bool
    requires { 6 * base ≤ length rows.now }
    ensures { result ≡ ends_operand rows.now top base level }
{
    top < base && is_operation(rows[6 * top]) && level as usize <= word(rows, top, 4)
}

// Binary and Logical rows.
fn is_operation(kind: u32) -> bool
    ensures { result ≡ is_operation kind }
{
    matches!(kind, row::BINARY | row::LOGICAL)
}

// 13.6 to 13.13: the innermost row that waits is made, over its left operand and the group. Stands for a part of `parse_binary_expression_or_higher`.
fn finish_operation(kinds: &[u8], rows: &mut [u32], records: &mut [u32], right: Group) -> Group
    requires { OperationFits rows.old records.old right }
    ensures { FinishedOperation kinds.now rows.old records.old right rows.new records.new result }
{
    let top = right.top;
    let mark = word(rows, top, 1);
    let first = word(rows, top, 2);
    let left = word(rows, top, 3);
    let from = word(rows, top, 5);
    let free = 6 * (top + 1);
    let end = operation::finish(
        kinds,
        &mut rows[..free],
        records,
        right.end,
        mark,
        first,
        left,
        from,
    );
    Group {
        end,
        first,
        from,
        top: top + 1,
    }
}

// 13.6 to 13.13: an operator waits for its right operand. Stands for a part of `parse_binary_expression_or_higher`.
fn wait_operand(kinds: &[u8], rows: &mut [u32], left: Group) -> Next
    requires { WaitFits (length rows.old) left }
    ensures { WaitsOperand kinds.now rows.old left rows.new (Ok result) }
{
    let at = left.end.at;
    let top = left.top - 1;
    let operator = tokens::kind_at(kinds, at);
    let kind = operation::operation_kind(operator);
    let floor = operation::right_floor(operator) as usize;
    rows::push_row(
        rows,
        top,
        kind,
        at,
        left.first,
        left.end.rows,
        floor,
        left.from,
    );
    Next::Read(Spot {
        here: Cursor {
            at: at + 1,
            ..left.end
        },
        top,
        part: false,
    })
}

// 13.15, 13.14, 15.3: what may follow the binary level. Stands for a part of `parse_assignment_expression_or_higher_impl`.
fn after_binary(
    sheet: &Sheet,
    rows: &mut [u32],
    records: &mut [u32],
    left: Group,
    base: usize,
) -> Result<Next, Cause>
    requires { Level sheet.now.kinds.now sheet.now.flags.now rows.old records.old left base }
    ensures { FollowedLevel sheet.now.kinds.now sheet.now.flags.now rows.old records.old left base rows.new records.new result }
{
    if opens_body(sheet.kinds, rows, left) {
        return name_body(sheet, rows, records, left);
    }
    let operator = tokens::kind_at(sheet.kinds, left.end.at);
    if operation::is_assignment_operator(operator) {
        return wait_right(sheet.kinds, rows, records, left);
    }
    if operator == kind::QUESTION {
        return Ok(wait_choice(rows, left));
    }
    finish_parts(sheet.kinds, rows, left.end, left.top, base)
}

// Whether `=>` stands after a group that is one Identifier. Stands for a part of `parse_assignment_expression_or_higher_impl`.
fn opens_body(kinds: &[u8], rows: &[u32], group: Group) -> bool
    requires { 1 ≤ group.end.rows }
    ensures { result ≡ opens_body kinds.now rows.now group }
{
    tokens::kind_at(kinds, group.end.at) == kind::ARROW
        && rows::row_word(rows, group.end.rows - 1, 0) == row::IDENTIFIER
}

// 15.3: the name of an arrow without parentheses is a binding, and its body is waited for. Follows `parse_simple_arrow_function_expression`.
fn name_body(
    sheet: &Sheet,
    rows: &mut [u32],
    records: &mut [u32],
    name: Group,
) -> Result<Next, Cause>
    requires wait_fits { WaitFits (length rows.old) name }
    requires from_lt_top { name.from < name.top }
    requires records_in_bounds { 2 * name.end.records + 2 ≤ length records.old }
    requires records_bound { name.end.records ≤ 2048 }
    ensures { NameBody sheet.now.kinds.now sheet.now.flags.now rows.old records.old name rows.new records.new result }
{
    let c = Cursor {
        at: name.first,
        rows: name.from,
        records: name.end.records,
    };
    let d = leaf(rows, c, row::BINDING_NAME);
    let head = Head {
        kind: row::ARROW,
        first: name.first,
        from: name.from,
        kids: 1,
    };
    let arrow = Cursor {
        at: name.end.at,
        ..d
    };
    wait_body(sheet, rows, records, arrow, head, name.top)
}

// 13.15: an assignment waits for its right side, once its left side is converted. Stands for a part of `parse_assignment_expression_or_higher_impl`.
fn wait_right(
    kinds: &[u8],
    rows: &mut [u32],
    records: &mut [u32],
    left: Group,
) -> Result<Next, Cause>
    requires wait_fits { WaitFits (length rows.old) left }
    requires room { Room kinds.now (take (6 * left.top) rows.old) records.old left.end }
    requires operand { Operand kinds.now (take (6 * left.top) rows.old) left.end left.first left.from }
    ensures { WaitsRight kinds.now rows.old records.old left rows.new records.new result }
{
    let at = left.end.at;
    let plain = tokens::kind_at(kinds, at) == kind::EQ;
    let free = 6 * left.top;
    let said = left.end.records;
    let root = left.end.rows - 1;
    let count = targets::convert_row(&mut rows[..free], root, !plain, records, said)?;
    let kind = if plain {
        row::ASSIGN
    } else {
        row::COMPOUND_ASSIGN
    };
    let top = left.top - 1;
    rows::push_row(rows, top, kind, at, left.first, 0, 2, left.from);
    let here = Cursor {
        at: at + 1,
        rows: left.end.rows,
        records: said + count,
    };
    Ok(Next::Read(Spot {
        here,
        top,
        part: true,
    }))
}

// 13.14: a Conditional waits for its `:`. Stands for a part of `parse_assignment_expression_or_higher_impl`.
fn wait_choice(rows: &mut [u32], test: Group) -> Next
    requires { WaitFits (length rows.old) test }
    ensures { WaitsChoice rows.old test rows.new (Ok result) }
{
    let top = test.top - 1;
    let at = test.end.at;
    rows::push_row(rows, top, CHOICE, at, test.first, 0, 3, test.from);
    Next::Read(Spot {
        here: Cursor {
            at: at + 1,
            ..test.end
        },
        top,
        part: true,
    })
}

// A part has ended: what waited for it is made, up to the first that waits for its `:`.
fn finish_parts(
    kinds: &[u8],
    rows: &mut [u32],
    d: Cursor,
    waiting: usize,
    base: usize,
) -> Result<Next, Cause>
    requires { PartEnding kinds.now rows.old d waiting base }
    ensures { PartEnded kinds.now rows.old d waiting base rows.new result }
{
    let mut c = d;
    for top in waiting..base {
        if rows[6 * top] == CHOICE {
            return otherwise(kinds, rows, c, top);
        }
        c = finish_part(rows, c, top);
    }
    Ok(Next::Ended(c))
}

// The innermost row that waits is made, up to where its last part ends.
fn finish_part(rows: &mut [u32], c: Cursor, top: usize) -> Cursor
    requires { LastPartFits rows.old c top }
    ensures { Topped rows.old c (get_or rows.old (6 * top) 0) (word rows.old top 1) (word rows.old top 2) c.at (word rows.old top 4) (word rows.old top 5) rows.new result }
{
    let kind = rows[6 * top];
    let mark = word(rows, top, 1);
    let first = word(rows, top, 2);
    let kids = word(rows, top, 4);
    let from = word(rows, top, 5);
    over(rows, c, kind, mark, first, c.at, kids, from)
}

// 13.14: at its `:` a Conditional waits for its last part. Stands for a part of `parse_assignment_expression_or_higher_impl`.
fn otherwise(kinds: &[u8], rows: &mut [u32], c: Cursor, top: usize) -> Result<Next, Cause>
    requires row_inside { RowInside (length rows.old) top }
    requires at_bound { c.at ≤ 2048 }
    ensures { Otherwise kinds.now rows.old c top rows.new result }
{
    let at = c.at;
    if tokens::kind_at(kinds, at) != kind::COLON {
        return Err(Cause::Unexpected(at));
    }
    rows::set_kind(rows, top, row::CONDITIONAL);
    Ok(Next::Read(Spot {
        here: Cursor { at: at + 1, ..c },
        top,
        part: true,
    }))
}

// A word of a row that waits.
fn word(rows: &[u32], n: usize, i: usize) -> usize
    requires row_inside { RowInside (length rows.now) n }
    requires i_bound { i < 6 }
    ensures { result ≡ word rows.now n i }
{
    rows[6 * n + i] as usize
}
