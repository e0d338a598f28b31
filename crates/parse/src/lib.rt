// The one cycle of calls: expressions, arrows, literals and bindings call one another (13.2 to 13.16, 14.3.3, 15.3, 15.9).
// All of it stands in one file, from Expression down to the parts of bindings; the cycle is named `expressions`.
// Rows, records and notes go from call to call by themselves: `assign` lends a part of the rows on, and a struct of borrows that is made anew
// with a part of one is not covered by the borrow checker. Each list has a loop of its own, since its steps are (docs/DECISIONS.md, 100).
// The hints `inline` and `cold` change no answer: they keep a nested bracket to one frame, and literals out of the loop of `assign`.
#![tactic(auto)]

ghost use Rattle.std.specs.Prelude.{◌+◌, ◌<◌, length, get_or, if◌then◌else◌};
ghost use Rattle.tokens.specs.Bool.{◌is◌};
ghost use Rattle.tokens.specs.Kind.{Dot3};
ghost use Rattle.tokens.specs.declared.cause.Cause.{Cause};
ghost use Rattle.rows.specs.Tree.{nil, one};
ghost use Rattle.rows.specs.Row as Row;
ghost use Rattle.grammar.specs.Job as Job;
ghost use Rattle.build.specs.Post.{Room, Met, MetOver, MetList, MetClosed, MetInit, Operand, NameFits, PartFits};
ghost use Rattle.waiting.specs.Post.{MetStart};

use build::cursor::{Cursor, leaf, over, say};
use build::{keys, operation};
use heads::{Way, singles};
use rows::row;
use tokens::cause::Cause;
use tokens::{Sheet, classes, kind};
use waiting::{Next, Spot, Start};

// 13.16 Expression: one part, or a Sequence of them. Stands for `parse_expr`.
#[inline]
#[cycle(expressions)]
pub fn comma(
    sheet: &Sheet,
    rows: &mut [u32],
    records: &mut [u32],
    notes: &mut [u8; 2048],
    here: Cursor,
) -> Result<Cursor, Cause>
    requires { Room sheet.now.kinds.now rows.old records.old here }
    ensures { Met sheet.now.kinds.now sheet.now.flags.now rows.old records.old notes.old rows.new records.new notes.new (Job.expression here.at) here.rows here.records result }
{
    let mut c = here;
    let mut kids = 0;
    let mut mark = here.at;
    loop {
        let d = assign(sheet, rows, records, notes, c)?;
        let end = d.at;
        kids += 1;
        if tokens::kind_at(sheet.kinds, end) != kind::COMMA {
            if kids == 1 {
                return Ok(d);
            }
            return Ok(over(rows, d, row::SEQUENCE, mark, here.at, end, kids, here.rows));
        }
        c = Cursor { at: end + 1, ..d };
        if kids == 1 {
            mark = end;
        }
    }
}

// 13.15 AssignmentExpression: one token by itself; or parts and operands, one after the other, while what still lacks its last part waits.
// Stands for `parse_assignment_expression_or_higher`.
#[cycle(expressions)]
fn assign(
    sheet: &Sheet,
    rows: &mut [u32],
    records: &mut [u32],
    notes: &mut [u8; 2048],
    here: Cursor,
) -> Result<Cursor, Cause>
    requires { Room sheet.now.kinds.now rows.old records.old here }
    ensures { Met sheet.now.kinds.now sheet.now.flags.now rows.old records.old notes.old rows.new records.new notes.new (Job.assignment here.at) here.rows here.records result }
{
    if let Some(kind) = singles::single_part(sheet.kinds, here.at) {
        return Ok(leaf(rows, here, kind));
    }
    let base = rows.len() / 6;
    let mut spot = Spot {
        here,
        top: base,
        part: true,
    };
    loop {
        let free = 6 * spot.top;
        let got = start(
            sheet,
            &mut rows[..free],
            records,
            notes,
            spot.here,
            spot.part,
        );
        match waiting::after_start(sheet, rows, records, got, spot, base)? {
            Next::Ended(d) => return Ok(d),
            Next::Read(next) => spot = next,
        }
    }
}

// Where a part starts, a head that is tried or read for good, or Async and a name before `=>`; else, and where an operand starts, an operand.
// Follows `try_parse_parenthesized_arrow_function_expression` and `try_parse_async_simple_arrow_function_expression`.
#[cycle(expressions)]
fn start(
    sheet: &Sheet,
    rows: &mut [u32],
    records: &mut [u32],
    notes: &mut [u8; 2048],
    here: Cursor,
    part: bool,
) -> Result<Start, Cause>
    requires { Room sheet.now.kinds.now rows.old records.old here }
    ensures { MetStart sheet.now.kinds.now sheet.now.flags.now rows.old records.old notes.old rows.new records.new notes.new part here.at here.rows here.records result }
{
    let at = here.at;
    let mut kept = here.records;
    if part {
        let way = heads::way_at(sheet, notes, at);
        if way != Way::Pass {
            match head(sheet, rows, records, notes, here) {
                Ok((d, kids)) => {
                    let head = heads::head_of(sheet.kinds, at, here.rows, kids);
                    return Ok(Start::Opened(d, head));
                }
                Err(cause) if way == Way::Commit => return Err(cause),
                Err(_) => kept = heads::drop_head(notes, at, here.records),
            }
        }
        if heads::is_async_name(sheet, at) {
            let name = Cursor {
                at: at + 1,
                records: kept,
                ..here
            };
            let head = heads::head_of(sheet.kinds, at, here.rows, 1);
            return Ok(Start::Opened(leaf(rows, name, row::BINDING_NAME), head));
        }
    }
    let c = Cursor {
        records: kept,
        ..here
    };
    let d = unary(sheet, rows, records, notes, c)?;
    Ok(Start::Operand(d))
}

// A head up to its `=>`: optional Async with no break after it, and parameters in parentheses. Follows `parse_parenthesized_arrow_function_head`.
#[cycle(expressions)]
fn head(
    sheet: &Sheet,
    rows: &mut [u32],
    records: &mut [u32],
    notes: &mut [u8; 2048],
    here: Cursor,
) -> Result<(Cursor, usize), Cause>
    requires { Room sheet.now.kinds.now rows.old records.old here }
    ensures { MetList sheet.now.kinds.now sheet.now.flags.now rows.old records.old notes.old rows.new records.new notes.new (Job.head here.at) here.rows here.records result }
{
    let mut open = here.at;
    if tokens::kind_at(sheet.kinds, here.at) == kind::ASYNC {
        open = here.at + 1;
        if tokens::flag_at(sheet.flags, open) == 1 {
            return Err(Cause::Unexpected(open));
        }
    }
    if tokens::kind_at(sheet.kinds, open) != kind::L_PAREN {
        return Err(Cause::Unexpected(open));
    }
    let c = Cursor {
        at: open + 1,
        ..here
    };
    let (d, kids) = params(sheet, rows, records, notes, c)?;
    let end = d.at;
    if tokens::kind_at(sheet.kinds, end) != kind::ARROW {
        return Err(Cause::Unexpected(end));
    }
    Ok((d, kids))
}

// 15.1 FormalParameters: bindings with optional defaults, one trailing comma unless a rest is last, up to past the `)`.
// Stands for `parse_formal_parameters`.
#[cycle(expressions)]
fn params(
    sheet: &Sheet,
    rows: &mut [u32],
    records: &mut [u32],
    notes: &mut [u8; 2048],
    here: Cursor,
) -> Result<(Cursor, usize), Cause>
    requires { Room sheet.now.kinds.now rows.old records.old here }
    ensures { MetList sheet.now.kinds.now sheet.now.flags.now rows.old records.old notes.old rows.new records.new notes.new (Job.parameters here.at nil) here.rows here.records result }
{
    let mut c = here;
    let mut kids = 0;
    loop {
        let k = tokens::kind_at(sheet.kinds, c.at);
        if k == kind::R_PAREN {
            c.at += 1;
            break;
        }
        kids += 1;
        if k == kind::DOT3 {
            c = last(sheet, rows, records, notes, c, kind::R_PAREN)?;
            break;
        }
        c = element(sheet, rows, records, notes, c)?;
        let close = c.at;
        let next = tokens::kind_at(sheet.kinds, close);
        c.at = close + 1;
        if next == kind::R_PAREN {
            break;
        }
        if next != kind::COMMA {
            return Err(Cause::Unexpected(close));
        }
    }
    Ok((c, kids))
}

// 13.5 and 13.4: prefix operators over an operand, which a postfix update may follow on its line.
// The loop wants the place at which it ends, not how many it passed: an iterator would count, and be no plainer.
#[cycle(expressions)]
fn unary(
    sheet: &Sheet,
    rows: &mut [u32],
    records: &mut [u32],
    notes: &mut [u8; 2048],
    here: Cursor,
) -> Result<Cursor, Cause>
    requires { Room sheet.now.kinds.now rows.old records.old here }
    ensures { Met sheet.now.kinds.now sheet.now.flags.now rows.old records.old notes.old rows.new records.new notes.new (Job.unary here.at) here.rows here.records result }
{
    if let Some(kind) = singles::single_operand(sheet.kinds, here.at) {
        return Ok(leaf(rows, here, kind));
    }
    let mut start = here.at;
    while operation::is_prefix_operator(tokens::kind_at(sheet.kinds, start)) {
        start += 1;
    }
    let c = Cursor { at: start, ..here };
    let d = left(sheet, rows, records, notes, c)?;
    let e = operation::postfix(sheet, rows, records, d, start, here.rows)?;
    operation::prefixes(sheet.kinds, rows, records, e, here.at, start, here.rows)
}

// 13.3: a primary expression and the members, indexes and calls that follow it.
#[cycle(expressions)]
fn left(
    sheet: &Sheet,
    rows: &mut [u32],
    records: &mut [u32],
    notes: &mut [u8; 2048],
    here: Cursor,
) -> Result<Cursor, Cause>
    requires { Room sheet.now.kinds.now rows.old records.old here }
    ensures { Met sheet.now.kinds.now sheet.now.flags.now rows.old records.old notes.old rows.new records.new notes.new (Job.left_hand_side here.at) here.rows here.records result }
{
    let at = here.at;
    let mut c = primary(sheet, rows, records, notes, here)?;
    loop {
        let place = c.at;
        match tokens::kind_at(sheet.kinds, place) {
            kind::DOT => {
                if !classes::is_word(tokens::kind_at(sheet.kinds, place + 1)) {
                    return Err(Cause::Unexpected(place + 1));
                }
                c = over(rows, c, row::MEMBER, place + 1, at, place + 2, 1, here.rows);
            }
            kind::L_BRACK => {
                let d = inside(sheet, rows, records, notes, c, kind::R_BRACK)?;
                c = over(rows, d, row::INDEX, at, at, d.at, 2, here.rows);
            }
            kind::L_PAREN => c = args(sheet, rows, records, notes, c, at, here.rows)?,
            _ => return Ok(c),
        }
    }
}

// 13.3: a Call, from its `(` on.
#[cycle(expressions)]
fn args(
    sheet: &Sheet,
    rows: &mut [u32],
    records: &mut [u32],
    notes: &mut [u8; 2048],
    here: Cursor,
    first: usize,
    from: usize,
) -> Result<Cursor, Cause>
    requires room { Room sheet.now.kinds.now rows.old records.old here }
    requires operand { Operand sheet.now.kinds.now rows.old here first from }
    ensures { MetOver sheet.now.kinds.now sheet.now.flags.now rows.old records.old notes.old rows.new records.new notes.new (λ left. Job.arguments first (here.at + 1) (one left)) from here.rows here.records result }
{
    let mut c = Cursor {
        at: here.at + 1,
        ..here
    };
    let mut kids = 1;
    let end = loop {
        let place = c.at;
        if tokens::kind_at(sheet.kinds, place) == kind::R_PAREN {
            break place + 1;
        }
        c = match singles::single_part(sheet.kinds, place) {
            Some(kind) => leaf(rows, c, kind),
            None => item(sheet, rows, records, notes, c)?,
        };
        kids += 1;
        let close = c.at;
        let next = tokens::kind_at(sheet.kinds, close);
        if next == kind::R_PAREN {
            break close + 1;
        }
        if next != kind::COMMA {
            return Err(Cause::Unexpected(close));
        }
        c.at = close + 1;
    };
    Ok(over(rows, c, row::CALL, first, first, end, kids, from))
}

// An Expression between the bracket at the place and its closing token.
#[cycle(expressions)]
fn inside(
    sheet: &Sheet,
    rows: &mut [u32],
    records: &mut [u32],
    notes: &mut [u8; 2048],
    here: Cursor,
    close: u8,
) -> Result<Cursor, Cause>
    requires room { Room sheet.now.kinds.now rows.old records.old here }
    requires at_in_bounds { here.at < length sheet.now.kinds.now }
    ensures { MetClosed sheet.now.kinds.now sheet.now.flags.now rows.old records.old notes.old rows.new records.new notes.new (Job.expression (here.at + 1)) close Cause.Unexpected here.rows here.records result }
{
    let c = Cursor {
        at: here.at + 1,
        ..here
    };
    let d = comma(sheet, rows, records, notes, c)?;
    let end = d.at;
    if tokens::kind_at(sheet.kinds, end) != close {
        return Err(Cause::Unexpected(end));
    }
    Ok(Cursor { at: end + 1, ..d })
}

// 13.2 PrimaryExpression.
#[cycle(expressions)]
fn primary(
    sheet: &Sheet,
    rows: &mut [u32],
    records: &mut [u32],
    notes: &mut [u8; 2048],
    here: Cursor,
) -> Result<Cursor, Cause>
    requires { Room sheet.now.kinds.now rows.old records.old here }
    ensures { Met sheet.now.kinds.now sheet.now.flags.now rows.old records.old notes.old rows.new records.new notes.new (Job.primary here.at) here.rows here.records result }
{
    let k = tokens::kind_at(sheet.kinds, here.at);
    if let Some(kind) = singles::single_row(k) {
        return Ok(leaf(rows, here, kind));
    }
    match k {
        kind::L_PAREN => {
            let d = inside(sheet, rows, records, notes, here, kind::R_PAREN)?;
            Ok(over(rows, d, row::PAREN, here.at, here.at, d.at, 1, here.rows))
        }
        kind::L_BRACK => array(sheet, rows, records, notes, here),
        kind::L_CURLY => object(sheet, rows, records, notes, here),
        _ => Err(Cause::Unexpected(here.at)),
    }
}

// An element or an argument: an AssignmentExpression or a spread.
#[cycle(expressions)]
fn item(
    sheet: &Sheet,
    rows: &mut [u32],
    records: &mut [u32],
    notes: &mut [u8; 2048],
    here: Cursor,
) -> Result<Cursor, Cause>
    requires { Room sheet.now.kinds.now rows.old records.old here }
    ensures { Met sheet.now.kinds.now sheet.now.flags.now rows.old records.old notes.old rows.new records.new notes.new (if get_or sheet.now.kinds.now here.at 0 is Dot3 then Job.spread here.at else Job.assignment here.at) here.rows here.records result }
{
    let start = singles::part_start(sheet.kinds, here.at);
    let c = Cursor { at: start, ..here };
    let d = assign(sheet, rows, records, notes, c)?;
    if start == here.at {
        return Ok(d);
    }
    Ok(over(rows, d, row::SPREAD, here.at, here.at, d.at, 1, here.rows))
}

// 13.2.4 SpreadElement. Follows `parse_spread_element`.
#[cycle(expressions)]
fn spread(
    sheet: &Sheet,
    rows: &mut [u32],
    records: &mut [u32],
    notes: &mut [u8; 2048],
    here: Cursor,
) -> Result<Cursor, Cause>
    requires room { Room sheet.now.kinds.now rows.old records.old here }
    requires at_in_bounds { here.at < length sheet.now.kinds.now }
    ensures { Met sheet.now.kinds.now sheet.now.flags.now rows.old records.old notes.old rows.new records.new notes.new (Job.spread here.at) here.rows here.records result }
{
    let c = Cursor {
        at: here.at + 1,
        ..here
    };
    let d = assign(sheet, rows, records, notes, c)?;
    Ok(over(rows, d, row::SPREAD, here.at, here.at, d.at, 1, here.rows))
}

// 13.2.4 ArrayLiteral: elements and holes up to the `]`.
#[cold]
#[cycle(expressions)]
fn array(
    sheet: &Sheet,
    rows: &mut [u32],
    records: &mut [u32],
    notes: &mut [u8; 2048],
    here: Cursor,
) -> Result<Cursor, Cause>
    requires room { Room sheet.now.kinds.now rows.old records.old here }
    requires at_in_bounds { here.at < length sheet.now.kinds.now }
    ensures { Met sheet.now.kinds.now sheet.now.flags.now rows.old records.old notes.old rows.new records.new notes.new (Job.elements here.at (here.at + 1) Row.Array nil) here.rows here.records result }
{
    let at = here.at;
    let mut c = Cursor { at: at + 1, ..here };
    let mut kids = 0;
    let mut kind = row::ARRAY;
    let end = loop {
        let place = c.at;
        let k = tokens::kind_at(sheet.kinds, place);
        if k == kind::R_BRACK {
            break place + 1;
        }
        kind = row::ARRAY;
        kids += 1;
        if k == kind::COMMA {
            c = leaf(rows, c, row::HOLE);
            continue;
        }
        c = match singles::single_part(sheet.kinds, place) {
            Some(kind) => leaf(rows, c, kind),
            None => item(sheet, rows, records, notes, c)?,
        };
        let close = c.at;
        let next = tokens::kind_at(sheet.kinds, close);
        if next == kind::R_BRACK {
            break close + 1;
        }
        if next != kind::COMMA {
            return Err(Cause::Unexpected(close));
        }
        c.at = close + 1;
        if k == kind::DOT3 {
            kind = row::ARRAY_REST_COMMA;
        }
    };
    Ok(over(rows, c, kind, at, at, end, kids, here.rows))
}

// 13.2.5 ObjectLiteral: properties up to the `}`. Follows `parse_object_expression`, with the loop of `parse_delimited_list`.
#[cold]
#[cycle(expressions)]
fn object(
    sheet: &Sheet,
    rows: &mut [u32],
    records: &mut [u32],
    notes: &mut [u8; 2048],
    here: Cursor,
) -> Result<Cursor, Cause>
    requires room { Room sheet.now.kinds.now rows.old records.old here }
    requires at_in_bounds { here.at < length sheet.now.kinds.now }
    ensures { Met sheet.now.kinds.now sheet.now.flags.now rows.old records.old notes.old rows.new records.new notes.new (Job.properties here.at (here.at + 1) Row.Object nil) here.rows here.records result }
{
    let at = here.at;
    let mut c = Cursor { at: at + 1, ..here };
    let mut kids = 0;
    let mut kind = row::OBJECT;
    let end = loop {
        let place = c.at;
        let k = tokens::kind_at(sheet.kinds, place);
        if k == kind::R_CURLY {
            break place + 1;
        }
        kind = row::OBJECT;
        kids += 1;
        c = part(sheet, rows, records, notes, c)?;
        let close = c.at;
        let next = tokens::kind_at(sheet.kinds, close);
        if next == kind::R_CURLY {
            break close + 1;
        }
        if next != kind::COMMA {
            return Err(Cause::Unexpected(close));
        }
        c.at = close + 1;
        if k == kind::DOT3 {
            kind = row::OBJECT_REST_COMMA;
        }
    };
    Ok(over(rows, c, kind, at, at, end, kids, here.rows))
}

// A part of an object literal: a spread or a property. Follows `parse_object_expression_property`.
#[cycle(expressions)]
fn part(
    sheet: &Sheet,
    rows: &mut [u32],
    records: &mut [u32],
    notes: &mut [u8; 2048],
    here: Cursor,
) -> Result<Cursor, Cause>
    requires room { Room sheet.now.kinds.now rows.old records.old here }
    requires part_fits { PartFits sheet.now.kinds.now rows.old here }
    ensures { Met sheet.now.kinds.now sheet.now.flags.now rows.old records.old notes.old rows.new records.new notes.new (if get_or sheet.now.kinds.now here.at 0 is Dot3 then Job.spread here.at else Job.property here.at) here.rows here.records result }
{
    if tokens::kind_at(sheet.kinds, here.at) == kind::DOT3 {
        return spread(sheet, rows, records, notes, here);
    }
    property(sheet, rows, records, notes, here)
}

// 13.2.5 PropertyDefinition: a shorthand, or a key with its value. Follows `parse_object_literal_element`.
#[cycle(expressions)]
fn property(
    sheet: &Sheet,
    rows: &mut [u32],
    records: &mut [u32],
    notes: &mut [u8; 2048],
    here: Cursor,
) -> Result<Cursor, Cause>
    requires room { Room sheet.now.kinds.now rows.old records.old here }
    requires part_fits { PartFits sheet.now.kinds.now rows.old here }
    ensures { Met sheet.now.kinds.now sheet.now.flags.now rows.old records.old notes.old rows.new records.new notes.new (Job.property here.at) here.rows here.records result }
{
    let at = here.at;
    let mut d = here;
    let mut kind = row::PROPERTY;
    let mut mark = at;
    if keys::is_shorthand(sheet.kinds, at) {
        d = leaf(rows, here, row::IDENTIFIER);
        if tokens::kind_at(sheet.kinds, at + 1) != kind::EQ {
            return Ok(over(rows, d, row::SHORTHAND, at, at, at + 1, 1, here.rows));
        }
        kind = row::SHORTHAND_INIT;
        mark = at + 1;
    } else {
        let name = key(sheet, rows, records, notes, here)?;
        let colon = name.at;
        if tokens::kind_at(sheet.kinds, colon) != kind::COLON {
            return Err(Cause::Unexpected(colon));
        }
        d = name;
    }
    let c = Cursor { at: d.at + 1, ..d };
    let e = match singles::single_part(sheet.kinds, c.at) {
        Some(single) => leaf(rows, c, single),
        None => assign(sheet, rows, records, notes, c)?,
    };
    Ok(over(rows, e, kind, mark, at, e.at, 2, here.rows))
}

// A name's initializer, from its `=` on: the name's row stands at `from`, and its token just before.
// Follows `parse_initializer` and a part of `parse_object_literal_element`.
#[cycle(expressions)]
fn init(
    sheet: &Sheet,
    rows: &mut [u32],
    records: &mut [u32],
    notes: &mut [u8; 2048],
    here: Cursor,
    kind: u32,
    from: usize,
) -> Result<Cursor, Cause>
    requires room { Room sheet.now.kinds.now rows.old records.old here }
    requires name_fits { NameFits sheet.now.kinds.now here from }
    ensures { MetInit sheet.now.kinds.now sheet.now.flags.now rows.old records.old notes.old rows.new records.new notes.new here.at kind from here.rows here.records result }
{
    let c = Cursor {
        at: here.at + 1,
        ..here
    };
    let d = match singles::single_part(sheet.kinds, c.at) {
        Some(single) => leaf(rows, c, single),
        None => assign(sheet, rows, records, notes, c)?,
    };
    Ok(over(rows, d, kind, here.at, here.at - 1, d.at, 2, from))
}

// 13.2.5 PropertyName: a word, a string, a number, or `[` an AssignmentExpression `]`.
// Follows `parse_property_name` and `parse_computed_property_name`.
#[cycle(expressions)]
fn key(
    sheet: &Sheet,
    rows: &mut [u32],
    records: &mut [u32],
    notes: &mut [u8; 2048],
    here: Cursor,
) -> Result<Cursor, Cause>
    requires { Room sheet.now.kinds.now rows.old records.old here }
    ensures { Met sheet.now.kinds.now sheet.now.flags.now rows.old records.old notes.old rows.new records.new notes.new (Job.key here.at) here.rows here.records result }
{
    let at = here.at;
    let k = tokens::kind_at(sheet.kinds, at);
    if keys::is_key(k) {
        return Ok(leaf(rows, here, row::KEY));
    }
    if k != kind::L_BRACK {
        return Err(Cause::Unexpected(at));
    }
    let c = Cursor { at: at + 1, ..here };
    let d = assign(sheet, rows, records, notes, c)?;
    let end = d.at;
    if tokens::kind_at(sheet.kinds, end) != kind::R_BRACK {
        return Err(Cause::Unexpected(end));
    }
    Ok(over(rows, d, row::COMPUTED_KEY, at, at, end + 1, 1, here.rows))
}

// 14.3.3 BindingPattern, or a BindingIdentifier. Follows `parse_binding_pattern` and `parse_binding_pattern_identifier`.
#[cycle(expressions)]
fn binding(
    sheet: &Sheet,
    rows: &mut [u32],
    records: &mut [u32],
    notes: &mut [u8; 2048],
    here: Cursor,
) -> Result<Cursor, Cause>
    requires { Room sheet.now.kinds.now rows.old records.old here }
    ensures { Met sheet.now.kinds.now sheet.now.flags.now rows.old records.old notes.old rows.new records.new notes.new (Job.binding here.at) here.rows here.records result }
{
    let k = tokens::kind_at(sheet.kinds, here.at);
    if classes::is_name(k) {
        return Ok(leaf(rows, here, row::BINDING_NAME));
    }
    match k {
        kind::L_BRACK => barray(sheet, rows, records, notes, here),
        kind::L_CURLY => bobject(sheet, rows, records, notes, here),
        _ => Err(Cause::Unexpected(here.at)),
    }
}

// 14.3.3 BindingElement: a binding with an optional initializer. Follows `parse_binding_pattern_with_initializer` and `parse_initializer`.
#[cycle(expressions)]
pub fn element(
    sheet: &Sheet,
    rows: &mut [u32],
    records: &mut [u32],
    notes: &mut [u8; 2048],
    here: Cursor,
) -> Result<Cursor, Cause>
    requires { Room sheet.now.kinds.now rows.old records.old here }
    ensures { Met sheet.now.kinds.now sheet.now.flags.now rows.old records.old notes.old rows.new records.new notes.new (Job.binding_element here.at) here.rows here.records result }
{
    let at = here.at;
    let d = binding(sheet, rows, records, notes, here)?;
    let mark = d.at;
    if tokens::kind_at(sheet.kinds, mark) != kind::EQ {
        return Ok(d);
    }
    let c = Cursor { at: mark + 1, ..d };
    let e = match singles::single_part(sheet.kinds, c.at) {
        Some(single) => leaf(rows, c, single),
        None => assign(sheet, rows, records, notes, c)?,
    };
    Ok(over(rows, e, row::BINDING_DEFAULT, mark, at, e.at, 2, here.rows))
}

// 14.3.3 BindingRestElement: an initializer is record 2 at its `=`. Follows `parse_rest_element` and `parse_rest_element_for_formal_parameter`.
#[cycle(expressions)]
fn rest(
    sheet: &Sheet,
    rows: &mut [u32],
    records: &mut [u32],
    notes: &mut [u8; 2048],
    here: Cursor,
) -> Result<Cursor, Cause>
    requires room { Room sheet.now.kinds.now rows.old records.old here }
    requires at_in_bounds { here.at < length sheet.now.kinds.now }
    ensures { Met sheet.now.kinds.now sheet.now.flags.now rows.old records.old notes.old rows.new records.new notes.new (Job.binding_rest here.at) here.rows here.records result }
{
    let at = here.at;
    let c = Cursor { at: at + 1, ..here };
    let d = element(sheet, rows, records, notes, c)?;
    let root = d.rows - 1;
    if rows::row_word(rows, root, 0) != row::BINDING_DEFAULT {
        return Ok(over(rows, d, row::BINDING_REST, at, at, d.at, 1, here.rows));
    }
    let mark = rows::row_word(rows, root, 1) as usize;
    let e = say(records, d, 2, mark);
    Ok(over(rows, e, row::BINDING_REST, at, at, e.at, 1, here.rows))
}

// A rest and its closing token, or 12. Stands for a part of `parse_delimited_list_with_rest`.
#[cycle(expressions)]
fn last(
    sheet: &Sheet,
    rows: &mut [u32],
    records: &mut [u32],
    notes: &mut [u8; 2048],
    here: Cursor,
    close: u8,
) -> Result<Cursor, Cause>
    requires room { Room sheet.now.kinds.now rows.old records.old here }
    requires at_in_bounds { here.at < length sheet.now.kinds.now }
    ensures { MetClosed sheet.now.kinds.now sheet.now.flags.now rows.old records.old notes.old rows.new records.new notes.new (Job.binding_rest here.at) close Cause.RestLast here.rows here.records result }
{
    let d = rest(sheet, rows, records, notes, here)?;
    let end = d.at;
    if tokens::kind_at(sheet.kinds, end) != close {
        return Err(Cause::RestLast(end));
    }
    Ok(Cursor { at: end + 1, ..d })
}

// 14.3.3 ArrayBindingPattern: elements, holes and a closing rest up to the `]`.
// Follows `parse_array_binding_pattern` and `parse_array_binding_element`, with the loop of `parse_delimited_list_with_rest`.
#[cycle(expressions)]
fn barray(
    sheet: &Sheet,
    rows: &mut [u32],
    records: &mut [u32],
    notes: &mut [u8; 2048],
    here: Cursor,
) -> Result<Cursor, Cause>
    requires room { Room sheet.now.kinds.now rows.old records.old here }
    requires at_in_bounds { here.at < length sheet.now.kinds.now }
    ensures { Met sheet.now.kinds.now sheet.now.flags.now rows.old records.old notes.old rows.new records.new notes.new (Job.binding_elements here.at (here.at + 1) nil) here.rows here.records result }
{
    let at = here.at;
    let mut c = Cursor { at: at + 1, ..here };
    let mut kids = 0;
    let end = loop {
        let place = c.at;
        let k = tokens::kind_at(sheet.kinds, place);
        if k == kind::R_BRACK {
            break place + 1;
        }
        kids += 1;
        if k == kind::COMMA {
            c = leaf(rows, c, row::HOLE);
            continue;
        }
        if k == kind::DOT3 {
            c = last(sheet, rows, records, notes, c, kind::R_BRACK)?;
            break c.at;
        }
        c = element(sheet, rows, records, notes, c)?;
        let close = c.at;
        let next = tokens::kind_at(sheet.kinds, close);
        if next == kind::R_BRACK {
            break close + 1;
        }
        if next != kind::COMMA {
            return Err(Cause::Unexpected(close));
        }
        c.at = close + 1;
    };
    Ok(over(rows, c, row::BINDING_ARRAY, at, at, end, kids, here.rows))
}

// 14.3.3 ObjectBindingPattern: properties and a closing rest of a bare name, or 11, up to the `}`.
// Follows `parse_object_binding_pattern`, with the loop of `parse_delimited_list_with_rest`.
#[cycle(expressions)]
fn bobject(
    sheet: &Sheet,
    rows: &mut [u32],
    records: &mut [u32],
    notes: &mut [u8; 2048],
    here: Cursor,
) -> Result<Cursor, Cause>
    requires room { Room sheet.now.kinds.now rows.old records.old here }
    requires at_in_bounds { here.at < length sheet.now.kinds.now }
    ensures { Met sheet.now.kinds.now sheet.now.flags.now rows.old records.old notes.old rows.new records.new notes.new (Job.binding_properties here.at (here.at + 1) nil) here.rows here.records result }
{
    let at = here.at;
    let mut c = Cursor { at: at + 1, ..here };
    let mut kids = 0;
    let end = loop {
        let place = c.at;
        let k = tokens::kind_at(sheet.kinds, place);
        if k == kind::R_CURLY {
            break place + 1;
        }
        kids += 1;
        if k == kind::DOT3 {
            c = last(sheet, rows, records, notes, c, kind::R_CURLY)?;
            if rows::row_word(rows, c.rows - 2, 0) != row::BINDING_NAME {
                return Err(Cause::RestName(place + 1));
            }
            break c.at;
        }
        c = bproperty(sheet, rows, records, notes, c)?;
        let close = c.at;
        let next = tokens::kind_at(sheet.kinds, close);
        if next == kind::R_CURLY {
            break close + 1;
        }
        if next != kind::COMMA {
            return Err(Cause::Unexpected(close));
        }
        c.at = close + 1;
    };
    let from = here.rows;
    Ok(over(rows, c, row::BINDING_OBJECT, at, at, end, kids, from))
}

// 14.3.3 BindingProperty: a shorthand, or a key with its element. Follows `parse_binding_property`.
#[cycle(expressions)]
fn bproperty(
    sheet: &Sheet,
    rows: &mut [u32],
    records: &mut [u32],
    notes: &mut [u8; 2048],
    here: Cursor,
) -> Result<Cursor, Cause>
    requires room { Room sheet.now.kinds.now rows.old records.old here }
    requires part_fits { PartFits sheet.now.kinds.now rows.old here }
    ensures { Met sheet.now.kinds.now sheet.now.flags.now rows.old records.old notes.old rows.new records.new notes.new (Job.binding_property here.at) here.rows here.records result }
{
    let at = here.at;
    let from = here.rows;
    if keys::is_shorthand(sheet.kinds, at) {
        let d = leaf(rows, here, row::BINDING_NAME);
        if tokens::kind_at(sheet.kinds, at + 1) != kind::EQ {
            return Ok(over(rows, d, row::BINDING_SHORTHAND, at, at, at + 1, 1, from));
        }
        let kind = row::BINDING_SHORTHAND_INIT;
        return init(sheet, rows, records, notes, d, kind, from);
    }
    let d = key(sheet, rows, records, notes, here)?;
    let colon = d.at;
    if tokens::kind_at(sheet.kinds, colon) != kind::COLON {
        return Err(Cause::Unexpected(colon));
    }
    let c = Cursor { at: colon + 1, ..d };
    let e = element(sheet, rows, records, notes, c)?;
    Ok(over(rows, e, row::PROPERTY, at, at, e.at, 2, from))
}
