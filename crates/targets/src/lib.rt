// Conversion of what was read as an expression to an assignment target (RULES C).
// That a row roots a tree (`Subtree`) is asked of rows and a root, and is no field of a struct of both: each step asks it of another root, and the functions that write ask it of rows that change.
#![tactic(auto)]

ghost use Rattle.std.specs.Prelude.{◌+◌, ◌-◌, ◌≡◌, [], ◌∷◌, length, IfSome};
ghost use Rattle.rows.specs.Record.{says};
ghost use Rattle.rows.specs.Post.{Word};
ghost use Rattle.roles.specs.Meaning as means;
ghost use Rattle.targets.specs.Outcome as outcome;
ghost use Rattle.conversion.specs.Entry.{Answered};
ghost use Rattle.targets.specs.Post.{Subtree, WordInside, SizeInside, FirstRow, PlanAt, Judged, Sums, Counted, Own, NoteFits, Written, FinishFits, Finished, Ready, TurnedRow, Room, RowConverted};
ghost use Rattle.targets.specs.Post.{NameUnder, NameBelow, NameInside, NameSet, PlainArray, PlainReady, PlainTurned};

use roles::Seen;
use roles::plan::Plan;
use rows::{clear_from, row, row_word, set_kind};
use tokens::cause::{Answer, Cause, Counts};
use trees::well_formed;

// A word of a row.
fn word_at(rows: &[u32], n: usize, word: usize) -> u32
    requires { WordInside (length rows.now) n word }
    ensures { Word rows.now n word result }
{
    rows[6 * n + word]
}

// The size of the tree whose root stands before a row.
fn size_before(rows: &[u32], end: usize) -> usize
    requires { SizeInside (length rows.now) end }
    ensures { Word rows.now (end - 1) 5 result }
{
    rows[6 * end - 1] as usize
}

// The first row of the tree with this root.
fn first_row(rows: &[u32], root: usize) -> usize
    requires { Subtree rows.now root }
    ensures { FirstRow rows.now root result }
{
    root + 1 - word_at(rows, root, 5) as usize
}

// What a row becomes as a kid, the last one or not, of a row of the plan `under`.
fn plan_at(rows: &[u32], root: usize, under: Plan, last: bool) -> Plan
    requires { Subtree rows.now root }
    ensures { PlanAt rows.now root (means.kid under «last») result }
{
    let kind = word_at(rows, root, 0);
    let mark = word_at(rows, root, 1);
    let first = word_at(rows, root, 2);
    let kids = word_at(rows, root, 4);
    let mut below = 0;
    let mut begins = 0;
    if kids != 0 {
        below = word_at(rows, root - 1, 0);
        begins = word_at(rows, root - 1, 2);
    }
    Plan::of_kid(
        under,
        last,
        Seen {
            kind,
            mark,
            first,
            kids,
            last: below,
            begins,
        },
    )
}

// What comes of a row and of the rows after it: the first refusal, or all records.
fn both(one: Result<usize, Cause>, rest: Result<usize, Cause>) -> Result<usize, Cause>
    requires { Sums one rest }
    ensures { result ≡ outcome.both one rest }
{
    Ok(one? + rest?)
}

// How many records the comma after a rest gives.
fn comma_count(comma: Option<u32>) -> usize
    ensures { result ≡ length (means.commas comma) }
{
    match comma {
        None => 0,
        Some(_) => 1,
    }
}

// What comes of a row by itself: its refusal, or how many records it gives beside its kids'.
#[tactic(auto, unfolding(roles::specs::Meaning::plan, roles::specs::Meaning::before, roles::specs::Meaning::after))]
fn own(of: Plan) -> Result<usize, Cause>
    ensures { Own of result }
{
    match of {
        Plan::RestInArray(comma) => Ok(comma_count(comma)),
        Plan::RestInObject(comma) => Ok(comma_count(comma)),
        Plan::WrongRest(comma) => Ok(comma_count(comma) + 1),
        Plan::Compound(_) => Ok(1),
        Plan::NoTarget(place) => Err(Cause::Target(place as usize)),
        Plan::NotLast(place) => Err(Cause::Spread(place as usize)),
        _ => Ok(0),
    }
}

// The row below a property that is all there is to convert beside it, with no record.
fn name_below(rows: &[u32], root: usize) -> Option<usize>
    requires { Subtree rows.now root }
    ensures { IfSome result (λ at. NameBelow rows.now root at) }
{
    let kind = word_at(rows, root, 0);
    let kids = word_at(rows, root, 4);
    if roles::is_initialized(kind, kids) {
        let size = word_at(rows, root - 1, 5) as usize;
        let name = root - size - 1;
        return (word_at(rows, name, 0) == row::IDENTIFIER).then_some(name);
    }
    if kids == 0 {
        return None;
    }
    roles::ends_in_target(kind, kids, word_at(rows, root - 1, 0)).then_some(root - 1)
}

// The row that is all there is to convert in a kid of a row of the plan `of`, with no record: the kid itself, or what stands below a
// property.
fn name_at(rows: &[u32], root: usize, of: Plan) -> Option<usize>
    requires { Subtree rows.now root }
    ensures { IfSome result (λ at. NameUnder rows.now root of at) }
{
    let kind = word_at(rows, root, 0);
    match of {
        Plan::Object(_) => name_below(rows, root),
        Plan::Array(_) => roles::is_element(kind).then_some(root),
        Plan::Property | Plan::Shorthand | Plan::ShorthandInit => None,
        _ => roles::is_reference(kind).then_some(root),
    }
}

// Gives a row the kind that it gets by itself, and the row over it the kind that it gets with it; they may be one row.
fn turn_name(rows: &mut [u32], root: usize, name: usize)
    requires { NameInside (length rows.old) root name }
    ensures { NameSet rows.old root name rows.new }
{
    let kind = roles::named_kind(word_at(rows, root, 0));
    let below = roles::named_kind(word_at(rows, name, 0));
    set_kind(rows, name, below);
    set_kind(rows, root, kind);
}

// Whether the row can become what the row over it asks, and with how many records, before what was found of the rows after it. It changes
// no row. Follows `CoverGrammar::cover`.
fn judge(rows: &[u32], root: usize, under: Plan, last: bool, found: &mut Result<usize, Cause>)
    requires rooted { Subtree rows.now root }
    requires counted { Counted (root + 1) found.old }
    ensures { Judged rows.now root (means.kid under «last») found.old found.new }
{
    let of = plan_at(rows, root, under, last);
    *found = both(own(of), *found);
    if of.is_alone() {
        return;
    }
    let mut end = root;
    while first_row(rows, root) < end {
        if name_at(rows, end - 1, of).is_none() {
            judge(rows, end - 1, of, end == root, found);
        }
        end -= size_before(rows, end);
    }
}

// Writes a record before the record `end`, and returns where it stands. Stands for `error`.
fn write_record(records: &mut [u32], end: usize, number: u32, place: u32) -> usize
    requires { NoteFits (length records.old) end (says number place ∷ []) }
    ensures { Written records.old end (says number place ∷ []) records.new result }
{
    let start = end - 1;
    records[2 * start] = number;
    records[2 * start + 1] = place;
    start
}

// Writes the record of the comma after a rest, if there is one.
// Follows a part of `ArrayAssignmentTarget::cover` and of `ObjectAssignmentTarget::cover`.
fn write_comma(records: &mut [u32], end: usize, comma: Option<u32>) -> usize
    requires { NoteFits (length records.old) end (means.commas comma) }
    ensures { Written records.old end (means.commas comma) records.new result }
{
    match comma {
        None => end,
        Some(first) => write_record(records, end, 4, first),
    }
}

// Writes the record after those of the kids, if there is one. Follows a part of `ArrayAssignmentTarget::cover`.
fn note_after(records: &mut [u32], end: usize, of: Plan) -> usize
    requires { NoteFits (length records.old) end (means.after of) }
    ensures { Written records.old end (means.after of) records.new result }
{
    match of {
        Plan::RestInArray(comma) => write_comma(records, end, comma),
        _ => end,
    }
}

// Gives the row its kind, and writes the records before those of its kids.
// Follows a part of `ObjectAssignmentTarget::cover` and of `AssignmentTargetMaybeDefault::cover`.
fn finish(rows: &mut [u32], root: usize, of: Plan, records: &mut [u32], start: usize) -> usize
    requires { FinishFits rows.old root of (length records.old) start }
    ensures { Finished rows.old records.old root of start rows.new records.new result }
{
    set_kind(rows, root, of.kind());
    match of {
        Plan::RestInObject(comma) => write_comma(records, start, comma),
        Plan::WrongRest(comma) => {
            let begins = word_at(rows, root - 1, 2);
            let middle = write_comma(records, start, comma);
            write_record(records, middle, 3, begins)
        }
        Plan::Compound(mark) => write_record(records, start, 5, mark),
        _ => start,
    }
}

// Makes a row that was judged fine what the row over it asks, and writes its records before the record `end`; returns where they begin.
// Follows `CoverGrammar::cover`.
fn turn(
    rows: &mut [u32],
    root: usize,
    under: Plan,
    last: bool,
    records: &mut [u32],
    end: usize,
) -> usize
    requires { Ready rows.old root (means.kid under «last») (length records.old) end }
    ensures { TurnedRow rows.old records.old root (means.kid under «last») end rows.new records.new result }
{
    let of = plan_at(rows, root, under, last);
    if of.is_alone() {
        return finish(rows, root, of, records, end);
    }
    let mut start = note_after(records, end, of);
    let mut stop = root;
    while first_row(rows, root) < stop {
        if let Some(name) = name_at(rows, stop - 1, of) {
            turn_name(rows, stop - 1, name);
        } else {
            start = turn(rows, stop - 1, of, stop == root, records, start);
        }
        stop -= size_before(rows, stop);
    }
    finish(rows, root, of, records, start)
}

// Whether all kids of a row become elements of an array by themselves, with no record.
fn is_plain_array(rows: &[u32], root: usize) -> bool
    requires { Subtree rows.now root }
    ensures { PlainArray rows.now root result }
{
    let mut end = root;
    while first_row(rows, root) < end {
        let kind = word_at(rows, end - 1, 0);
        if !roles::is_element(kind) {
            return false;
        }
        end -= size_before(rows, end);
    }
    true
}

// Makes such an Array and its kids targets.
fn turn_plain_array(rows: &mut [u32], root: usize)
    requires { PlainReady rows.old root }
    ensures { PlainTurned rows.old root rows.new }
{
    let mut stop = root;
    while first_row(rows, root) < stop {
        let kind = roles::named_kind(word_at(rows, stop - 1, 0));
        set_kind(rows, stop - 1, kind);
        stop -= size_before(rows, stop);
    }
    set_kind(rows, root, row::TARGET_ARRAY);
}

// Converts a row to any target or to a simple one: its kinds change and its records are added, or nothing changes.
// Follows `AssignmentTarget::cover` and `SimpleAssignmentTarget::cover`.
pub fn convert_row(
    rows: &mut [u32],
    root: usize,
    simple: bool,
    records: &mut [u32],
    used: usize,
) -> Result<usize, Cause>
    requires { Room rows.old root (length records.old) used }
    ensures { RowConverted rows.old records.old root (means.aim simple) used rows.new records.new result }
{
    let kind = word_at(rows, root, 0);
    if roles::is_reference(kind) {
        set_kind(rows, root, roles::named_kind(kind));
        return Ok(0);
    }
    if !simple {
        if kind == row::ARRAY {
            if is_plain_array(rows, root) {
                turn_plain_array(rows, root);
                return Ok(0);
            }
        }
    }
    let under = Plan::aimed(simple);
    let mut found = Ok(0);
    judge(rows, root, under, true, &mut found);
    let count = found?;
    turn(rows, root, under, true, records, used + count);
    Ok(count)
}

// Conversion as its own entry: the row of a tree becomes any target, with its records, or nothing changes.
pub fn convert(tree: &mut [u32], row: usize, records: &mut [u32]) -> Answer
    ensures { Answered tree.old records.old row result tree.new records.new }
{
    let length = tree.len();
    if length == 0 {
        return Answer::Refused(Cause::Length(0));
    }
    if 12288 < length {
        return Answer::Refused(Cause::Length(0));
    }
    if !well_formed(tree) {
        return Answer::Refused(Cause::Tree(0));
    }
    if length / 6 <= row {
        return Answer::Refused(Cause::Outside(0));
    }
    let size = row_word(tree, row, 5) as usize;
    if records.len() < 2 * size {
        return Answer::Refused(Cause::RecordRoom(0));
    }
    match convert_row(tree, row, false, records, 0) {
        Err(cause) => Answer::Refused(cause),
        Ok(count) => {
            clear_from(records, 2 * count);
            Answer::Read(Counts {
                rows: size,
                records: count,
                abandoned: 0,
            })
        }
    }
}
