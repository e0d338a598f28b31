// Which kids a row of each kind may have, by the table.
ghost use Rattle.std.specs.Prelude.{◌≡◌, ◌+◌, ◌<◌, ◌≤◌, leb};
ghost use Rattle.tokens.specs.Bool.{◌and◌};
ghost use Rattle.rows.specs.Mask.{has, Cell};
ghost use Rattle.rows.specs.Shape.{is_listed as listed, shape_of, least, may_be, may_end, fits as may_stand};

use crate::table::{PARAMETERS, S, closing, first, last, many, second, third};
use rows::row;

// The listed kinds: 1 to 36, 40 to 50.
#[tactic(auto, unfolding(rows::specs::Shape::is_listed))]
pub fn is_listed(kind: u32) -> bool
    ensures { result ≡ listed kind }
{
    matches!(
        kind,
        row::IDENTIFIER..=row::BINDING_SHORTHAND_INIT
            | row::TARGET_NAME..=row::TARGET_SHORTHAND_INIT
    )
}

// Whether a set of kinds has this one.
#[tactic(auto, unfolding(rows::specs::Mask::has))]
fn holds(kinds: u64, kind: u32) -> bool
    requires { kind < 64 }
    ensures { result ≡ has kinds kind }
{
    (kinds >> kind) % 2 == 1
}

// How many kids stand in front. It stops at the first that is there: a sum of three looks for each kid takes a conversion a third more time.
fn front(kind: u32) -> u64
    ensures is { Cell (shape_of kind) 0 result }
    ensures few { result ≤ 3 }
{
    if third(kind) != 0 {
        return 3;
    }
    if second(kind) != 0 {
        return 2;
    }
    u64::from(first(kind) != 0)
}

// The kinds of one of the three kids that may stand in front.
fn front_kinds(kind: u32, before: u64) -> u64
    requires { before < 3 }
    ensures { Cell (shape_of kind) (before + 1) result }
{
    match before {
        0 => first(kind),
        1 => second(kind),
        _ => third(kind),
    }
}

// How many kids stand at the end: one or none.
fn ending(kind: u32) -> u64
    ensures is { Cell (shape_of kind) 6 result }
    ensures few { result ≤ 1 }
{
    u64::from(last(kind) != 0)
}

// Whether the kind is listed and a row of it may have so many kids: no fewer than the fixed ones.
pub fn is_enough(kind: u32, kids: u64) -> bool
    ensures { result ≡ (listed kind and leb (least (shape_of kind)) kids) }
{
    is_listed(kind) && front(kind) + ending(kind) <= kids
}

// Whether a row of this kind may have a kid of kind `kid` with so many kids before it and so many after it.
fn may_be(kind: u32, before: u64, after: u64, kid: u32) -> bool
    requires { kid < 64 }
    ensures { result ≡ may_be (shape_of kind) before after kid }
{
    if before < front(kind) {
        return holds(front_kinds(kind, before), kid);
    }
    let end = ending(kind);
    if after < end {
        return holds(last(kind), kid);
    }
    holds(many(kind), kid) || after == end && holds(closing(kind), kid)
}

// Whether a kid of kind `kid` may have a last kid of kind `last` under a row of this kind.
#[tactic(auto, using(crate::proofs::Shapes::last_kids), unfolding(rows::specs::Shape::may_end))]
fn may_end(kind: u32, kid: u32, last: u32) -> bool
    ensures { result ≡ may_end kind kid last }
{
    match kid {
        row::PROPERTY if kind == row::BINDING_OBJECT => last < 64 && holds(PARAMETERS, last),
        row::PROPERTY => last < 64 && holds(S, last),
        row::BINDING_REST if kind == row::BINDING_OBJECT => last == row::BINDING_NAME,
        _ => true,
    }
}

// Whether a row of this kind may have a kid of kind `kid`, with so many kids before it and so many after it, its own last kid of
// kind `last` (0 if it has none). A kind that is not listed has no kids and is none.
#[tactic(auto, using(crate::proofs::Shapes::no_kid), unfolding(rows::specs::Shape::fits))]
pub fn fits(kind: u32, before: u64, after: u64, kid: u32, last: u32) -> bool
    ensures { result ≡ may_stand kind before after kid last }
{
    if 63 < kid {
        return false;
    }
    may_be(kind, before, after, kid) && may_end(kind, kid, last)
}
