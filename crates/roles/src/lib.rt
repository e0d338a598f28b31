// What a row asks of its kids in a conversion, and which rows turn by themselves.
#![tactic(auto)]

ghost use Rattle.std.specs.Prelude.{◌≡◌};
ghost use Rattle.conversion.specs.Conversion as def;
ghost use Rattle.roles.specs.Numbers as number;
ghost use Rattle.roles.specs.ShortCut as short;

use rows::row;

mod numbers;
pub mod plan;
pub mod plans;

// What conversion looks at in a row: three of its words, how many kids it has, and the last kid's kind and first token (0 where
// there is none, as in the definition of the same name).
#[derive(Clone, Copy)]
pub struct Seen {
    pub kind: u32,
    pub mark: u32,
    pub first: u32,
    pub kids: u32,
    pub last: u32,
    pub begins: u32,
}

// A name, a Member or an Index: a simple target by itself. Follows a part of `SimpleAssignmentTarget::cover`.
pub fn is_reference(kind: u32) -> bool
    ensures { result ≡ def.is_reference kind }
{
    matches!(kind, row::IDENTIFIER | row::MEMBER | row::INDEX)
}

// What becomes the value of a property by itself, with no record.
pub fn is_value(kind: u32) -> bool
    ensures { result ≡ short.is_value kind }
{
    kind == row::ASSIGN || is_reference(kind)
}

// What becomes an element of an array by itself, with no record.
pub fn is_element(kind: u32) -> bool
    ensures { result ≡ short.is_element kind }
{
    kind == row::HOLE || is_value(kind)
}

// A shorthand with an initializer: the name stands first.
pub fn is_initialized(kind: u32, kids: u32) -> bool
    ensures { result ≡ short.is_initialized kind kids }
{
    kind == row::SHORTHAND_INIT && kids == 2
}

// A key with a value, or a shorthand with a name: the last kid turns by itself, and the row with it.
pub fn ends_in_target(kind: u32, kids: u32, last: u32) -> bool
    ensures { result ≡ short.ends_in_target kind kids last }
{
    match kind {
        row::PROPERTY => kids == 2 && is_value(last),
        row::SHORTHAND => kids == 1 && last == row::IDENTIFIER,
        _ => false,
    }
}

// The kind that a row gets by itself or with the one row below that turns.
pub fn named_kind(kind: u32) -> u32
    ensures { result ≡ short.named_kind kind }
{
    match kind {
        row::IDENTIFIER => row::TARGET_NAME,
        row::MEMBER => row::TARGET_MEMBER,
        row::INDEX => row::TARGET_INDEX,
        row::ASSIGN => row::TARGET_DEFAULT,
        row::HOLE => row::HOLE,
        row::PROPERTY => row::TARGET_PROPERTY,
        row::SHORTHAND => row::TARGET_SHORTHAND,
        _ => row::TARGET_SHORTHAND_INIT,
    }
}

// The number of a plan of a row whose only kid is to be any target, or a simple one.
pub fn aim_at(simple: bool) -> usize
    ensures { result ≡ number.aimed simple }
{
    if simple {
        plan::PAREN
    } else {
        plan::REST_IN_ARRAY
    }
}

// The kind that a row gets whose plan is this number.
pub fn kind_of(of: usize) -> u32
    ensures { result ≡ number.kind of }
{
    numbers::to_plan(of).kind()
}
