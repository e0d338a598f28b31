// The kids of a row of each kind: the table of rows/specs/Shape.antt, with a set of kinds as the bits of a number. For each kind, the kinds of its
// fixed kids in front, of any number of kids after them, of one closing kid, and of the fixed kid at the end; 0 where a kind has no such kids.
#![tactic(auto, unfolding(rows::specs::Mask::bits, rows::specs::Mask::mask, rows::specs::Mask::cells, rows::specs::Shape::is_left_hand_side, rows::specs::Shape::is_unary, rows::specs::Shape::is_binary, rows::specs::Shape::is_logical, rows::specs::Shape::is_assignment, rows::specs::Shape::is_expression, rows::specs::Shape::is_body, rows::specs::Shape::is_binding, rows::specs::Shape::is_parameter, rows::specs::Shape::is_simple_target, rows::specs::Shape::is_target, rows::specs::Shape::only, rows::specs::Shape::nothing, rows::specs::Shape::shape_of,))]

ghost use Rattle.rows.specs.Mask.{Cell};
ghost use Rattle.rows.specs.Shape.{shape_of};

use rows::row;

// L: 1 to 8, 16 to 18
const L: u64 = 0x7_01fe;

// U: L, 19 to 21
const U: u64 = L | 0x38_0000;

// B: U, 22
const B: u64 = U | 0x40_0000;

// G: B, 23
const G: u64 = B | 0x80_0000;

// S: G, 24 to 26, 28, 29
pub const S: u64 = G | 0x3700_0000;

// E: S, 27
const E: u64 = S | 0x800_0000;

// 30 to 32
const BINDINGS: u64 = 0x1_c000_0000;

// Binding, 34
pub const PARAMETERS: u64 = BINDINGS | 0x4_0000_0000;

// 40, 41, 46, 47
const SIMPLE_TARGETS: u64 = 0xc300_0000_0000;

// a simple target, 42, 43
const TARGETS: u64 = SIMPLE_TARGETS | 0xc00_0000_0000;

// in an Array: S, 9, 10
const ELEMENT: u64 = S | 0x600;

// in an Object: 10 to 13
const PROPERTY: u64 = 0x3c00;

// 14, 15
const KEY: u64 = 0xc000;

// of a Property: S, Binding, 34
const VALUE: u64 = S | PARAMETERS;

// of a Call: S, 10
const ARGUMENT: u64 = S | 0x400;

// of an arrow: S, but no 7 or 8
const BODY: u64 = S - 0x180;

// in a BindingArray: Binding, 34, 9
const BINDING_ELEMENT: u64 = PARAMETERS | 0x200;

// in a BindingObject: 35, 36, 13
const BINDING_PROPERTY: u64 = 0x18_0000_2000;

// in a TargetArray: target, 9, 45
const TARGET_ELEMENT: u64 = TARGETS | 0x2000_0000_0200;

// in a TargetObject: 48 to 50
const TARGET_PROPERTY: u64 = 0x7_0000_0000_0000;

// of a TargetProperty: target, 45
const TARGET_VALUE: u64 = TARGETS | 0x2000_0000_0000;

// one kind alone
const ONLY_IDENTIFIER: u64 = 0x2;

const ONLY_SPREAD: u64 = 0x400;

const ONLY_BINDING_NAME: u64 = 0x4000_0000;

const ONLY_BINDING_REST: u64 = 0x2_0000_0000;

const ONLY_TARGET_NAME: u64 = 0x100_0000_0000;

const ONLY_TARGET_REST: u64 = 0x1000_0000_0000;

// The first kid.
pub fn first(kind: u32) -> u64
    ensures { Cell (shape_of kind) 1 result }
{
    match kind {
        row::PAREN => E,
        row::SPREAD => S,
        row::SHORTHAND => ONLY_IDENTIFIER,
        row::SHORTHAND_INIT => ONLY_IDENTIFIER,
        row::PROPERTY => KEY,
        row::COMPUTED_KEY => S,
        row::MEMBER => L,
        row::INDEX => L,
        row::CALL => L,
        row::UNARY => U,
        row::PREFIX_UPDATE => SIMPLE_TARGETS,
        row::POSTFIX_UPDATE => SIMPLE_TARGETS,
        row::BINARY => B,
        row::LOGICAL => G,
        row::CONDITIONAL => G,
        row::ASSIGN => TARGETS,
        row::COMPOUND_ASSIGN => SIMPLE_TARGETS,
        row::SEQUENCE => S,
        row::BINDING_REST => PARAMETERS,
        row::BINDING_DEFAULT => BINDINGS,
        row::BINDING_SHORTHAND => ONLY_BINDING_NAME,
        row::BINDING_SHORTHAND_INIT => ONLY_BINDING_NAME,
        row::TARGET_PAREN => SIMPLE_TARGETS,
        row::TARGET_REST => TARGETS,
        row::TARGET_DEFAULT => TARGETS,
        row::TARGET_MEMBER => L,
        row::TARGET_INDEX => L,
        row::TARGET_PROPERTY => KEY,
        row::TARGET_SHORTHAND => ONLY_TARGET_NAME,
        row::TARGET_SHORTHAND_INIT => ONLY_TARGET_NAME,
        _ => 0,
    }
}

// The second kid.
pub fn second(kind: u32) -> u64
    ensures { Cell (shape_of kind) 2 result }
{
    match kind {
        row::SHORTHAND_INIT => S,
        row::PROPERTY => VALUE,
        row::INDEX => E,
        row::BINARY => B,
        row::LOGICAL => G,
        row::CONDITIONAL => S,
        row::ASSIGN => S,
        row::COMPOUND_ASSIGN => S,
        row::SEQUENCE => S,
        row::BINDING_DEFAULT => S,
        row::BINDING_SHORTHAND_INIT => S,
        row::TARGET_DEFAULT => S,
        row::TARGET_INDEX => E,
        row::TARGET_PROPERTY => TARGET_VALUE,
        row::TARGET_SHORTHAND_INIT => S,
        _ => 0,
    }
}

// The third kid: only a Conditional's is fixed.
pub fn third(kind: u32) -> u64
    ensures { Cell (shape_of kind) 3 result }
{
    match kind {
        row::CONDITIONAL => S,
        _ => 0,
    }
}

// Any number of kids.
pub fn many(kind: u32) -> u64
    ensures { Cell (shape_of kind) 4 result }
{
    match kind {
        row::ARRAY => ELEMENT,
        row::ARRAY_REST_COMMA => ELEMENT,
        row::OBJECT => PROPERTY,
        row::OBJECT_REST_COMMA => PROPERTY,
        row::CALL => ARGUMENT,
        row::SEQUENCE => S,
        row::ARROW => PARAMETERS,
        row::ASYNC_ARROW => PARAMETERS,
        row::BINDING_ARRAY => BINDING_ELEMENT,
        row::BINDING_OBJECT => BINDING_PROPERTY,
        row::TARGET_ARRAY => TARGET_ELEMENT,
        row::TARGET_OBJECT => TARGET_PROPERTY,
        _ => 0,
    }
}

// One closing kid.
pub fn closing(kind: u32) -> u64
    ensures { Cell (shape_of kind) 5 result }
{
    match kind {
        row::ARROW => ONLY_BINDING_REST,
        row::ASYNC_ARROW => ONLY_BINDING_REST,
        row::BINDING_ARRAY => ONLY_BINDING_REST,
        row::BINDING_OBJECT => ONLY_BINDING_REST,
        row::TARGET_ARRAY => ONLY_TARGET_REST,
        row::TARGET_OBJECT => ONLY_TARGET_REST,
        _ => 0,
    }
}

// The fixed kid at the end.
pub fn last(kind: u32) -> u64
    ensures { Cell (shape_of kind) 7 result }
{
    match kind {
        row::ARRAY_REST_COMMA => ONLY_SPREAD,
        row::OBJECT_REST_COMMA => ONLY_SPREAD,
        row::ARROW => BODY,
        row::ASYNC_ARROW => BODY,
        _ => 0,
    }
}
