// The kinds of rows by name, as RULES R5 numbers them. Words and no enum: rows are lent words (the C interface), and any word may stand there (`trees::well_formed`).
// a name that is read
pub const IDENTIFIER: u32 = 1;

pub const THIS: u32 = 2;

pub const LITERAL: u32 = 3;
// 1 kid
pub const PAREN: u32 = 4;

pub const ARRAY: u32 = 5;
// an Array with a comma after its closing spread
pub const ARRAY_REST_COMMA: u32 = 6;

pub const OBJECT: u32 = 7;
// an Object likewise
pub const OBJECT_REST_COMMA: u32 = 8;

pub const HOLE: u32 = 9;
// 1 kid
pub const SPREAD: u32 = 10;
// 1 kid, an Identifier over the same token
pub const SHORTHAND: u32 = 11;
// 2 kids, Identifier and initializer
pub const SHORTHAND_INIT: u32 = 12;
// key and value; bindings' too
pub const PROPERTY: u32 = 13;

pub const KEY: u32 = 14;
// 1 kid
pub const COMPUTED_KEY: u32 = 15;
// 1 kid
pub const MEMBER: u32 = 16;
// 2 kids
pub const INDEX: u32 = 17;
// callee and arguments
pub const CALL: u32 = 18;

pub const UNARY: u32 = 19;

pub const PREFIX_UPDATE: u32 = 20;

pub const POSTFIX_UPDATE: u32 = 21;

pub const BINARY: u32 = 22;

pub const LOGICAL: u32 = 23;
// 3 kids
pub const CONDITIONAL: u32 = 24;
// 2 kids
pub const ASSIGN: u32 = 25;
// 2 kids
pub const COMPOUND_ASSIGN: u32 = 26;

pub const SEQUENCE: u32 = 27;
// parameters and body
pub const ARROW: u32 = 28;
// parameters and body
pub const ASYNC_ARROW: u32 = 29;

pub const BINDING_NAME: u32 = 30;

pub const BINDING_ARRAY: u32 = 31;

pub const BINDING_OBJECT: u32 = 32;

pub const BINDING_REST: u32 = 33;
// 2 kids
pub const BINDING_DEFAULT: u32 = 34;
// 1 kid
pub const BINDING_SHORTHAND: u32 = 35;
// 2 kids
pub const BINDING_SHORTHAND_INIT: u32 = 36;

pub const TARGET_NAME: u32 = 40;

pub const TARGET_PAREN: u32 = 41;

pub const TARGET_ARRAY: u32 = 42;

pub const TARGET_OBJECT: u32 = 43;

pub const TARGET_REST: u32 = 44;
// 2 kids
pub const TARGET_DEFAULT: u32 = 45;

pub const TARGET_MEMBER: u32 = 46;

pub const TARGET_INDEX: u32 = 47;

pub const TARGET_PROPERTY: u32 = 48;

pub const TARGET_SHORTHAND: u32 = 49;

pub const TARGET_SHORTHAND_INIT: u32 = 50;
