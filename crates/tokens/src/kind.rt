// The kinds of tokens by name, as RULES T4 numbers them. Names are the crate's; a modifier's name and the other reserved words are one kind each.
// Bytes and no enum: a sheet is lent bytes (the C interface), and the functions here and in `operators` promise an answer for each of the 256.
pub const IDENT: u8 = 1; // a name

pub const ASYNC: u8 = 2; // async

pub const AS: u8 = 3; // as

pub const SATISFIES: u8 = 4; // satisfies

pub const MODIFIER: u8 = 5; // a modifier name: abstract accessor declare out override private protected public readonly static

pub const CONST: u8 = 6; // const

pub const THIS: u8 = 7; // this

pub const NULL: u8 = 8; // null

pub const TRUE: u8 = 9; // true

pub const FALSE: u8 = 10; // false

pub const STR: u8 = 11; // a string

pub const NUMBER: u8 = 12; // a number

pub const REG_EXP: u8 = 13; // a regular expression

pub const AWAIT: u8 = 14; // await

pub const YIELD: u8 = 15; // yield

pub const EXTENDS: u8 = 16; // extends

pub const RESERVED: u8 = 17; // another reserved word

pub const L_PAREN: u8 = 18; // (

pub const R_PAREN: u8 = 19; // )

pub const L_BRACK: u8 = 20; // [

pub const R_BRACK: u8 = 21; // ]

pub const L_CURLY: u8 = 22; // {

pub const R_CURLY: u8 = 23; // }

pub const COMMA: u8 = 24; // ,

pub const COLON: u8 = 25; // :

pub const QUESTION: u8 = 26; // ?

pub const DOT: u8 = 27; // .

pub const DOT3: u8 = 28; // ...

pub const ARROW: u8 = 29; // =>

pub const BANG: u8 = 30; // !

pub const TILDE: u8 = 31; // ~

pub const TYPEOF: u8 = 32; // typeof

pub const VOID: u8 = 33; // void

pub const DELETE: u8 = 34; // delete

pub const NEW: u8 = 35; // new

pub const PLUS2: u8 = 36; // ++

pub const MINUS2: u8 = 37; // --

pub const QUESTION2: u8 = 38; // ??

pub const PIPE2: u8 = 39; // ||

pub const AMP2: u8 = 40; // &&

pub const PIPE: u8 = 41; // |

pub const CARET: u8 = 42; // ^

pub const AMP: u8 = 43; // &

pub const EQ2: u8 = 44; // ==

pub const EQ3: u8 = 45; // ===

pub const NEQ: u8 = 46; // !=

pub const NEQ2: u8 = 47; // !==

pub const L_ANGLE: u8 = 48; // <

pub const R_ANGLE: u8 = 49; // >

pub const LT_EQ: u8 = 50; // <=

pub const GT_EQ: u8 = 51; // >=

pub const INSTANCEOF: u8 = 52; // instanceof

pub const IN: u8 = 53; // in

pub const SHIFT_LEFT: u8 = 54; // <<

pub const SHIFT_RIGHT: u8 = 55; // >>

pub const SHIFT_RIGHT3: u8 = 56; // >>>

pub const PLUS: u8 = 57; // +

pub const MINUS: u8 = 58; // -

pub const STAR: u8 = 59; // *

pub const SLASH: u8 = 60; // /

pub const PERCENT: u8 = 61; // %

pub const STAR2: u8 = 62; // **

pub const EQ: u8 = 63; // =

pub const PLUS_EQ: u8 = 64; // +=

pub const MINUS_EQ: u8 = 65; // -=

pub const STAR_EQ: u8 = 66; // *=

pub const SLASH_EQ: u8 = 67; // /=

pub const PERCENT_EQ: u8 = 68; // %=

pub const SHIFT_LEFT_EQ: u8 = 69; // <<=

pub const SHIFT_RIGHT_EQ: u8 = 70; // >>=

pub const SHIFT_RIGHT3_EQ: u8 = 71; // >>>=

pub const PIPE_EQ: u8 = 72; // |=

pub const CARET_EQ: u8 = 73; // ^=

pub const AMP_EQ: u8 = 74; // &=

pub const AMP2_EQ: u8 = 75; // &&=

pub const PIPE2_EQ: u8 = 76; // ||=

pub const QUESTION2_EQ: u8 = 77; // ??=

pub const STAR2_EQ: u8 = 78; // **=
