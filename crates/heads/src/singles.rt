// Expressions of one token (13.2): a name, `this` or a literal from which nothing goes on.
ghost use Rattle.std.specs.Prelude.{◌≤◌, ◌≡◌, length};
ghost use Rattle.heads.specs.Singles.{single_row, goes_on, closes, single_operand, single_part, part_start};

use rows::row;
use tokens::{classes, kind};

// The row of a primary expression of one token, if the token is one.
#[tactic(auto, unfolding(crate::specs::Singles::single_row))]
pub fn single_row(k: u8) -> Option<u32>
    ensures { result ≡ single_row k }
{
    if classes::is_name(k) {
        return Some(row::IDENTIFIER);
    }
    if k == kind::THIS {
        return Some(row::THIS);
    }
    if classes::is_literal(k) {
        return Some(row::LITERAL);
    }
    None
}

// What goes on from an operand of one token: `.` `[` `(` `++` `--`
#[tactic(auto, unfolding(crate::specs::Singles::goes_on, grammar::specs::Update::is_update_operator))]
fn goes_on(k: u8) -> bool
    ensures { result ≡ goes_on k }
{
    matches!(
        k,
        kind::PLUS2 | kind::MINUS2 | kind::DOT | kind::L_BRACK | kind::L_PAREN
    )
}

// What nothing goes on to: `,` `:` `)` `]` `}`
#[tactic(auto, unfolding(crate::specs::Singles::closes))]
fn closes(k: u8) -> bool
    ensures { result ≡ closes k }
{
    matches!(
        k,
        kind::COMMA..=kind::COLON | kind::R_PAREN | kind::R_BRACK | kind::R_CURLY
    )
}

// The row of an operand of one token, and none where the operand may have more.
#[tactic(auto, unfolding(crate::specs::Singles::single_operand))]
pub fn single_operand(kinds: &[u8], at: usize) -> Option<u32>
    ensures { result ≡ single_operand kinds.now at }
{
    if goes_on(tokens::kind_after(kinds, at, 1)) {
        return None;
    }
    single_row(tokens::kind_at(kinds, at))
}

// The row of an assignment expression of one token, and none where it may have more. Async is left to the heads.
#[tactic(auto, unfolding(crate::specs::Singles::single_part))]
pub fn single_part(kinds: &[u8], at: usize) -> Option<u32>
    ensures { result ≡ single_part kinds.now at }
{
    if !closes(tokens::kind_after(kinds, at, 1)) {
        return None;
    }
    let k = tokens::kind_at(kinds, at);
    if k == kind::ASYNC {
        return None;
    }
    single_row(k)
}

// Where the AssignmentExpression of an element or an argument begins: past the `...` of a spread.
#[tactic(auto, unfolding(crate::specs::Singles::part_start))]
pub fn part_start(kinds: &[u8], at: usize) -> usize
    requires { at ≤ length kinds.now }
    ensures { result ≡ part_start kinds.now at }
{
    if tokens::kind_at(kinds, at) == kind::DOT3 {
        return at + 1;
    }
    at
}
