// Heads of arrow functions (15.3, 15.9): where one may open, and what is known of one that was read.
#![tactic(auto)]

ghost use Rattle.std.specs.Prelude.{◌≡◌, ◌≤◌, ◌<◌, length};
ghost use Rattle.grammar.specs.Assignment.{is_async_name};
ghost use Rattle.grammar.specs.Sheet.{sheet_of};
ghost use Rattle.heads.specs.Heads.{Dropped, is_block, may_open, way_at, way_of, arrow_kind};

use lookahead::Tristate;
use rows::row;
use tokens::{Sheet, classes, kind};

pub mod singles;

// What to do where the assignment level starts: pass a head, try one, or read one for good.
#[derive(Clone, Copy, Debug, PartialEq, Eq)]
pub enum Way {
    Pass,
    Attempt,
    Commit,
}

// `(` and Async may open a head. Follows a part of `is_parenthesized_arrow_function_expression`.
#[tactic(auto, unfolding(crate::specs::Heads::may_open))]
fn may_open(k: u8) -> bool
    ensures { result ≡ may_open k }
{
    matches!(k, kind::L_PAREN | kind::ASYNC)
}

// The three-way answer with both flags off, at `(` or Async; a place whose head failed is passed.
// Follows `try_parse_parenthesized_arrow_function_expression` and a part of `parse_possible_parenthesized_arrow_function_expression`.
#[tactic(auto, unfolding(crate::specs::Heads::way_of, crate::specs::Heads::way_at, grammar::specs::Reading::way_of))]
pub fn way_at(sheet: &Sheet, notes: &[u8; 2048], at: usize) -> Way
    requires { length sheet.now.kinds.now ≤ 2048 }
    ensures { way_of result ≡ way_at sheet.now.kinds.now sheet.now.flags.now notes.now at }
{
    if !may_open(tokens::kind_at(sheet.kinds, at)) {
        return Way::Pass;
    }
    let answer = lookahead::is_parenthesized_arrow_function_expression(
        sheet.kinds,
        sheet.flags,
        false,
        false,
        at,
    );
    match answer {
        Tristate::False => Way::Pass,
        Tristate::True => Way::Commit,
        Tristate::Maybe if notes[at] != 0 => Way::Pass,
        Tristate::Maybe => Way::Attempt,
    }
}

// Drops a head that failed: its place is noted, and none of its records stays. The answer is how many records there are then.
// Follows a part of `parse_possible_parenthesized_arrow_function_expression`.
// Notes are bytes, 0 or 1: so RULES S5 has them, and so the definition of a reading counts them.
pub fn drop_head(notes: &mut [u8; 2048], at: usize, said: usize) -> usize
    requires { at < 2048 }
    ensures { Dropped notes.old at said notes.new result }
{
    notes[at] = 1;
    said
}

// A head that was read: the kind of its arrow, where it begins, the row of its first parameter, and how many parameters it has.
// Follows `ArrowFunctionHead`.
#[derive(Clone, Copy, Debug, PartialEq, Eq)]
pub struct Head {
    pub kind: u32,
    pub first: usize,
    pub from: usize,
    pub kids: usize,
}

// The head that began at a place. Follows a part of `parse_parenthesized_arrow_function_head`.
#[tactic(auto, unfolding(crate::specs::Heads::arrow_kind))]
pub fn head_of(kinds: &[u8], first: usize, from: usize, kids: usize) -> Head
    ensures { result ≡ record { kind = arrow_kind kinds.now first; first = first; from = from; kids = kids } }
{
    let kind = if tokens::kind_at(kinds, first) == kind::ASYNC {
        row::ASYNC_ARROW
    } else {
        row::ARROW
    };
    Head {
        kind,
        first,
        from,
        kids,
    }
}

// Async, a name on its line, and `=>`. Follows `is_un_parenthesized_async_arrow_function_worker`.
#[tactic(auto, unfolding(grammar::specs::Assignment::is_async_name))]
pub fn is_async_name(sheet: &Sheet, at: usize) -> bool
    ensures { result ≡ is_async_name (sheet_of sheet.now.kinds.now sheet.now.flags.now) at }
{
    tokens::kind_at(sheet.kinds, at) == kind::ASYNC
        && classes::is_name(tokens::kind_after(sheet.kinds, at, 1))
        && tokens::flag_after(sheet.flags, at, 1) != 1
        && tokens::kind_after(sheet.kinds, at, 2) == kind::ARROW
}

// Whether a body that begins at the place is a block, which the box does not read. Follows a part of `parse_arrow_function_expression_body`.
pub fn is_block(kinds: &[u8], at: usize) -> bool
    ensures { result ≡ is_block kinds.now at }
{
    tokens::kind_at(kinds, at) == kind::L_CURLY
}
