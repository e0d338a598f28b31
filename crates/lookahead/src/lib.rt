// The three-way answer (RULES L; arrow.rs): whether an arrow head starts at a place, from the next few tokens.
#![tactic(auto)]

ghost use Rattle.std.specs.Prelude.{◌≡◌, true, false};
ghost use Rattle.lookahead.specs.ThreeWay.{three_way, after_open, after_paren, after_angle, no_parameters, rest_parameter, modified_name, after_name, first_parameter, names_type, type_parameter};
ghost use Rattle.lookahead.specs.Entry.{three_way_entry, check_place};

use tokens::cause::Cause;
use tokens::{checks, classes, kind};

// What the next tokens say of a head: it is none, it is one, or it has to be tried. Follows `Tristate`.
#[derive(Clone, Copy, Debug, PartialEq, Eq)]
pub enum Tristate {
    False,
    True,
    Maybe,
}

// `()`: what stands after it decides. Follows a part of `is_parenthesized_arrow_function_expression_worker`.
#[tactic(auto, unfolding(crate::specs::ThreeWay::no_parameters))]
fn no_parameters(is_ts: bool, is_async: bool, third: u8) -> Tristate
    ensures { result ≡ no_parameters is_ts is_async third }
{
    match third {
        kind::COLON if is_ts && is_async => Tristate::Maybe,
        kind::COLON if is_ts => Tristate::True,
        kind::ARROW | kind::L_CURLY => Tristate::True,
        _ => Tristate::False,
    }
}

// `(...`: a plain name makes it a head, a literal none. Follows a part of `is_parenthesized_arrow_function_expression_worker`.
#[tactic(auto, unfolding(crate::specs::ThreeWay::rest_parameter))]
fn rest_parameter(third: u8) -> Tristate
    ensures { result ≡ rest_parameter third }
{
    if third == kind::IDENT {
        return Tristate::True;
    }
    if classes::is_literal(third) {
        return Tristate::False;
    }
    Tristate::Maybe
}

// `(` a name or `this`, and what stands after it. Follows a part of `is_parenthesized_arrow_function_expression_worker`.
#[tactic(auto, unfolding(crate::specs::ThreeWay::after_name))]
fn after_name(third: u8, fourth: u8) -> Tristate
    ensures { result ≡ after_name third fourth }
{
    match third {
        kind::COLON => Tristate::True,
        kind::QUESTION => match fourth {
            kind::COLON | kind::COMMA | kind::EQ | kind::R_PAREN => Tristate::True,
            _ => Tristate::False,
        },
        kind::COMMA | kind::EQ | kind::R_PAREN => Tristate::Maybe,
        _ => Tristate::False,
    }
}

// `(` and two words, a modifier but no Async and a name. Follows a part of `is_parenthesized_arrow_function_expression_worker`.
#[tactic(auto, unfolding(crate::specs::ThreeWay::modified_name))]
fn modified_name(second: u8, third: u8) -> bool
    ensures { result ≡ modified_name second third }
{
    second != kind::ASYNC
        && classes::is_modifier_kind(second)
        && classes::is_binding_identifier(third)
}

// `(` and then neither `)`, `[`, `{` nor `...`. Follows a part of `is_parenthesized_arrow_function_expression_worker`.
#[tactic(auto, unfolding(crate::specs::ThreeWay::first_parameter))]
fn first_parameter(second: u8, third: u8, fourth: u8) -> Tristate
    ensures { result ≡ first_parameter second third fourth }
{
    if modified_name(second, third) {
        if third == kind::AS {
            return Tristate::False;
        }
        return Tristate::True;
    }
    if second == kind::THIS || classes::is_binding_identifier(second) {
        return after_name(third, fourth);
    }
    Tristate::False
}

// `(` at the place. Follows a part of `is_parenthesized_arrow_function_expression_worker`.
#[tactic(auto, unfolding(crate::specs::ThreeWay::after_paren))]
fn after_paren(kinds: &[u8], is_ts: bool, is_async: bool, at: usize) -> Tristate
    ensures { result ≡ after_paren kinds.now is_ts is_async at }
{
    let second = tokens::kind_after(kinds, at, 1);
    let third = tokens::kind_after(kinds, at, 2);
    match second {
        kind::R_PAREN => no_parameters(is_ts, is_async, third),
        kind::L_BRACK | kind::L_CURLY => Tristate::Maybe,
        kind::DOT3 => rest_parameter(third),
        _ => first_parameter(second, third, tokens::kind_after(kinds, at, 3)),
    }
}

// `<` and a name, with JSX. Follows a part of `is_parenthesized_arrow_function_expression_worker`.
#[tactic(auto, unfolding(crate::specs::ThreeWay::type_parameter))]
fn type_parameter(third: u8, fourth: u8) -> Tristate
    ensures { result ≡ type_parameter third fourth }
{
    match third {
        kind::EXTENDS => match fourth {
            kind::EQ | kind::R_ANGLE | kind::SLASH => Tristate::False,
            _ if classes::is_binding_identifier(fourth) => Tristate::Maybe,
            _ => Tristate::True,
        },
        kind::EQ | kind::COMMA => Tristate::True,
        _ => Tristate::False,
    }
}

// Whether a kind may stand after `<`: a name or Const. Follows a part of `is_parenthesized_arrow_function_expression_worker`.
#[tactic(auto, unfolding(crate::specs::ThreeWay::names_type))]
fn names_type(second: u8) -> bool
    ensures { result ≡ names_type second }
{
    second == kind::CONST || classes::is_binding_identifier(second)
}

// `<` at the place. Follows a part of `is_parenthesized_arrow_function_expression_worker`.
#[tactic(auto, unfolding(crate::specs::ThreeWay::after_angle))]
fn after_angle(kinds: &[u8], is_jsx: bool, at: usize) -> Tristate
    ensures { result ≡ after_angle kinds.now is_jsx at }
{
    let second = tokens::kind_after(kinds, at, 1);
    if !names_type(second) {
        return Tristate::False;
    }
    if !is_jsx {
        return Tristate::Maybe;
    }
    let more = if second == kind::CONST { 3 } else { 2 };
    type_parameter(
        tokens::kind_after(kinds, at, more),
        tokens::kind_after(kinds, at, more + 1),
    )
}

// `(` or `<` at the place, and False at any other start. Follows a part of `is_parenthesized_arrow_function_expression_worker`.
#[tactic(auto, unfolding(crate::specs::ThreeWay::after_open))]
fn after_open(kinds: &[u8], is_ts: bool, is_jsx: bool, is_async: bool, at: usize) -> Tristate
    ensures { result ≡ after_open kinds.now is_ts is_jsx is_async at }
{
    let first = tokens::kind_at(kinds, at);
    match first {
        kind::L_PAREN => after_paren(kinds, is_ts, is_async, at),
        kind::L_ANGLE => after_angle(kinds, is_jsx, at),
        _ => Tristate::False,
    }
}

// The worker of arrow.rs: an Async is eaten, and what opens must stand on its line. Follows `is_parenthesized_arrow_function_expression_worker`.
#[tactic(auto, unfolding(crate::specs::ThreeWay::three_way))]
fn is_parenthesized_arrow_function_expression_worker(
    kinds: &[u8],
    flags: &[u8],
    is_ts: bool,
    is_jsx: bool,
    at: usize,
) -> Tristate
    ensures { result ≡ three_way kinds.now flags.now is_ts is_jsx at }
{
    let first = tokens::kind_at(kinds, at);
    if first != kind::ASYNC {
        return after_open(kinds, is_ts, is_jsx, false, at);
    }
    if tokens::flag_after(flags, at, 1) == 1 {
        return Tristate::False;
    }
    after_open(kinds, is_ts, is_jsx, true, at + 1)
}

// The three-way answer at any place, with the short cut for `(` before a literal. Follows `is_parenthesized_arrow_function_expression`.
#[tactic(auto, using(crate::proofs::ShortCut::short_cut))]
pub fn is_parenthesized_arrow_function_expression(
    kinds: &[u8],
    flags: &[u8],
    is_ts: bool,
    is_jsx: bool,
    at: usize,
) -> Tristate
    ensures { result ≡ three_way kinds.now flags.now is_ts is_jsx at }
{
    let first = tokens::kind_at(kinds, at);
    if first == kind::L_PAREN && classes::is_literal(tokens::kind_after(kinds, at, 1)) {
        return Tristate::False;
    }
    is_parenthesized_arrow_function_expression_worker(kinds, flags, is_ts, is_jsx, at)
}

// 14: a place outside.
#[tactic(auto, unfolding(crate::specs::Entry::check_place))]
fn check_place(kinds: &[u8], at: usize) -> Result<(), Cause>
    ensures { result ≡ check_place kinds.now at }
{
    if at < kinds.len() {
        return Ok(());
    }
    Err(Cause::Outside(0))
}

// The entry: checks 1, 2, 5, 6, 14, and then the three-way answer.
#[tactic(auto, unfolding(crate::specs::Entry::three_way_entry, crate::specs::Entry::checked))]
pub fn three_way(
    kinds: &[u8],
    flags: &[u8],
    is_ts: bool,
    is_jsx: bool,
    at: usize,
) -> Result<Tristate, Cause>
    ensures { result ≡ three_way_entry kinds.now flags.now is_ts is_jsx at }
{
    checks::check_length(kinds)?;
    checks::check_flag_length(kinds, flags)?;
    checks::check_flags(flags)?;
    checks::check_kinds(kinds)?;
    check_place(kinds, at)?;
    Ok(is_parenthesized_arrow_function_expression(kinds, flags, is_ts, is_jsx, at))
}
