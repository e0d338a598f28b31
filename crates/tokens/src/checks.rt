// The checks of a list before it is read: RULES A1, A2, A5, A6 and A7.
ghost use Rattle.std.specs.Prelude.{◌≡◌, true, ◌+◌, ◌≤◌, length, Ok};
ghost use Rattle.tokens.specs.Check.{check_length, check_flag_length, check_flags, check_kinds, check_nesting, depth_after};
ghost use Rattle.tokens.specs.Check.{all_between, first_outside, one_of, Counted};

use crate::cause::Cause;
use crate::kind;

// 1: no tokens, or over 2,048.
#[tactic(auto, unfolding(crate::specs::Check::check_length))]
pub fn check_length(kinds: &[u8]) -> Result<(), Cause>
    ensures { result ≡ check_length kinds.now }
{
    if kinds.is_empty() || 2048 < kinds.len() {
        return Err(Cause::Length(0));
    }
    Ok(())
}

// 2: a flag list of another length.
#[tactic(auto, unfolding(crate::specs::Check::check_flag_length))]
pub fn check_flag_length(kinds: &[u8], flags: &[u8]) -> Result<(), Cause>
    ensures { result ≡ check_flag_length kinds.now flags.now }
{
    if flags.len() != kinds.len() {
        return Err(Cause::FlagLength(0));
    }
    Ok(())
}

// Whether each byte is one of low, .., high: by the least and the greatest of all, which is quick since no byte ends the loop.
#[tactic(auto, using(crate::proofs::Outside::seen))]
fn all_between(bytes: &[u8], low: u8, high: u8) -> bool
    ensures { result ≡ all_between low high bytes.now }
{
    let mut least = 255;
    let mut most = 0;
    for &byte in bytes {
        least = byte.min(least);
        most = byte.max(most);
    }
    low <= least && most <= high
}

// The first place whose byte is not one of low, .., high.
#[tactic(auto, using(crate::proofs::Outside::outside_none), unfolding(crate::specs::Check::first_outside))]
fn first_outside(bytes: &[u8], low: u8, high: u8) -> Option<usize>
    ensures { result ≡ first_outside low high bytes.now }
{
    if all_between(bytes, low, high) {
        return None;
    }
    bytes.iter().position(|&byte| byte < low || high < byte)
}

// 5: a flag not 0 or 1, at the first such.
pub fn check_flags(flags: &[u8]) -> Result<(), Cause>
    ensures { result ≡ check_flags flags.now }
{
    match first_outside(flags, 0, 1) {
        Some(place) => Err(Cause::Flag(place)),
        None => Ok(()),
    }
}

// 6: kind 0 or above 78, at the first such.
pub fn check_kinds(kinds: &[u8]) -> Result<(), Cause>
    ensures { result ≡ check_kinds kinds.now }
{
    match first_outside(kinds, kind::IDENT, kind::STAR2_EQ) {
        Some(place) => Err(Cause::Kind(place)),
        None => Ok(()),
    }
}

// How many brackets are open after a token.
#[tactic(auto, unfolding(crate::specs::Check::depth_after))]
fn depth_after(depth: usize, k: u8) -> usize
    requires { depth ≤ 64 }
    ensures { result ≡ depth_after depth k }
{
    match k {
        kind::L_PAREN | kind::L_BRACK | kind::L_CURLY => depth + 1,
        kind::R_PAREN | kind::R_BRACK | kind::R_CURLY => depth.saturating_sub(1),
        _ => depth,
    }
}

// 1 for one of three kinds, 0 for another.
#[tactic(auto, unfolding(crate::specs::Check::one_of))]
fn one_of(k: u8, a: u8, b: u8, c: u8) -> u8
    ensures { result ≡ one_of k a b c }
{
    u8::from(k == a || k == b || k == c)
}

// How many tokens open a bracket, and how many close one.
#[derive(Clone, Copy)]
struct Brackets {
    opened: u8,
    closed: u8,
}

// The brackets among 32 tokens.
#[tactic(auto, using(crate::proofs::Nesting::counts))]
fn count_brackets(chunk: &[u8]) -> Brackets
    requires { length chunk.now ≡ 32 }
    ensures { Counted chunk.now result.opened result.closed }
{
    let mut opened = 0;
    let mut closed = 0;
    for &k in chunk {
        opened += one_of(k, kind::L_PAREN, kind::L_BRACK, kind::L_CURLY);
        closed += one_of(k, kind::R_PAREN, kind::R_BRACK, kind::R_CURLY);
    }
    Brackets { opened, closed }
}

// Whether a quick look, at 32 tokens at a time, shows that never more than 64 brackets are open. `most` is a bound on how many are
// open: where it goes above 64, nothing is known.
fn is_shallow(kinds: &[u8]) -> bool
    ensures { result ≡ true → Ok tt ≡ check_nesting kinds.now }
{
    let chunks = kinds.chunks_exact(32);
    let rest = chunks.remainder().len();
    let mut most = 0;
    for chunk in chunks {
        let seen = count_brackets(chunk);
        let opened = usize::from(seen.opened);
        let closed = usize::from(seen.closed);
        if 64 < most + opened {
            return false;
        }
        most = most.saturating_sub(closed) + opened;
    }
    most + rest <= 64
}

// 7: over 64 brackets open, at the opening token that makes 65.
pub fn check_nesting(kinds: &[u8]) -> Result<(), Cause>
    ensures { result ≡ check_nesting kinds.now }
{
    if is_shallow(kinds) {
        return Ok(());
    }
    let mut depth = 0;
    for (place, &k) in kinds.iter().enumerate() {
        depth = depth_after(depth, k);
        if 64 < depth {
            return Err(Cause::Nesting(place));
        }
    }
    Ok(())
}
