// The tokens of a sheet (RULES T): kinds by name, what stands at a place, and the answers that the box
// can show.
#![tactic(auto)]

ghost use Rattle.std.specs.Prelude.{◌≡◌, ◌+◌, get_or};
ghost use Rattle.tokens.specs.Token.{kind_at, flag_at};

pub mod cause;
pub mod checks;
pub mod classes;
pub mod kind;

// The two lists of a sheet, each with a byte for each token: its kind, and whether a line break stands before it.
// Two lists and no list of tokens, and a break as a byte: so the C interface lends them.
#[derive(Clone, Copy)]
pub struct Sheet<'a> {
    pub kinds: &'a [u8],
    pub flags: &'a [u8],
}

// The byte at a place, and 0 past the end.
fn byte_at(bytes: &[u8], at: usize) -> u8
    ensures { result ≡ get_or bytes.now at 0 }
{
    bytes.get(at).copied().unwrap_or(0)
}

// The byte that stands `more` places after `at`, and 0 past the end.
fn byte_after(bytes: &[u8], at: usize, more: usize) -> u8
    ensures { result ≡ get_or bytes.now (at + more) 0 }
{
    at.checked_add(more)
        .map_or(0, |place| byte_at(bytes, place))
}

// The kind of the token at a place, and 0 past the end (RULES T2). Stands for `cur_kind`.
// Kinds and flags are looked up by functions of their own: each promises what the definition of its name says, `kind_at` or `flag_at`.
pub fn kind_at(kinds: &[u8], at: usize) -> u8
    ensures { result ≡ kind_at kinds.now at }
{
    byte_at(kinds, at)
}

// The kind of the token that stands `more` places after `at`, and 0 past the end. Follows `peek_token`.
pub fn kind_after(kinds: &[u8], at: usize, more: usize) -> u8
    ensures { result ≡ kind_at kinds.now (at + more) }
{
    byte_after(kinds, at, more)
}

// The flag of the token at a place, 1 where a line break stands before it, and 0 past the end. Stands for `is_on_new_line`.
pub fn flag_at(flags: &[u8], at: usize) -> u8
    ensures { result ≡ flag_at flags.now at }
{
    byte_at(flags, at)
}

// The flag of the token that stands `more` places after `at`, and 0 past the end. Stands for `is_on_new_line`.
pub fn flag_after(flags: &[u8], at: usize, more: usize) -> u8
    ensures { result ≡ flag_at flags.now (at + more) }
{
    byte_after(flags, at, more)
}
