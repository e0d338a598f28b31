// What a kind is (RULES T5 to T8): names, words, literals, and what the three-way answer takes for names and modifiers.
ghost use Rattle.std.specs.Prelude.{◌≡◌};
ghost use Rattle.tokens.specs.Bool.{between as is_between};
ghost use Rattle.tokens.specs.Token.{is_name, is_word, is_literal, is_binding_identifier, is_modifier_kind};

use crate::kind;

// Whether a kind is one of low, .., high.
pub fn between(low: u8, high: u8, k: u8) -> bool
    ensures { result ≡ is_between low high k }
{
    low <= k && k <= high
}

// A name: kinds 1 to 5. Stands for `is_identifier_reference`.
#[tactic(auto, unfolding(crate::specs::Token::is_name))]
pub fn is_name(k: u8) -> bool
    ensures { result ≡ is_name k }
{
    matches!(k, kind::IDENT..=kind::MODIFIER)
}

// A word: what may stand as a key or after a dot. 1 to 10, 14 to 17, 32 to 35, 52, 53. Stands for `parse_identifier_name`.
#[tactic(auto, unfolding(crate::specs::Token::is_word))]
pub fn is_word(k: u8) -> bool
    ensures { result ≡ is_word k }
{
    matches!(k, kind::IDENT..=kind::FALSE | kind::AWAIT..=kind::RESERVED | kind::TYPEOF..=kind::NEW | kind::INSTANCEOF..=kind::IN)
}

// A literal: kinds 8 to 13. Stands for `is_literal`.
#[tactic(auto, unfolding(crate::specs::Token::is_literal))]
pub fn is_literal(k: u8) -> bool
    ensures { result ≡ is_literal k }
{
    matches!(k, kind::NULL..=kind::REG_EXP)
}

// What the three-way answer takes for a name: 1 to 5, 14, 15. Stands for `is_binding_identifier`.
#[tactic(auto, unfolding(crate::specs::Token::is_binding_identifier))]
pub fn is_binding_identifier(k: u8) -> bool
    ensures { result ≡ is_binding_identifier k }
{
    matches!(k, kind::IDENT..=kind::MODIFIER | kind::AWAIT..=kind::YIELD)
}

// What the three-way answer takes for a modifier: 2, 5, 6, 53. Stands for `is_modifier_kind`.
#[tactic(auto, unfolding(crate::specs::Token::is_modifier_kind))]
pub fn is_modifier_kind(k: u8) -> bool
    ensures { result ≡ is_modifier_kind k }
{
    matches!(k, kind::MODIFIER..=kind::CONST | kind::ASYNC | kind::IN)
}
