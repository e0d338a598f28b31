// Keys of object literals and of object bindings (13.2.5, 14.3.3).
ghost use Rattle.std.specs.Prelude.{◌≡◌};
ghost use Rattle.build.specs.Operation.{is_shorthand, is_key};

use tokens::{classes, kind};

// Whether a name stands at the place and no `:` after it: a shorthand.
// Follows a part of `parse_object_literal_element` and of `parse_binding_property`.
pub fn is_shorthand(kinds: &[u8], at: usize) -> bool
    ensures { result ≡ is_shorthand kinds.now at }
{
    classes::is_name(tokens::kind_at(kinds, at)) && tokens::kind_after(kinds, at, 1) != kind::COLON
}

// A key of one token. Follows a part of `parse_property_name`.
pub fn is_key(k: u8) -> bool
    ensures { result ≡ is_key k }
{
    classes::is_word(k) || matches!(k, kind::STR | kind::NUMBER)
}
