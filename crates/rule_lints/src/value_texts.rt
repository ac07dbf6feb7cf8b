//! What is looked for in texts and in the head of a token.
ghost use Rattle.std.specs.Prelude.{◌≡◌, map};
ghost use Rattle.rule_lints.specs.ValueTexts.{begins_with_one, has_name, has_one};

use rule_tokens::Token;
use text_tables::is_among;

/// Whether a text begins with one of these.
pub fn begins_with_one(names: &[&[u8]], text: &[u8]) -> bool
    ensures { result ≡ begins_with_one (map (λ name. name.now) names.now) text.now }
{
    for name in names {
        if text.starts_with(name) {
            return true;
        }
    }
    false
}

/// Whether one of these is somewhere in a text.
pub(crate) fn has_one(names: &[&[u8]], text: &[u8]) -> bool
    ensures { result ≡ has_one (map (λ name. name.now) names.now) text.now }
{
    let mut rest = text;
    while let Some((_, following)) = rest.split_first() {
        if begins_with_one(names, rest) {
            return true;
        }
        rest = following;
    }
    false
}

/// Whether a token has this key, and one of these names in braces.
pub(crate) fn has_name(key: &[u8], names: &[&[u8]], token: &Token<'_>) -> bool
    ensures { result ≡ has_name key.now (map (λ name. name.now) names.now) token.now }
{
    token.key() == key && token.attribute().is_some_and(|name| is_among(names, name))
}
