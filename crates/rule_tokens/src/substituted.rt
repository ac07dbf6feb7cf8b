//! Which values udev takes as texts with substitutions.
ghost use Rattle.std.specs.Prelude.{◌≡◌};
ghost use Rattle.rule_tokens.specs.Substituted.{has_sign, is_substituted};

use text_bytes::begins_with;

/// Whether a text has a byte that may begin a substitution, as udev(7) has it: `$` or `%`.
pub fn has_sign(text: &[u8]) -> bool
    ensures { result ≡ has_sign text.now }
{
    text.iter().any(|byte| *byte == b'$' || *byte == b'%')
}

/// Whether udev of systemd 257 takes a value as a text with substitutions: it has such a byte, or begins with `[`.
/// Any other value is known when the rule is read.
pub fn is_substituted(text: &[u8]) -> bool
    ensures { result ≡ is_substituted text.now }
{
    has_sign(text) || begins_with(b'[', text)
}
