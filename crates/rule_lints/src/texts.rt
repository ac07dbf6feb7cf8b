//! Bytes of a text, and what follows them.
ghost use Rattle.std.specs.Prelude.{◌≡◌, ◌==◌, ◌≤◌, length, not};
ghost use Rattle.std.specs.List.{position_or_len, suffix_len};
ghost use Rattle.rule_lints.specs.Texts.{has_byte, rest_after_first, rest_after_last};

/// Whether a text has this byte.
pub(crate) fn has_byte(byte: u8, text: &[u8]) -> bool
    ensures { result ≡ has_byte byte text.now }
{
    text.iter().any(|other| *other == byte)
}

/// What follows the first such byte of a text, nothing if it has none.
#[tactic(auto, using(std::proofs::lemmas::List::drop_min))]
pub(crate) fn rest_after_first(byte: u8, text: &[u8]) -> &[u8]
    ensures { result.now ≡ rest_after_first byte text.now }
{
    let passed = length_before(byte, text) + 1;
    let (_, following) = text.split_at(passed.min(text.len()));
    following
}

/// How many bytes come before the first such byte of a text.
fn length_before(byte: u8, text: &[u8]) -> usize
    ensures value { result ≡ position_or_len (λ b. b == byte) text.now }
    ensures within { result ≤ length text.now }
{
    text.iter().take_while(|other| **other != byte).count()
}

/// What follows the last such byte of a text, all of it if it has none.
pub fn rest_after_last(byte: u8, text: &[u8]) -> &[u8]
    ensures { result.now ≡ rest_after_last byte text.now }
{
    let (_, following) = text.split_at(text.len() - length_after(byte, text));
    following
}

/// How many bytes follow the last such byte of a text.
fn length_after(byte: u8, text: &[u8]) -> usize
    ensures value { result ≡ suffix_len (λ b. not (b == byte)) text.now }
    ensures within { result ≤ length text.now }
{
    text.iter()
        .rev()
        .take_while(|other| **other != byte)
        .count()
}
