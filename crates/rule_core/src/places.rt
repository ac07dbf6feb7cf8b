//! Parts of a line by their places.
ghost use Rattle.std.specs.Prelude.{◌≡◌, ◌≤◌, drop, length};
ghost use Rattle.std.specs.List.{prefix_len};
ghost use Rattle.rule_tokens.specs.Grammar.{is_gap_byte};
ghost use Rattle.rule_core.specs.Drafts.{first_place, items_as};
ghost use Rattle.rule_core.specs.Style.{between};

use rule_tokens::Tokens;
use text_bytes::Profile;

/// The place in a line where its tokens begin, in bytes from its start: udev skips commas and blanks in front.
fn first_place(profile: Profile, line: &[u8]) -> usize
    ensures value { result ≡ first_place profile line.now }
    ensures within { result ≤ length line.now }
{
    match profile {
        Profile::Manual => 0,
        Profile::Udev => gap_length(line),
    }
}

/// How many commas and blanks a line begins with.
fn gap_length(line: &[u8]) -> usize
    ensures value { result ≡ prefix_len is_gap_byte line.now }
    ensures within { result ≤ length line.now }
{
    line.iter().take_while(|byte| is_gap_byte(**byte)).count()
}

/// Whether a byte is a comma, a space or a tab.
fn is_gap_byte(byte: u8) -> bool
    ensures { result ≡ is_gap_byte byte }
{
    byte == b',' || byte == b' ' || byte == b'\t'
}

/// The tokens of a line in turn and the fault that ends them.
pub fn line_tokens(profile: Profile, line: &[u8]) -> Tokens<'_>
    ensures { result ≡ items_as profile line.now }
{
    Tokens::from_place(line, first_place(profile, line))
}

/// The bytes of a line from a place on, none if it ends before that.
pub fn following(place: usize, line: &[u8]) -> &[u8]
    ensures { result.now ≡ drop place line.now }
{
    &line[place.min(line.len())..]
}

/// The bytes of a line from a place up to another, as many as there are.
pub fn between(from: usize, to: usize, line: &[u8]) -> &[u8]
    ensures { result.now ≡ between from to line.now }
{
    let rest = following(from, line);
    &rest[..to.saturating_sub(from).min(rest.len())]
}
