//! W1: MODE is not an octal number.
ghost use Rattle.std.specs.Prelude.{◌≡◌, ◌||◌, option_map};
ghost use Rattle.text_bytes.specs.Names.{space, tab};
ghost use Rattle.text_bytes.specs.Texts.{begins_with};
ghost use Rattle.rule_types.specs.Topics.{is_mode};
ghost use Rattle.rule_lints.specs.Modes.{is_mode_by, mode_given, wrong_mode};

use crate::parts::change_of;
use rule_tokens::has_sign;
use rule_types::{Change, Part, Target, mode_of};
use text_bytes::{Profile, begins_with};

/// The value with which W1 is reported: one that a part gives to MODE, and that is not taken as a mode.
pub(crate) fn wrong_mode(profile: Profile, part: &Part) -> Option<&[u8]>
    ensures { option_map (λ text. text.now) result ≡ wrong_mode profile part.now }
{
    let text = mode_given(part)?;
    if has_sign(text) || is_mode_by(profile, text) {
        None
    } else {
        Some(text)
    }
}

/// The text that a part gives to MODE.
fn mode_given(part: &Part) -> Option<&[u8]>
    ensures { option_map (λ text. text.now) result ≡ mode_given part.now }
{
    match change_of(part)? {
        Change::Text(Target::Mode, template) => Some(template.written()),
        _ => None,
    }
}

/// Whether a text is taken as a mode: udev passes over blanks before the digits.
fn is_mode_by(profile: Profile, text: &[u8]) -> bool
    ensures { result ≡ is_mode_by profile text.now }
{
    match profile {
        Profile::Manual => is_mode(text),
        Profile::Udev => mode_of(text).is_some(),
    }
}

/// Whether a text begins with a space or a tab.
fn is_indented(text: &[u8]) -> bool
    ensures { result ≡ (begins_with space text.now || begins_with tab text.now) }
{
    begins_with(b' ', text) || begins_with(b'\t', text)
}

/// Whether a text is one octal digit or more, and nothing else, of a number that a mode may be: a mode that udev
/// reads, with no blanks before it.
#[tactic(auto, using(crate::proofs::Octal::bare_mode, crate::proofs::Octal::no_mode_after_blanks))]
fn is_mode(text: &[u8]) -> bool
    ensures { result ≡ is_mode text.now }
{
    !is_indented(text) && mode_of(text).is_some()
}
