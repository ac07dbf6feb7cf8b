//! The modes of files, in octal digits.
ghost use Rattle.std.specs.Prelude.{◌≡◌, ◌<◌, ◌^◌, IfSome, Some, None, if◌then◌else◌};
ghost use Rattle.std.specs.List.{prefix_len};
ghost use Rattle.rule_types.specs.Topics.{is_mask, is_mask_as, is_mode, is_octal, mode_of, octal};

use text_bytes::{Profile, unindented};

/// Each mode of a file is below this number.
const MODES: u32 = 1 << 12;

/// Whether a text is a mask: for the manual 1 to 5 octal digits, for udev a mode.
pub(crate) fn is_mask_as(profile: Profile, text: &[u8]) -> bool
    ensures { result ≡ is_mask_as profile text.now }
{
    match profile {
        Profile::Manual => is_mask(text),
        Profile::Udev => mode_of(text).is_some(),
    }
}

/// Whether a text is 1 to 5 octal digits.
fn is_mask(text: &[u8]) -> bool
    ensures { result ≡ is_mask text.now }
{
    1 <= text.len() && text.len() <= 5 && octal_digits(text) == text.len()
}

/// How many octal digits a text begins with.
fn octal_digits(text: &[u8]) -> usize
    ensures { result ≡ prefix_len is_octal text.now }
{
    text.iter().take_while(|byte| is_octal(**byte)).count()
}

/// Whether a byte is one of the digits `0` to `7`.
fn is_octal(byte: u8) -> bool
    ensures { result ≡ is_octal byte }
{
    b'0' <= byte && byte <= b'7'
}

/// The mode of a file as udev reads it: one octal digit or more after spaces and tabs, which write
/// at most 7777.
#[tactic(auto, unfolding(crate::specs::Topics::mode_of))]
pub fn mode_of(text: &[u8]) -> Option<u32>
    ensures value { result ≡ mode_of text.now }
    ensures below { IfSome result (λ mode. mode < 8 ^ 4) }
{
    mode_in(unindented(text))
}

/// The mode of a file that octal digits write.
fn mode_in(digits: &[u8]) -> Option<u32>
    ensures value { result ≡ (if is_mode digits.now then Some (octal digits.now) else None) }
    ensures below { IfSome result (λ mode. mode < 8 ^ 4) }
{
    if digits.is_empty() {
        return None;
    }
    let mut mode = 0;
    for byte in digits {
        if !is_octal(*byte) {
            return None;
        }
        mode = 8 * mode + u32::from(*byte - b'0');
        if mode >= MODES {
            return None;
        }
    }
    Some(mode)
}
