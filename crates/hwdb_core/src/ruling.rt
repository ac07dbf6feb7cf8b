//! Which matches are known not to fit a modalias before they are read as patterns: for any one device, most of a
//! database.
ghost use Rattle.std.specs.Prelude.{◌≡◌};
ghost use Rattle.hwdb_core.specs.Ruling.{differs_in_prefix, is_faultless, is_ruled_out};

use text_bytes::find;
use text_core::is_special;

/// The most bytes of a pattern, as `text_core` reads them.
const MAX_LEN: usize = 16384;

/// Whether a match and a modalias differ before the first byte of the match that means something other than itself.
fn differs_in_prefix(text: &[u8], modalias: &[u8]) -> bool
    ensures { result ≡ differs_in_prefix text.now modalias.now }
{
    let mut rest = modalias;
    for byte in text {
        if is_special(*byte) {
            return false;
        }
        match rest.split_first() {
            Some((first, following)) => {
                if *byte != *first {
                    return true;
                }
                rest = following;
            }
            None => return true,
        }
    }
    !rest.is_empty()
}

/// Whether a match can have no fault.
fn is_faultless(text: &[u8]) -> bool
    ensures { result ≡ is_faultless text.now }
{
    text.len() <= MAX_LEN && find(b'[', text).is_none()
}

/// Whether a match is known to be a pattern that a modalias does not fit.
#[tactic(auto, unfolding(crate::specs::Ruling::is_ruled_out))]
pub(crate) fn is_ruled_out(modalias: &[u8], text: &[u8]) -> bool
    ensures { result ≡ is_ruled_out modalias.now text.now }
{
    differs_in_prefix(text, modalias) && is_faultless(text)
}
