//! Parts of texts that several names need.
ghost use Rattle.std.specs.Prelude.{◌≡◌, ◌++◌, ◌≤◌, decimal, length, option_map, IfOk, OnOk};
ghost use Rattle.std.specs.List.{prefix_len};
ghost use Rattle.text_bytes.specs.Numbers.{is_digit};
ghost use Rattle.builtin_net.specs.Words.{file_of, is_printable, leading_number, positive};

use builtin_devices::file_at;
use device_core::{Device, Event};
use itoa::Buffer;
use std::alloc::{AllocError, Global};
use text_bytes::{decimal_below, has_control, is_digit, is_utf8};

/// The greatest number of 32 bits.
pub(crate) const MAX_NUMBER: u64 = u32::MAX as u64;

/// How many digits a text begins with.
fn digit_count(text: &[u8]) -> usize
    ensures value { result ≡ prefix_len is_digit text.now }
    ensures within { result ≤ length text.now }
{
    text.iter().take_while(|byte| is_digit(**byte)).count()
}

/// The number of 32 bits that the digits at the start of a text write, and what follows them.
#[tactic(auto, unfolding(crate::specs::Words::leading_number))]
pub(crate) fn leading_number(text: &[u8]) -> Option<(u64, &[u8])>
    ensures { option_map (λ n. (n.0, n.1.now)) result ≡ leading_number text.now }
{
    let (digits, following) = text.split_at(digit_count(text));
    Some((decimal_below(1 << 32, digits)?, following))
}

/// What the file with a name in the folder of a device says; for a link, the path to which it leads.
pub(crate) fn file_of<'a>(
    alloc: Global,
    event: &Event<'a>,
    device: &Device<'_>,
    name: &[u8],
) -> Result<Option<&'a [u8]>, AllocError>
    ensures { IfOk result (λ text. option_map (λ t. t.now) text ≡ file_of event.now device.now name.now) }
{
    let path = joined(alloc, device.path(), name)?;
    Ok(file_at(event, &path))
}

/// Whether a text may be part of a name: UTF-8 without control characters.
#[tactic(auto, unfolding(crate::specs::Words::is_printable))]
pub(crate) fn is_printable(text: &[u8]) -> bool
    ensures { result ≡ is_printable text.now }
{
    is_utf8(text) && !has_control(text)
}

/// Appends a number, with letters before it.
pub(crate) fn push_number(text: &mut Vec<u8>, letters: &[u8], number: u64) -> Result<(), AllocError>
    ensures { OnOk result (text.new.items ≡ text.old.items ++ letters.now ++ decimal number) }
{
    text.extend_from_slice(letters)?;
    text.extend_from_slice(Buffer::new().format(number).as_bytes())
}

/// A number, if it is above 0.
pub(crate) fn positive(number: Option<u64>) -> Option<u64>
    ensures { result ≡ positive number }
{
    let number = number?;
    if number == 0 {
        return None;
    }
    Some(number)
}

/// A text with another after it.
pub(crate) fn joined(
    alloc: Global,
    beginning: &[u8],
    following: &[u8],
) -> Result<Vec<u8>, AllocError>
    ensures { IfOk result (λ text. text.items ≡ beginning.now ++ following.now) }
{
    let mut text = Vec::from_slice(alloc, beginning)?;
    text.extend_from_slice(following)?;
    Ok(text)
}
