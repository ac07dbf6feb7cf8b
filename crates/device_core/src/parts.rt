//! What the rest of a line says: two parts, numbers, answers and paths.
ghost use Rattle.std.specs.Prelude.{◌≡◌, ◌+◌, ◌^◌, ◌<◌, ◌≤◌, length, option_map, is_some, IfSome, true};
ghost use Rattle.device_core.specs.Parts.{pair_of, number_of, answer_of, number_below, is_part, names_follow, is_device_path, is_parent_path};

use crate::devices::DeviceNumber;
use crate::programs::ProgramAnswer;
use std::borrow::CowSlice;
use text_bytes::{begins_with, decimal_below, split_once};

/// A name that is not empty, and its value.
#[tactic(auto, unfolding(crate::specs::Parts::pair_of))]
pub(crate) fn pair_of(rest: &[u8]) -> Option<(&[u8], &[u8])>
    ensures { option_map (λ p. (p.0.now, p.1.now)) result ≡ pair_of rest.now }
{
    let (name, value) = split_once(b'=', rest)?;
    if name.is_empty() {
        return None;
    }
    Some((name, value))
}

/// The number that 1 to `most` digits write, if it is below a bound.
#[tactic(auto, unfolding(crate::specs::Parts::number_below))]
fn number_below(text: &[u8], most: usize, bound: u64) -> Option<u64>
    requires { bound ≤ 2 ^ 32 }
    ensures value { result ≡ number_below most bound text.now }
    ensures below { IfSome result (λ number. number < bound) }
{
    if text.len() > most {
        return None;
    }
    decimal_below(bound, text)
}

/// Whether a text is one part of a device number.
fn is_part(text: &[u8]) -> bool
    ensures { result ≡ is_part text.now }
{
    number_below(text, 10, 1 << 32).is_some()
}

/// A device number.
#[tactic(auto, unfolding(crate::specs::Parts::number_of))]
pub(crate) fn number_of(rest: &[u8]) -> Option<DeviceNumber<'_>>
    ensures { result ≡ number_of rest.now }
{
    let (major, minor) = split_once(b':', rest)?;
    if !is_part(major) {
        return None;
    }
    if !is_part(minor) {
        return None;
    }
    Some(DeviceNumber { major, minor })
}

/// An answer: its status, and its text after a space.
#[tactic(auto, unfolding(crate::specs::Parts::answer_of))]
pub(crate) fn answer_of(rest: &[u8]) -> Option<ProgramAnswer<'_>>
    ensures { result ≡ answer_of rest.now }
{
    let (status, text) = match split_once(b' ', rest) {
        Some(parts) => parts,
        None => (rest, &rest[rest.len()..]),
    };
    let status = number_below(status, 3, 256)?;
    Some(ProgramAnswer {
        status: status as u8,
        text: CowSlice::Borrowed(text),
    })
}

/// Whether each slash is followed by a name, with a slash before the text.
fn names_follow(text: &[u8]) -> bool
    ensures { result ≡ names_follow true text.now }
{
    let mut after_slash = true;
    for b in text {
        let slash = *b == b'/';
        if after_slash && slash {
            return false;
        }
        after_slash = slash;
    }
    !after_slash
}

/// Whether a path may be that of an event device.
#[tactic(auto, unfolding(crate::specs::Parts::is_device_path))]
pub(crate) fn is_device_path(path: &[u8]) -> bool
    ensures { result ≡ is_device_path path.now }
{
    match path {
        [b'/', names @ ..] => names_follow(names),
        _ => false,
    }
}

/// Whether a path is that of a parent.
#[tactic(auto, unfolding(crate::specs::Parts::is_parent_path))]
pub(crate) fn is_parent_path(child: &[u8], parent: &[u8]) -> bool
    ensures { result ≡ is_parent_path child.now parent.now }
{
    if parent.is_empty() {
        return false;
    }
    if !child.starts_with(parent) {
        return false;
    }
    let (_, following) = child.split_at(parent.len());
    begins_with(b'/', following)
}
