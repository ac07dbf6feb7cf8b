//! The names that the kernel gives devices.
ghost use Rattle.std.specs.Prelude.{◌≡◌, ◌≤◌, ◌==◌, not, IfOk, length};
ghost use Rattle.std.specs.List.{suffix_len};
ghost use Rattle.text_bytes.specs.Names.{slash};
ghost use Rattle.text_bytes.specs.Numbers.{is_digit};
ghost use Rattle.text_bytes.specs.Kernels.{kernel_byte, kernel_name, last_component, longest_end};

use crate::bytes::Bytes;
use crate::numbers::is_digit;
use std::alloc::{AllocError, Global};

/// How many bytes follow the last slash of a path.
pub fn last_component_len(path: &[u8]) -> usize
    ensures value { result ≡ suffix_len (λ b. not (b == slash)) path.now }
    ensures within { result ≤ length path.now }
{
    path.iter().rev().take_while(|byte| **byte != b'/').count()
}

/// What follows the last slash of a path.
pub fn last_component(path: &[u8]) -> &[u8]
    ensures { result.now ≡ last_component path.now }
{
    let (_, component) = path.split_at(path.len() - last_component_len(path));
    component
}

/// A byte of a component as it is meant.
fn kernel_byte(byte: u8) -> u8
    ensures { result ≡ kernel_byte byte }
{
    if byte == b'!' { b'/' } else { byte }
}

/// The kernel's name of the device with a path: the last component, with `/` for `!`.
#[tactic(auto, unfolding(crate::specs::Kernels::kernel_name))]
pub fn kernel_name(alloc: Global, path: &[u8]) -> Result<Bytes, AllocError>
    ensures { IfOk result (λ name. name ≡ kernel_name path.now) }
{
    let component = last_component(path);
    let bytes = component
        .iter()
        .map(|byte| kernel_byte(*byte))
        .collect(alloc)?;
    Ok(Bytes::new(bytes))
}

/// How many digits a text ends in.
pub fn trailing_digits(text: &[u8]) -> usize
    ensures value { result ≡ suffix_len is_digit text.now }
    ensures within { result ≤ length text.now }
{
    text.iter()
        .rev()
        .take_while(|byte| is_digit(**byte))
        .count()
}

/// The digits that a text ends in.
pub fn last_digits(text: &[u8]) -> &[u8]
    ensures { result.now ≡ longest_end is_digit text.now }
{
    text.split_at(text.len() - trailing_digits(text)).1
}
