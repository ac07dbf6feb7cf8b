//! What names say about interfaces of USB.
ghost use Rattle.std.specs.Prelude.{◌≡◌, ◌++◌, IfOk, OnOk, option_map};
ghost use Rattle.builtin_net.specs.Usb.{bcma_suffix, core_in, ports_text, unless_usual, usb_suffix};

use crate::words::{MAX_NUMBER, joined, push_number};
use builtin_devices::{Base, number_in};
use std::alloc::{AllocError, Global};
use text_bytes::{following, split_once};

/// Ports with `u` for each dot in between.
fn ports_text(alloc: Global, ports: &[u8]) -> Result<Vec<u8>, AllocError>
    ensures { IfOk result (λ text. text.items ≡ ports_text ports.now) }
{
    ports
        .iter()
        .map(|byte| if *byte == b'.' { b'u' } else { *byte })
        .collect(alloc)
}

/// Appends a number, with a letter before it, unless it is the usual one.
fn push_unless_usual(
    text: &mut Vec<u8>,
    usual: &[u8],
    letter: &[u8],
    number: &[u8],
) -> Result<(), AllocError>
    ensures { OnOk result (text.new.items ≡ text.old.items ++ unless_usual usual.now letter.now number.now) }
{
    if number == usual {
        return Ok(());
    }
    text.extend_from_slice(letter)?;
    text.extend_from_slice(number)
}

/// The end of names by an interface of USB, by its name.
#[tactic(auto, unfolding(crate::specs::Usb::usb_suffix))]
pub(crate) fn usb_suffix(alloc: Global, name: &[u8]) -> Result<Option<Vec<u8>>, AllocError>
    ensures { IfOk result (λ text. option_map (λ t. t.items) text ≡ usb_suffix name.now) }
{
    let Some((_, rest)) = split_once(b'-', name) else {
        return Ok(None);
    };
    let Some((ports, numbers)) = split_once(b':', rest) else {
        return Ok(None);
    };
    let Some((configuration, interface)) = split_once(b'.', numbers) else {
        return Ok(None);
    };
    let mut text = joined(alloc, b"u", &ports_text(alloc, ports)?)?;
    push_unless_usual(&mut text, b"1", b"c", configuration)?;
    push_unless_usual(&mut text, b"0", b"i", interface)?;
    Ok(Some(text))
}

/// The core that a name of bcma gives.
fn core_in(name: &[u8]) -> Option<u64>
    ensures { result ≡ core_in name.now }
{
    let (bus, core) = split_once(b':', following(b"bcma", name)?)?;
    number_in(Base::Decimal, MAX_NUMBER, bus)?;
    number_in(Base::Decimal, MAX_NUMBER, core)
}

/// The end of names by a core of bcma, by its name.
#[tactic(auto, unfolding(crate::specs::Usb::bcma_suffix))]
pub(crate) fn bcma_suffix(alloc: Global, name: &[u8]) -> Result<Option<Vec<u8>>, AllocError>
    ensures { IfOk result (λ text. option_map (λ t. t.items) text ≡ bcma_suffix name.now) }
{
    let Some(core) = core_in(name) else {
        return Ok(None);
    };
    let mut text = Vec::new(alloc);
    if core != 0 {
        push_number(&mut text, b"b", core)?;
    }
    Ok(Some(text))
}
