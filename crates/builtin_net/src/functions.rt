//! Functions of PCI, by their names.
ghost use Rattle.std.specs.Prelude.{◌≡◌, ◌++◌, ◌≤◌, IfOk, IfSome, OnOk};
ghost use Rattle.builtin_net.specs.Function.{domain_text, function, function_of, is_several};
ghost use Rattle.builtin_net.specs.Words.{most_number};

use crate::allowed::{Attribute, read};
use crate::words::{MAX_NUMBER, file_of, push_number};
use builtin_devices::{Base, bytes_of, number_in};
use device_core::{Device, Event};
use link_files::is_yes;
use std::alloc::{AllocError, Global};
use text_bytes::{kernel_name, split_once};

/// Where the type of the header is in a configuration.
const HEADER_PLACE: usize = 14;

/// The least type of a header of a card with several functions.
const SEVERAL_TYPE: u8 = 0x80;

/// A function of a card in a slot of a bus; each domain has buses of its own.
#[derive(Clone, Copy)]
pub(crate) struct Function {
    /// The domain.
    pub domain: u64,
    /// The bus.
    pub bus: u64,
    /// The slot.
    pub slot: u64,
    /// The function.
    pub function: u64,
}

/// The function that a name gives.
#[tactic(auto, using(crate::proofs::Bounds::number_below), unfolding(crate::specs::Function::function_of))]
fn function_of(name: &[u8]) -> Option<Function>
    ensures value { result ≡ function_of name.now }
    ensures slot { IfSome result (λ f. f.slot ≤ most_number) }
    ensures function { IfSome result (λ f. f.function ≤ most_number) }
{
    let (domain, rest) = split_once(b':', name)?;
    let (bus, place) = split_once(b':', rest)?;
    let (slot, function) = split_once(b'.', place)?;
    Some(Function {
        domain: number_in(Base::Hexadecimal, MAX_NUMBER, domain)?,
        bus: number_in(Base::Hexadecimal, MAX_NUMBER, bus)?,
        slot: number_in(Base::Hexadecimal, MAX_NUMBER, slot)?,
        function: number_in(Base::Decimal, MAX_NUMBER, function)?,
    })
}

/// The function that a device is. On a card that counts the functions of all its slots as one, its number is
/// eight times that of the slot more.
#[tactic(auto, unfolding(crate::specs::Function::function))]
pub(crate) fn function_at(alloc: Global, pci: &Device<'_>) -> Result<Option<Function>, AllocError>
    ensures { IfOk result (λ f. f ≡ function pci.now) }
{
    let name = kernel_name(alloc, pci.path())?;
    let Some(function) = function_of(name.as_slice()) else {
        return Ok(None);
    };
    match read(pci, Attribute::AriEnabled) {
        Some(word) if is_yes(word) => Ok(Some(Function {
            function: function.function + 8 * function.slot,
            ..function
        })),
        _ => Ok(Some(function)),
    }
}

/// Whether a function reports that its card has several.
#[tactic(auto, unfolding(crate::specs::Function::is_several))]
pub(crate) fn is_several(
    alloc: Global,
    event: &Event<'_>,
    pci: &Device<'_>,
) -> Result<bool, AllocError>
    ensures { IfOk result (λ several. several ≡ is_several event.now pci.now) }
{
    let Some(digits) = file_of(alloc, event, pci, b"/config")? else {
        return Ok(false);
    };
    let Some(bytes) = bytes_of(alloc, digits)? else {
        return Ok(false);
    };
    match bytes.get(HEADER_PLACE) {
        Some(kind) => Ok(*kind >= SEVERAL_TYPE),
        None => Ok(false),
    }
}

/// Appends the domain, unless it is the first.
pub(crate) fn push_domain(text: &mut Vec<u8>, f: Function) -> Result<(), AllocError>
    ensures { OnOk result (text.new.items ≡ text.old.items ++ domain_text f) }
{
    if f.domain == 0 {
        return Ok(());
    }
    push_number(text, b"P", f.domain)
}
