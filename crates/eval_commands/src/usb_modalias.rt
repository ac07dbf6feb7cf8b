//! The modalias that udev makes up for a USB device that has none.
ghost use Rattle.std.specs.Prelude.{◌≡◌, ◌%◌, IfOk, codes};
ghost use Rattle.text_bytes.specs.Escapes.{hex_digit};
ghost use Rattle.text_tables.specs.Pairs.{value_of};
ghost use Rattle.eval_state.specs.Texts.{or_empty};
ghost use Rattle.eval_commands.specs.UsbModalias.{four_digits, made_up, number_of, usb_text};

use builtin_devices::{Base, is_of, number_in};
use device_core::Device;
use std::alloc::{AllocError, Global};
use text_bytes::Bytes;

/// The greatest number of a vendor and of a product.
const MAX_NUMBER: u64 = 65535;

/// The most bytes that are made up.
const MAX_MADE_BYTES: usize = 2047;

/// The digits of a hexadecimal number.
const DIGITS: &[u8; 16] = b"0123456789ABCDEF";

/// The number that an attribute of a device is, in base sixteen.
fn number_of(device: &Device<'_>, attribute: &[u8]) -> Option<u64>
    ensures { result ≡ number_of device.now attribute.now }
{
    let text = device.attrs().get(attribute)?;
    number_in(Base::Hexadecimal, MAX_NUMBER, text)
}

/// The last digit of a number.
fn last_digit(number: u64) -> u8
    ensures { result ≡ hex_digit (number % 16) }
{
    DIGITS[(number % 16) as usize]
}

/// A number as four upper case hexadecimal digits.
fn four_digits(number: u64) -> [u8; 4]
    ensures { result ≡ four_digits number }
{
    [
        last_digit(number / 4096),
        last_digit(number / 256),
        last_digit(number / 16),
        last_digit(number),
    ]
}

/// The text of a vendor, a product and the product's name.
fn usb_text(alloc: Global, vendor: u64, product: u64, name: &[u8]) -> Result<Bytes, AllocError>
    ensures { IfOk result (λ text. text ≡ usb_text vendor product name.now) }
{
    let mut text = Vec::from_slice(alloc, b"usb:v")?;
    text.extend_from_slice(&four_digits(vendor))?;
    text.push(b'p')?;
    text.extend_from_slice(&four_digits(product))?;
    text.push(b':')?;
    text.extend_from_slice(name)?;
    text.truncate(MAX_MADE_BYTES);
    Ok(Bytes::new(text))
}

/// The name of a product; empty if it has none.
fn product_name<'a>(device: &Device<'a>) -> &'a [u8]
    ensures { result.now ≡ or_empty (value_of device.now.attrs (codes "product")) }
{
    device.attrs().get(b"product").unwrap_or(b"")
}

/// What is made up for a device: something for one of USB that is no interface, by what the kernel calls its type, if it
/// has both numbers.
#[tactic(auto, unfolding(crate::specs::UsbModalias::usb_modalias))]
pub(crate) fn made_up(alloc: Global, device: &Device<'_>) -> Result<Option<Bytes>, AllocError>
    ensures { IfOk result (λ text. text ≡ made_up device.now) }
{
    if !is_of(b"usb", Some(b"usb_device"), device) {
        return Ok(None);
    }
    let Some(vendor) = number_of(device, b"idVendor") else {
        return Ok(None);
    };
    let Some(product) = number_of(device, b"idProduct") else {
        return Ok(None);
    };
    Ok(Some(usb_text(alloc, vendor, product, product_name(device))?))
}
