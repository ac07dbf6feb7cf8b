//! How GitHub asks for texts to be written in a workflow command.
//!
//! A command is one line, whose properties end at a comma and at a colon. A terminal may show it, so a property has no control
//! byte.
ghost use Rattle.std.specs.Prelude.{◌≡◌, ◌++◌, OnOk};
ghost use Rattle.engine_formats.specs.Github.{github_byte, github_property, github_text, property_byte};

use crate::uris::push_percent;
use std::alloc::AllocError;

/// Appends what a command says: `%` and the two ends of a line each as `%` and two hexadecimal digits.
pub(crate) fn push_github_text(text: &mut Vec<u8>, said: &[u8]) -> Result<(), AllocError>
    ensures { OnOk result (text.new.items ≡ text.old.items ++ github_text said.now) }
{
    for byte in said {
        push_text_byte(text, *byte)?;
    }
    Ok(())
}

/// Appends a property of a command: as what it says, but with `:`, `,` and every control byte also written so.
pub(crate) fn push_github_property(text: &mut Vec<u8>, value: &[u8]) -> Result<(), AllocError>
    ensures { OnOk result (text.new.items ≡ text.old.items ++ github_property value.now) }
{
    for byte in value {
        push_property_byte(text, *byte)?;
    }
    Ok(())
}

/// Appends a byte of what a command says.
fn push_text_byte(text: &mut Vec<u8>, byte: u8) -> Result<(), AllocError>
    ensures { OnOk result (text.new.items ≡ text.old.items ++ github_byte byte) }
{
    match byte {
        b'%' => text.extend_from_slice(b"%25"),
        b'\r' => text.extend_from_slice(b"%0D"),
        b'\n' => text.extend_from_slice(b"%0A"),
        _ => Ok(text.push(byte)?),
    }
}

/// Appends a byte of a property.
fn push_property_byte(text: &mut Vec<u8>, byte: u8) -> Result<(), AllocError>
    ensures { OnOk result (text.new.items ≡ text.old.items ++ property_byte byte) }
{
    match byte {
        b':' => text.extend_from_slice(b"%3A"),
        b',' => text.extend_from_slice(b"%2C"),
        0x00..=0x1F | 0x7F => push_percent(text, byte),
        _ => push_text_byte(text, byte),
    }
}
