//! Parts of a text after colons.
ghost use Rattle.std.specs.Prelude.{◌≡◌, ◌∷◌, ◌++◌, decimal, OnOk};
ghost use Rattle.text_bytes.specs.Names.{colon};

use itoa::Buffer;
use std::alloc::AllocError;

/// Appends a colon and a number.
pub(crate) fn push_number(text: &mut Vec<u8>, number: u32) -> Result<(), AllocError>
    ensures { OnOk result (text.new.items ≡ text.old.items ++ colon ∷ decimal number) }
{
    push_part(text, Buffer::new().format(number).as_bytes())
}

/// Appends a colon and a text.
pub(crate) fn push_part(text: &mut Vec<u8>, part: &[u8]) -> Result<(), AllocError>
    ensures { OnOk result (text.new.items ≡ text.old.items ++ colon ∷ part.now) }
{
    text.push(b':')?;
    text.extend_from_slice(part)
}
