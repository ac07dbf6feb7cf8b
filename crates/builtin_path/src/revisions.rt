//! The revision of USB in a path.
ghost use Rattle.std.specs.Prelude.{◌≡◌, ◌++◌, ◌<◌, IfOk, IfSome, OnOk, length};
ghost use Rattle.builtin_path.specs.Path.{plain_path, revision_pairs, revision_place};

use crate::texts::{after_first, first_bytes, first_place};
use builtin_devices::add_property;
use std::alloc::{AllocError, Global};
use text_bytes::{Bytes, is_digit};

/// The first place of `-usbv` in a text, if a digit and `-` follow.
#[tactic(auto, unfolding(crate::specs::Path::revision_place))]
fn revision_place(text: &[u8]) -> Option<usize>
    ensures value { result ≡ revision_place text.now }
    ensures within { IfSome result (λ place. place < length text.now) }
{
    let place = first_place(b"-usbv", text)?;
    let digit = text.get(place + 5)?;
    let mark = text.get(place + 6)?;
    if is_digit(*digit) && *mark == b'-' {
        Some(place)
    } else {
        None
    }
}

/// A text without the `v` and the digit of a revision; if it has one, the text as it is goes to the properties.
pub(crate) fn plain_path(
    alloc: Global,
    text: &[u8],
    properties: &mut Vec<(Bytes, Bytes)>,
) -> Result<Bytes, AllocError>
    ensures path { IfOk result (λ path. path ≡ plain_path text.now) }
    ensures set { OnOk result (properties.new.items ≡ properties.old.items ++ revision_pairs text.now) }
{
    let Some(place) = revision_place(text) else {
        return Bytes::copy_of(alloc, text);
    };
    add_property(alloc, b"ID_PATH_WITH_USB_REVISION", text, properties)?;
    let mut plain = Vec::from_slice(alloc, first_bytes(place + 4, text))?;
    plain.extend_from_slice(after_first(place + 6, text))?;
    Ok(Bytes::new(plain))
}
