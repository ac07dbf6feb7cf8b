//! Names of items, each with the value that its item has, if there is one.
ghost use Rattle.std.specs.Prelude.{◌≡◌, ◌++◌, ◌∷◌, [], if◌then◌else◌, None, Some, OnOk, option_map};

use std::alloc::{AllocError, Global};
use std::marker::Model;
use text_bytes::Bytes;

/// A name, with the value of its item if there is one.
#[derive(Drop)]
pub(crate) struct Found {
    name: Bytes,
    value: Option<Bytes>,
}

impl Model for Found {
    ghost use Rattle.std.specs.Prelude.{Option};
    ghost use Rattle.text_bytes.specs.Text.{Text};

    ghost Value = { Text × Option Text };

    ghost view = { λ f. (f.name, f.value) };
}

impl Found {
    /// Returns the name and the value.
    pub(crate) fn into_parts(self) -> (Bytes, Option<Bytes>)
        ensures { result ≡ self }
    {
        let Found { name, value } = self;
        (name, value)
    }
}

/// Adds a name with the value of its item.
pub(crate) fn push_found(
    alloc: Global,
    found: &mut Vec<Found>,
    name: Bytes,
    value: Option<&[u8]>,
) -> Result<(), AllocError>
    ensures { OnOk result (found.new.items ≡ found.old.items ++ (name, option_map (λ v. v.now) value.entry) ∷ []) }
{
    let value = match value {
        Some(value) => Some(Bytes::copy_of(alloc, value)?),
        None => None,
    };
    found.push(Found { name, value })?;
    Ok(())
}

/// Adds a name whose item has no text as its value.
pub(crate) fn push_bare(
    alloc: Global,
    found: &mut Vec<Found>,
    name: Bytes,
    is_there: bool,
) -> Result<(), AllocError>
    ensures { OnOk result (found.new.items ≡ found.old.items ++ (name, if is_there then Some [] else None) ∷ []) }
{
    let value = if is_there {
        Some(Bytes::copy_of(alloc, b"")?)
    } else {
        None
    };
    found.push(Found { name, value })?;
    Ok(())
}
