//! What an interface is given: its names, if they are not too long, and what the block would have to report for more.
ghost use Rattle.std.specs.Prelude.{◌≡◌, ◌++◌, option_map, OnOk};
ghost use Rattle.builtin_net.specs.Names.{prefixed};

use crate::words::joined;
use builtin_devices::add_property;
use std::alloc::{AllocError, Global};
use text_bytes::Bytes;
use text_tables::OwnedTexts;

/// The most bytes of a name.
const MAX_NAME: usize = 127;

/// The properties of an interface so far, and what the block would have to report for more.
#[derive(Drop)]
pub(crate) struct Given {
    /// The properties, in the order in which they are set.
    pub properties: Vec<(Bytes, Bytes)>,
    /// Words for what is needed, each once.
    pub needs: OwnedTexts,
}

/// Adds a property of a prefix and the text after it, if there is one and both together are not too long.
#[tactic(auto, unfolding(crate::specs::Names::prefixed))]
pub(crate) fn give(
    alloc: Global,
    names: &mut Vec<(Bytes, Bytes)>,
    key: &[u8],
    prefix: &[u8],
    text: Option<Vec<u8>>,
) -> Result<(), AllocError>
    ensures { OnOk result (names.new.items ≡ names.old.items ++ prefixed key.now prefix.now (option_map (λ t. t.items) text)) }
{
    let Some(text) = text else {
        return Ok(());
    };
    let name = joined(alloc, prefix, &text)?;
    if name.len() > MAX_NAME {
        return Ok(());
    }
    add_property(alloc, key, &name, names)
}
