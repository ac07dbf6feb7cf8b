//! Properties as udev sets them.
ghost use Rattle.std.specs.Prelude.{◌≡◌, OnOk};
ghost use Rattle.eval_state.specs.Properties.{property_set};

use std::alloc::{AllocError, Global};
use text_tables::CowPairs;

/// Sets a property; the empty text removes it.
pub fn set_property(
    alloc: Global,
    name: &[u8],
    text: &[u8],
    env: &mut CowPairs<'_>,
) -> Result<(), AllocError>
    ensures { OnOk result (env.new ≡ property_set name.now text.now env.old) }
{
    if text.is_empty() {
        env.remove(name);
        Ok(())
    } else {
        env.set(alloc, name, text)
    }
}
