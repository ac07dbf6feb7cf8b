//! Names of attributes that also name a device, as udev has them: `[SUBSYSTEM/KERNEL]ATTRIBUTE`.
ghost use Rattle.std.specs.Prelude.{◌≡◌, option_copied, option_map};
ghost use Rattle.text_bytes.specs.Texts.{split_once};
ghost use Rattle.text_bytes.specs.Names.{slash};
ghost use Rattle.eval_state.specs.Chains.{device_at, kernel_of};
ghost use Rattle.eval_state.specs.Named.{after_slash, is_named, is_subsystem, named, named_after, named_by, named_place};

use crate::chain::Chain;
use std::marker::Model;
use text_bytes::{begins_with, split_once};

/// A device that is named by its subsystem and its kernel's name, and an attribute of it.
#[derive(Drop)]
pub struct Named<'a> {
    /// The subsystem of the device.
    pub subsystem: &'a [u8],
    /// The kernel's name of the device.
    pub kernel: &'a [u8],
    /// The name of the attribute; it may be empty.
    pub attribute: &'a [u8],
}

impl<'a> Model for Named<'a> {
    ghost use Rattle.eval_state.specs.Named.{NamedValue};

    ghost Value = { NamedValue };

    ghost view = { λ n. record { subsystem = n.subsystem.now; kernel = n.kernel.now; attribute = n.attribute.now } };
}

/// A text without the slash that it begins with, if it begins with one.
fn after_slash(text: &[u8]) -> &[u8]
    ensures { result.now ≡ after_slash text.now }
{
    match text.split_first() {
        Some((first, following)) => { if *first == b'/' { following } else { text } }
        None => text,
    }
}

/// What follows `[`, read up to its first slash and the first `]` after that.
fn named_after(text: &[u8]) -> Option<Named<'_>>
    ensures { result ≡ named_after (split_once slash text.now) }
{
    let (subsystem, rest) = split_once(b'/', text)?;
    let (kernel, following) = split_once(b']', rest)?;
    Some(Named {
        subsystem,
        kernel,
        attribute: after_slash(following),
    })
}

impl<'a> Named<'a> {
    /// What a name of an attribute names, if it has the form `[SUBSYSTEM/KERNEL]ATTRIBUTE`, as udev reads it: the
    /// subsystem comes before the first slash, the kernel's name, which may have slashes, before the first `]`
    /// after that, and one slash after it is not part of the attribute.
    #[tactic(auto, unfolding(crate::specs::Named::named))]
    pub fn read(name: &'a [u8]) -> Option<Named<'a>>
        ensures { result ≡ named name.now }
    {
        if !begins_with(b'[', name) {
            return None;
        }
        let (_, text) = name.split_first()?;
        named_after(text)
    }
}

/// Whether there is a subsystem, and it is this one.
fn is_subsystem(name: &[u8], subsystem: Option<&[u8]>) -> bool
    ensures { result ≡ is_subsystem name.now (option_map (λ t. t.now) subsystem.entry) }
{
    match subsystem {
        Some(subsystem) => subsystem == name,
        None => false,
    }
}

impl<'c> Chain<'c> {
    /// Whether there is a device at a place, and it is the one that is named.
    fn is_named_at(&self, named: &Named<'_>, place: usize) -> bool
        ensures { result ≡ is_named named.now (device_at self.now place) }
    {
        match self.device_at(place) {
            Some(device) => {
                is_subsystem(named.subsystem, device.subsystem())
                    && self.kernel_at(place) == Some(named.kernel)
            }
            None => false,
        }
    }

    /// The place of the nearest device of the chain that has the subsystem and the kernel's name, if one has both.
    #[tactic(auto, unfolding(crate::specs::Named::named_place))]
    pub fn named_place(&self, named: &Named<'_>) -> Option<usize>
        ensures { result ≡ named_place named.now self.now }
    {
        (0..self.event().device_count()).position(|place| self.is_named_at(named, place))
    }
}
