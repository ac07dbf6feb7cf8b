//! The outcome of a builtin.
ghost use Rattle.std.specs.Prelude.{◌≡◌, ◌++◌, ◌∷◌, [], IfOk, OnOk};
ghost use Rattle.text_tables.specs.Texts.{with_texts};
ghost use Rattle.builtin_devices.specs.Outcomes.{failing, lacking, needing_first, succeeding, word_about};

use device_core::{Device, Event};
use std::alloc::{AllocError, Global};
use std::marker::Model;
use text_bytes::{Bytes, last_component};
use text_tables::OwnedTexts;

/// The outcome of a builtin of udev: whether it succeeds, the properties in the order in which it sets them, where
/// an empty value removes one, and names for what the block would have to report for it, each once.
#[derive(Drop)]
pub struct BuiltinOutcome {
    is_done: bool,
    properties: Vec<(Bytes, Bytes)>,
    needs: OwnedTexts,
}

impl Model for BuiltinOutcome {
    ghost use Rattle.builtin_devices.specs.Outcomes.{OutcomeValue};

    ghost Value = { OutcomeValue };

    ghost view = { λ o. record { is_done = o.is_done; properties = o.properties.items; needs = o.needs } };
}

impl BuiltinOutcome {
    /// A builtin that succeeds, with the properties that it sets.
    pub fn succeeding(properties: Vec<(Bytes, Bytes)>, needs: OwnedTexts) -> BuiltinOutcome
        ensures { result ≡ succeeding properties.items needs }
    {
        BuiltinOutcome {
            is_done: true,
            properties,
            needs,
        }
    }

    /// A builtin that fails, and sets nothing.
    pub fn failing(alloc: Global, needs: OwnedTexts) -> BuiltinOutcome
        ensures { result ≡ failing needs }
    {
        BuiltinOutcome {
            is_done: false,
            properties: Vec::new(alloc),
            needs,
        }
    }

    /// The same outcome, where other names come before its own for what the block would have to report.
    pub fn needing_first(
        mut self,
        alloc: Global,
        mut needs: OwnedTexts,
    ) -> Result<BuiltinOutcome, AllocError>
        ensures { IfOk result (λ outcome. outcome ≡ needing_first needs self) }
    {
        for need in self.needs.as_slice() {
            needs.add(alloc, need)?;
        }
        self.needs = needs;
        Ok(self)
    }

    /// Whether the builtin succeeds.
    pub fn is_done(&self) -> bool
        ensures { result ≡ self.now.is_done }
    {
        self.is_done
    }

    /// Returns the names and values of the properties, in the order in which they are set.
    pub fn properties(&self) -> &[(Bytes, Bytes)]
        ensures { result.now ≡ self.now.properties }
    {
        &self.properties
    }

    /// Returns the names of what the block would have to report.
    pub fn needs(&self) -> &OwnedTexts
        ensures { result.now ≡ self.now.needs }
    {
        &self.needs
    }
}

/// The outcome of net_id, with a query.
#[derive(Drop)]
pub struct NetNames {
    /// Whether it succeeds, the names, and what the block would have to report.
    pub outcome: BuiltinOutcome,
    /// What the hardware database is asked: who made the interface. Its properties are set right after the outcome's
    /// ID_NET_NAME_MAC.
    pub lookup: Option<Bytes>,
}

/// Adds a copy of a name and its value after the properties so far.
pub fn add_property(
    alloc: Global,
    name: &[u8],
    value: &[u8],
    properties: &mut Vec<(Bytes, Bytes)>,
) -> Result<(), AllocError>
    ensures { OnOk result (properties.new.items ≡ properties.old.items ++ (name.now, value.now) ∷ []) }
{
    let name = Bytes::copy_of(alloc, name)?;
    let value = Bytes::copy_of(alloc, value)?;
    Ok(properties.push((name, value))?)
}

/// Adds the word for an attribute to what is needed, if a device lacks it.
pub fn need_attribute(
    alloc: Global,
    device: &Device<'_>,
    attribute: &[u8],
    word: &[u8],
    needs: &mut OwnedTexts,
) -> Result<(), AllocError>
    ensures { OnOk result (needs.new ≡ with_texts needs.old (lacking device.now attribute.now word.now)) }
{
    if device.attrs().get(attribute).is_some() {
        return Ok(());
    }
    needs.add(alloc, word)
}

/// A word for something of a device: with ` of ` and the last component of its path, unless it is the event device.
pub fn word_about(
    alloc: Global,
    event: &Event<'_>,
    device: &Device<'_>,
    word: &[u8],
) -> Result<Vec<u8>, AllocError>
    ensures { IfOk result (λ text. text.items ≡ word_about event.now device.now word.now) }
{
    let mut text = Vec::from_slice(alloc, word)?;
    if device.path() != event.device().path() {
        text.extend_from_slice(b" of ")?;
        text.extend_from_slice(last_component(device.path()))?;
    }
    Ok(text)
}
