//! The sections of `.link` files.
ghost use Rattle.std.specs.Prelude.{◌≡◌, map};
ghost use Rattle.link_files.specs.Keys.{form_among, form_of, section_named};

use crate::keys::{ENERGY_KEYS, FUNCTION_KEYS, Form, Key, LINK_KEYS, MATCH_KEYS};

/// Where a line stands.
#[derive(Clone, Copy, PartialEq, Eq)]
pub(crate) enum Section {
    /// Before the first section.
    Before,
    /// In `[Match]`.
    Match,
    /// In `[Link]`.
    Link,
    /// In `[SR-IOV]`.
    Functions,
    /// In `[EnergyEfficientEthernet]`.
    Energy,
    /// In a section that is not known.
    Unknown,
}

/// The section with a name.
pub(crate) fn section_named(name: &[u8]) -> Section
    ensures { result ≡ section_named name.now }
{
    if name == b"Match".as_slice() {
        Section::Match
    } else if name == b"Link".as_slice() {
        Section::Link
    } else if name == b"SR-IOV".as_slice() {
        Section::Functions
    } else if name == b"EnergyEfficientEthernet".as_slice() {
        Section::Energy
    } else {
        Section::Unknown
    }
}

/// The form of a key among these, if it is one of them.
fn form_among(keys: &[Key], key: &[u8]) -> Option<Form>
    ensures { result ≡ form_among (map (λ known. (known.0.now, known.1)) keys.now) key.now }
{
    for known in keys {
        if key == known.0 {
            return Some(known.1);
        }
    }
    None
}

/// The form that a section has for a key.
#[tactic(auto, unfolding(crate::specs::Keys::form_of))]
pub(crate) fn form_of(section: Section, key: &[u8]) -> Option<Form>
    ensures { result ≡ form_of section key.now }
{
    match section {
        Section::Before | Section::Unknown => None,
        Section::Match => form_among(&MATCH_KEYS, key),
        Section::Link => form_among(&LINK_KEYS, key),
        Section::Functions => form_among(&FUNCTION_KEYS, key),
        Section::Energy => form_among(&ENERGY_KEYS, key),
    }
}
