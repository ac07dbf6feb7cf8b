//! What is wrong with the name of an attribute in a rule that stays.
ghost use Rattle.std.specs.Prelude.{◌≡◌};
ghost use Rattle.rule_remarks.specs.Attributes.{has_way_up, is_bad_name, is_elsewhere};

use rule_tokens::is_faulty;
use rule_types::Key;

/// Whether substitutions may be in the attribute of a key, and one of them is invalid.
pub(crate) fn is_bad_name(key: Key, name: &[u8]) -> bool
    ensures { result ≡ is_bad_name key name.now }
{
    matches!(key, Key::Attr | Key::Attrs | Key::Sysctl) && is_faulty(name)
}

/// Whether a key compares the attributes of the devices of the chain, and the name of its attribute leads from its
/// device to another one.
pub(crate) fn is_elsewhere(key: Key, name: &[u8]) -> bool
    ensures { result ≡ is_elsewhere key name.now }
{
    matches!(key, Key::Attrs) && (name.starts_with(b"device/") || has_way_up(name))
}

/// Whether `../` is in a text.
fn has_way_up(text: &[u8]) -> bool
    ensures { result ≡ has_way_up text.now }
{
    let mut rest = text;
    while let Some((_, following)) = rest.split_first() {
        if rest.starts_with(b"../") {
            return true;
        }
        rest = following;
    }
    false
}
