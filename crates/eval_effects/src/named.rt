//! How the lines of `--why` name keys and rules.
ghost use Rattle.std.specs.Prelude.{◌≡◌, ◌++◌, OnOk, option_map};
ghost use Rattle.eval_effects.specs.Named.{final_name, key_text, rule_place};

use eval_state::FinalKey;
use itoa::Buffer;
use rule_types::{Key, Rule};
use std::alloc::{AllocError, Global};
use text_bytes::escape;

/// Appends a key, with its attribute escaped in braces, if it has one.
pub fn push_key(
    alloc: Global,
    text: &mut Vec<u8>,
    key: Key,
    attribute: Option<&[u8]>,
) -> Result<(), AllocError>
    ensures { OnOk result (text.new.items ≡ text.old.items ++ key_text key (option_map (λ t. t.now) attribute.entry)) }
{
    text.extend_from_slice(key.name())?;
    if let Some(attribute) = attribute {
        text.push(b'{')?;
        text.extend_from_slice(&escape(alloc, attribute)?)?;
        text.push(b'}')?;
    }
    Ok(())
}

/// The name of a key that no longer changes.
pub(crate) fn final_name(key: FinalKey) -> &'static [u8]
    ensures { result.now ≡ final_name key }
{
    match key {
        FinalKey::Owner => b"OWNER",
        FinalKey::Group => b"GROUP",
        FinalKey::Mode => b"MODE",
        FinalKey::Name => b"NAME",
        FinalKey::Symlink => b"SYMLINK",
        FinalKey::Run => b"RUN",
        FinalKey::Priority => b"link_priority",
        FinalKey::Watch => b"watch",
    }
}

/// Appends the place of a rule, `FILE:LINE`, with the file's name escaped.
pub fn push_rule(alloc: Global, text: &mut Vec<u8>, rule: &Rule) -> Result<(), AllocError>
    ensures { OnOk result (text.new.items ≡ text.old.items ++ rule_place rule.now) }
{
    text.extend_from_slice(&escape(alloc, rule.file())?)?;
    text.push(b':')?;
    text.extend_from_slice(Buffer::new().format(rule.line).as_bytes())
}
