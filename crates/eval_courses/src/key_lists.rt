//! The keys of a rule, as they are written.
ghost use Rattle.std.specs.Prelude.{◌≡◌, ◌++◌, IfOk, OnOk, map};
ghost use Rattle.eval_courses.specs.Fates.{keys_of, search_key};

use crate::keys::Written;
use eval_effects::push_joined;
use rule_types::{Rule, UpMatch};
use std::alloc::{AllocError, Global};
use text_bytes::Bytes;

/// A key, as it is written.
fn as_written<P: Written>(alloc: Global, part: &P) -> Result<Bytes, AllocError>
    ensures { IfOk result (λ text. text ≡ P.written part.now) }
{
    let mut text = Vec::new(alloc);
    part.push_written(alloc, &mut text)?;
    Ok(Bytes::new(text))
}

/// Adds keys, each as it is written.
fn push_keys<P: Written>(
    alloc: Global,
    keys: &mut Vec<Bytes>,
    parts: &[P],
) -> Result<(), AllocError>
    ensures { OnOk result (keys.new.items ≡ keys.old.items ++ map P.written parts.now) }
{
    for part in parts {
        keys.push(as_written(alloc, part)?)?;
    }
    Ok(())
}

/// The matches of one device as one key, since one device has to meet all of them.
fn search_key(alloc: Global, parts: &[UpMatch]) -> Result<Bytes, AllocError>
    ensures { IfOk result (λ text. text ≡ search_key parts.now) }
{
    let mut keys = Vec::new(alloc);
    push_keys(alloc, &mut keys, parts)?;
    let mut text = Vec::new(alloc);
    push_joined(&mut text, &keys)?;
    Ok(Bytes::new(text))
}

/// The keys of a rule in the order of evaluation, each as it is written, as the numbers of `Fate::Stopped` count them: the
/// matches of the event, those of one device as one key, which is empty if there are none, what acts, and the matches of
/// the result.
pub fn rule_keys(alloc: Global, rule: &Rule) -> Result<Vec<Bytes>, AllocError>
    ensures { IfOk result (λ keys. keys.items ≡ keys_of rule.now) }
{
    let mut keys = Vec::new(alloc);
    push_keys(alloc, &mut keys, &rule.plain)?;
    keys.push(search_key(alloc, &rule.up)?)?;
    push_keys(alloc, &mut keys, &rule.acts)?;
    push_keys(alloc, &mut keys, &rule.results)?;
    Ok(keys)
}
