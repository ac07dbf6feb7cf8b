//! Rules that no rule leads to.
ghost use Rattle.std.specs.Prelude.{◌≡◌, ◌++◌, IfOk, OnOk};
ghost use Rattle.rule_file_lints.specs.Reached.{first_spot, is_labelled, jumps_to, may_go_on, never_reached};

use crate::file_rule::FileRule;
use crate::matches::may_end;
use rule_core::{Spot, WrittenPart, spot_at_key};
use rule_lints::Lint;
use std::alloc::{AllocError, Global};
use text_bytes::Bytes;

/// The label of a later rule to which a rule jumps for every device.
pub(crate) fn jumps_to(alloc: Global, rule: &FileRule<'_, '_>) -> Result<Option<Bytes>, AllocError>
    ensures { IfOk result (λ label. label ≡ jumps_to rule.now) }
{
    let draft = rule.draft;
    if may_go_on(rule) {
        return Ok(None);
    }
    match &draft.goto {
        None => Ok(None),
        Some(place) => Ok(Some(Bytes::copy_of(alloc, place.name.as_slice())?)),
    }
}

/// Whether a rule may lead to the one after it though it has a jump: there is no later label, or the rule may end
/// before it jumps.
fn may_go_on(rule: &FileRule<'_, '_>) -> bool
    ensures { result ≡ may_go_on rule.now }
{
    let draft = rule.draft;
    rule.landing.lost || may_end(&draft.parts)
}

/// Adds a rule without a label, if the rule above jumps to a label for every device.
pub(crate) fn add_never_reached(
    alloc: Global,
    spots: &mut Vec<Spot<Lint>>,
    above: &Option<Bytes>,
    rule: &FileRule<'_, '_>,
) -> Result<(), AllocError>
    ensures { OnOk result (spots.new.items ≡ spots.old.items ++ never_reached above.now rule.now) }
{
    match above {
        None => Ok(()),
        Some(name) => {
            if is_labelled(rule) {
                Ok(())
            } else {
                let draft = rule.draft;
                add_first(alloc, spots, name.as_slice(), &draft.parts)
            }
        }
    }
}

/// Whether a rule has a label.
fn is_labelled(rule: &FileRule<'_, '_>) -> bool
    ensures { result ≡ is_labelled rule.now }
{
    let draft = rule.draft;
    draft.label.is_some()
}

/// Adds the first of these tokens, reported with a label.
fn add_first(
    alloc: Global,
    spots: &mut Vec<Spot<Lint>>,
    name: &[u8],
    tokens: &[WrittenPart<'_>],
) -> Result<(), AllocError>
    ensures { OnOk result (spots.new.items ≡ spots.old.items ++ first_spot name.now tokens.now) }
{
    if let Some(token) = tokens.first() {
        let word = Bytes::copy_of(alloc, name)?;
        spots.push(spot_at_key(Lint::NeverReached, word, &token.token))?;
    }
    Ok(())
}
