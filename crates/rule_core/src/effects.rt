//! Whether the tokens of a line do anything but compare.
ghost use Rattle.std.specs.Prelude.{◌≡◌, option_map, IfOk};
ghost use Rattle.rule_core.specs.Effects.{has_effect, is_unknown_option, lacks_effect, unknown_option};
ghost use Rattle.rule_types.specs.Tokens.{tokens_in};

use rule_parts::is_known_option;
use rule_tokens::{Token, unquote};
use rule_types::{Key, WrittenPart, key_of};
use std::alloc::{AllocError, Global};
use text_bytes::Profile;

/// Whether a rule is dropped because no token of its line has an effect: udev does so, and by the manual it stays.
pub(crate) fn lacks_effect(
    alloc: Global,
    profile: Profile,
    parts: &[WrittenPart<'_>],
) -> Result<bool, AllocError>
    ensures { IfOk result (λ lacks. lacks ≡ lacks_effect profile (tokens_in parts.now)) }
{
    match profile {
        Profile::Manual => Ok(false),
        Profile::Udev => {
            for written in parts {
                if has_effect(alloc, &written.token)? {
                    return Ok(false);
                }
            }
            Ok(true)
        }
    }
}

/// The first option of a line that udev does not know, if there is one.
pub(crate) fn unknown_option<'w, 'a>(
    alloc: Global,
    parts: &'w [WrittenPart<'a>],
) -> Result<Option<&'w Token<'a>>, AllocError>
    ensures { IfOk result (λ found. option_map (λ t. t.now) found ≡ unknown_option (tokens_in parts.now)) }
{
    for written in parts {
        if is_unknown_option(alloc, &written.token)? {
            return Ok(Some(&written.token));
        }
    }
    Ok(None)
}

/// Whether a token does more than compare: it assigns something other than an option that udev does not know, runs
/// a command or takes properties.
#[tactic(auto, unfolding(crate::specs::Effects::has_effect))]
pub fn has_effect(alloc: Global, token: &Token<'_>) -> Result<bool, AllocError>
    ensures { IfOk result (λ has. has ≡ has_effect token.now) }
{
    if token.operator().compares() {
        match key_of(token.key()) {
            Some(Key::Program) => Ok(true),
            Some(Key::Import) => Ok(true),
            _ => Ok(false),
        }
    } else {
        Ok(!is_unknown_option(alloc, token)?)
    }
}

/// Whether a token is an option that udev does not know.
fn is_unknown_option(alloc: Global, token: &Token<'_>) -> Result<bool, AllocError>
    ensures { IfOk result (λ unknown. unknown ≡ is_unknown_option token.now) }
{
    match key_of(token.key()) {
        Some(Key::Options) => {
            let value = unquote(alloc, token)?;
            Ok(!is_known_option(&value))
        }
        _ => Ok(false),
    }
}
