//! The name in braces that some substitutions need.
ghost use Rattle.std.specs.Prelude.{◌≤◌, IfOk, length};
ghost use Rattle.rule_tokens.specs.Faults.{GivesJust};
ghost use Rattle.rule_tokens.specs.Braces.{braced};

use crate::fault::TemplateFault;
use text_bytes::split_once;

/// The name in the braces that a text begins with, and what is left after them.
#[tactic(auto, unfolding(crate::specs::Braces::braced))]
pub(crate) fn braced(text: &[u8]) -> Result<(&[u8], &[u8]), TemplateFault>
    ensures value { GivesJust (λ x. (x.0.now, x.1.now)) result (braced text.now) }
    ensures shorter { IfOk result (λ x. length x.1.now ≤ length text.now) }
{
    let Some((b'{', rest)) = text.split_first() else {
        return Err(TemplateFault::Brace);
    };
    match split_once(b'}', rest) {
        Some((name, left)) => {
            if name.is_empty() {
                Err(TemplateFault::Brace)
            } else {
                Ok((name, left))
            }
        }
        None => Err(TemplateFault::Brace),
    }
}
