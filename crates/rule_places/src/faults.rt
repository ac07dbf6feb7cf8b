//! Lines of which the commas and blanks are to be mended.
ghost use Rattle.std.specs.Prelude.{◌≡◌};
ghost use Rattle.std.specs.List.{list_all};
ghost use Rattle.file_messages.specs.Messages.{is_style};
ghost use Rattle.rule_places.specs.Faults.{is_faultless, is_sound, is_to_mend};

use crate::gaps::is_well_spaced;
use file_messages::MessageKind;
use rule_core::{Draft, LandedReading, Spot};
use rule_types::Landing;

/// Whether the commas and blanks of a line are to be mended: it is a rule without a fault, and they are not as
/// they should be.
pub(crate) fn is_to_mend(line: &LandedReading<'_>) -> bool
    ensures { result ≡ is_to_mend line.now }
{
    match &line.reading.read {
        Err(_) => false,
        Ok(draft) => {
            is_faultless(draft, line.landing) && !is_well_spaced(line.reading.text, &draft.parts)
        }
    }
}

/// Whether a line is a rule about which only style is found.
pub(crate) fn is_sound(line: &LandedReading<'_>) -> bool
    ensures { result ≡ is_sound line.now.0.read line.now.1 }
{
    match &line.reading.read {
        Err(_) => false,
        Ok(draft) => is_faultless(draft, line.landing),
    }
}

/// Whether only style is found about a rule, and its jump is not lost.
fn is_faultless(draft: &Draft<'_>, landing: Landing) -> bool
    ensures { result ≡ is_faultless draft.now landing }
{
    !landing.lost && all_style(&draft.findings)
}

/// Whether findings are about style alone.
fn all_style(findings: &[Spot<MessageKind>]) -> bool
    ensures { result ≡ list_all (λ s. is_style s.kind) findings.now }
{
    findings.iter().all(|found| found.kind.is_style())
}
