//! A rules file with its commas and blanks mended.
ghost use Rattle.std.specs.Prelude.{◌≡◌, ◌&&◌, nat_eq, IfOk};
ghost use Rattle.std.specs.Cmp.Lexicographic.{pointwise};
ghost use Rattle.std.specs.Option.{option_eq};
ghost use Rattle.text_bytes.specs.declared.profile.Profile.TheVariants.{Manual};
ghost use Rattle.rule_core.specs.Lines.{joined_lines};
ghost use Rattle.rule_places.specs.Alike.{is_mended};
ghost use Rattle.rule_places.specs.Mended.{mended};
ghost use Rattle.rule_places.specs.Proposed.{landed_in, proposed};

use crate::alike::{are_mended_lines, keeps_idle_lines};
use crate::proposing::proposed_by;
use rule_core::{LandedLines, joined_lines, note_lines};
use std::alloc::{AllocError, Global};
use text_bytes::{Bytes, Profile};

/// A rules file with these bytes, its commas and blanks mended, as udev(7) says that rules are read.
///
/// A joined line without a fault, of which the commas or blanks are not as they should be, has its tokens as they
/// were. A gap between two of them stays if it has one comma, no blank before it and at least one after it; else
/// the token before it is followed by a comma and a blank. Nothing stays after the last token. A backslash that
/// continues a line stays where it is among the tokens, and so do indentations. All other lines stay as they are:
/// comments, lines with a fault, and what is open at the end of the file.
///
/// What is made in this way is read again. If it is not the same rules, or something would still be to mend, the
/// file stays as it is; that is so for a line that would become too long.
#[tactic(auto, unfolding(crate::specs::Mended::mended))]
pub fn mended_rules(alloc: Global, bytes: &[u8]) -> Result<Bytes, AllocError>
    ensures { IfOk result (λ written. written ≡ mended bytes.now) }
{
    let joined = joined_lines(alloc, Profile::Manual, bytes)?;
    let notes = note_lines(alloc, Profile::Manual, joined.lines())?;
    let lines = LandedLines::new(Profile::Manual, joined.lines(), &notes.landings);
    let written = proposed_by(alloc, bytes, lines.copied())?;
    if written.as_slice() == bytes || is_mended(alloc, bytes, joined.open_at(), lines, &written)? {
        Ok(Bytes::new(written))
    } else {
        Bytes::copy_of(alloc, bytes)
    }
}

/// Whether a file with these joined lines, of which one may be open at its end, is another that was mended.
fn is_mended(
    alloc: Global,
    old: &[u8],
    open_at: Option<u32>,
    lines: LandedLines<'_>,
    new: &[u8],
) -> Result<bool, AllocError>
    requires open { open_at ≡ (joined_lines Manual old.now).open_at }
    requires lines { lines ≡ landed_in old.now }
    ensures { IfOk result (λ same. same ≡ is_mended old.now new.now) }
{
    let joined = joined_lines(alloc, Profile::Manual, new)?;
    let keeps = open_at == joined.open_at() && keeps_idle_lines(old, new);
    if !keeps {
        return Ok(false);
    }
    let notes = note_lines(alloc, Profile::Manual, joined.lines())?;
    let own = LandedLines::new(Profile::Manual, joined.lines(), &notes.landings);
    are_mended_lines(alloc, lines, own)
}
