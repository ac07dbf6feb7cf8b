//! What is reported for the rules of a file that stay.
ghost use Rattle.std.specs.Prelude.{◌≡◌, IfOk};
ghost use Rattle.rule_remarks.specs.Rules.{line_remarks, remarks_from};

use crate::accounts::Accounts;
use crate::rule_remarks::rule_remarks;
use file_messages::MessageKind;
use rule_core::{Draft, LandedReading, Spot, sum_of};
use rule_places::{KeptLines, PlacedFinding, place_spots};
use std::alloc::{AllocError, Global};

/// What udev reports about the rules of a file that stay, in the order of their lines, which were read for udev, each
/// with the physical line and the columns that it is about. The kept lines are those of the same file.
///
/// For each rule, first comes what is wrong with each token, in written order: with its attribute, then with its
/// value. Then comes V19, and then what is reported for two tokens. V19, V16, V17 and V20 are reported at a key,
/// V21 and V22 at an attribute between its braces, V5, V6, V23 and V25 at a value between its quotes; each has the
/// text that it is about. A place in several physical lines is reported as far as it is in the first of them. The
/// number of a line or a column is at most 2^32 - 1.
pub fn remarks_of_lines(
    alloc: Global,
    accounts: &Accounts,
    kept: &KeptLines,
    lines: &[LandedReading<'_>],
) -> Result<Vec<PlacedFinding<MessageKind>>, AllocError>
    ensures { IfOk result (λ reported. reported.items ≡ remarks_from accounts.now kept.now 0 lines.now) }
{
    let mut reported = Vec::new(alloc);
    let mut start = 0;
    for line in lines {
        let reading = &line.reading;
        let spots = line_remarks(alloc, accounts, &reading.read)?;
        place_spots(&mut reported, kept, reading.line, start, spots)?;
        start = sum_of(start, reading.text.len())?;
    }
    Ok(reported)
}

/// What udev reports about a line, if it was read as a rule.
pub fn line_remarks(
    alloc: Global,
    accounts: &Accounts,
    read: &Result<Draft<'_>, Spot<MessageKind>>,
) -> Result<Vec<Spot<MessageKind>>, AllocError>
    ensures { IfOk result (λ spots. spots.items ≡ line_remarks accounts.now read.now) }
{
    match read {
        Ok(draft) => rule_remarks(alloc, accounts, &draft.parts),
        Err(_) => Ok(Vec::new(alloc)),
    }
}
