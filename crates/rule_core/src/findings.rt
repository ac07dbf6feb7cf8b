//! What is found about a line when it is known what becomes of its jump and of its label.
ghost use Rattle.std.specs.Prelude.{◌≡◌, ◌∷◌, ◌++◌, [], if◌then◌else◌, IfOk, OnOk};
ghost use Rattle.rule_core.specs.Rules.{findings_of, line_findings, name_spot};

use crate::draft::Draft;
use crate::names::NamePlace;
use crate::readings::{LandedReading, Reading};
use crate::spot::whole_spot;
use file_messages::MessageKind;
use rule_types::{Landing, Spot};
use std::alloc::{AllocError, Global};
use text_bytes::Bytes;

/// The findings about a line, in the order of messages.
pub fn line_findings(
    alloc: Global,
    line: LandedReading<'_>,
) -> Result<Vec<Spot<MessageKind>>, AllocError>
    ensures { IfOk result (λ found. found.items ≡ line_findings line.entry.0.read line.entry.1) }
{
    let LandedReading { reading, landing } = line;
    let Reading { read, .. } = reading;
    match read {
        Ok(draft) => {
            let Draft {
                label,
                goto,
                parts,
                findings,
            } = draft;
            drop(parts);
            findings_of(alloc, &label, &goto, findings, landing)
        }
        Err(wrong) => {
            let mut found = Vec::new(alloc);
            found.push(wrong)?;
            Ok(found)
        }
    }
}

/// The findings about a rule with these names and findings: first about its jump, and about its label last.
pub(crate) fn findings_of(
    alloc: Global,
    label: &Option<NamePlace>,
    goto: &Option<NamePlace>,
    findings: Vec<Spot<MessageKind>>,
    landing: Landing,
) -> Result<Vec<Spot<MessageKind>>, AllocError>
    ensures { IfOk result (λ found. found.items
        ≡ findings_of (record { label = label.now; goto = goto.now; parts = []; findings = findings.items }) landing) }
{
    let mut findings = findings;
    let mut found = Vec::new(alloc);
    let lost = MessageKind::NoLaterLabel;
    let unused = MessageKind::LabelUnused;
    add_name(alloc, &mut found, landing.lost, lost, goto)?;
    found.append(&mut findings)?;
    add_name(alloc, &mut found, landing.unused, unused, label)?;
    Ok(found)
}

/// Adds a finding about a name, which is empty if there is none, if anything is wrong with it.
fn add_name(
    alloc: Global,
    found: &mut Vec<Spot<MessageKind>>,
    wrong: bool,
    kind: MessageKind,
    given: &Option<NamePlace>,
) -> Result<(), AllocError>
    ensures { OnOk result (found.new.items ≡ found.old.items ++ (if wrong then name_spot kind given.now ∷ [] else [])) }
{
    if wrong {
        match given {
            None => found.push(whole_spot(alloc, kind, &[]))?,
            Some(given) => found.push(Spot {
                kind,
                word: Bytes::copy_of(alloc, given.name.as_slice())?,
                start: given.start,
                size: given.size,
            })?,
        }
    }
    Ok(())
}
