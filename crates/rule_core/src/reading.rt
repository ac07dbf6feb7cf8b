//! Reading rules files.
ghost use Rattle.std.specs.Prelude.{◌≡◌, ◌∷◌, ◌++◌, ◌<◌, ◌≤◌, ◌^◌, [], None, IfOk, IfErr, OnOk, flat_map, map};
ghost use Rattle.rule_core.specs.Gathering.{Adds};
ghost use Rattle.rule_types.specs.Rules.{tokens_in};
ghost use Rattle.rule_core.specs.Rules.{file_messages, file_rules, findings_of, line_messages, line_rules, message_at, messages_unless};
ghost use Rattle.rule_core.specs.Rules.{rule_at, rules_unless, set_of, set_of_as};
ghost use Rattle.rule_core.specs.declared.fault.RulesFault.TheVariants.{TooMany};

use crate::draft::Draft;
use crate::fault::RulesFault;
use crate::findings::findings_of;
use crate::gathered::Gathered;
use crate::joining::joined_lines;
use crate::kinds::rule_of;
use crate::line_ends::abandoned_at;
use crate::messages::{Place, report, report_all, report_open};
use crate::names::name_unless;
use crate::read_set::ReadRules;
use crate::readings::{LandedReading, Reading, read_lines};
use crate::spot::whole_spot;
use file_messages::{Message, MessageKind};
use rule_types::{Landing, RuleSet};
use std::alloc::Global;
use text_bytes::{Profile, SourceFile};

/// Reads rules files as udev(7) writes them, in the order in which they are given.
///
/// A line that is wrong costs a message and is not a rule. `TooMany` comes exactly if more than 2^24 tokens are
/// left in the rules, and `Memory` only if an allocation fails.
pub fn read_rules(alloc: Global, files: &[SourceFile]) -> Result<ReadRules, RulesFault>
    ensures set { IfOk result (λ s. s ≡ set_of files.now) }
    ensures within { IfOk result (λ s. tokens_in (set_of files.now).rules ≤ 2 ^ 24) }
    ensures too_many { IfErr result (λ e. e ≡ TooMany → 2 ^ 24 < tokens_in (set_of files.now).rules) }
{
    read_rules_as(alloc, Profile::Manual, files)
}

/// Reads rules files as `read_rules` does, or as udev itself reads them, with the ends of their lines as
/// `files_as_read` writes them. A file that udev gives up costs a message and has no rules.
pub fn read_rules_as(
    alloc: Global,
    profile: Profile,
    files: &[SourceFile],
) -> Result<ReadRules, RulesFault>
    ensures set { IfOk result (λ s. s ≡ set_of_as profile files.now) }
    ensures within { IfOk result (λ s. tokens_in (set_of_as profile files.now).rules ≤ 2 ^ 24) }
    ensures too_many { IfErr result (λ e. e ≡ TooMany → 2 ^ 24 < tokens_in (set_of_as profile files.now).rules) }
{
    let mut rules = Gathered::new(alloc);
    let mut messages = Vec::new(alloc);
    read_files(alloc, profile, &mut rules, &mut messages, files)?;
    Ok(ReadRules {
        rules: RuleSet::new(rules.into_rules()),
        messages,
    })
}

/// Reads files.
fn read_files(
    alloc: Global,
    profile: Profile,
    rules: &mut Gathered,
    messages: &mut Vec<Message>,
    files: &[SourceFile],
) -> Result<(), RulesFault>
    ensures rules { Adds rules.old rules.new (flat_map (file_rules profile) files.now) result }
    ensures messages { OnOk result (messages.new.items ≡ messages.old.items ++ flat_map (file_messages profile) files.now) }
{
    for file in files {
        read_file(alloc, profile, rules, messages, file)?;
    }
    Ok(())
}

/// Reads a file.
fn read_file(
    alloc: Global,
    profile: Profile,
    rules: &mut Gathered,
    messages: &mut Vec<Message>,
    file: &SourceFile,
) -> Result<(), RulesFault>
    ensures rules { Adds rules.old rules.new (file_rules profile file.now) result }
    ensures messages { OnOk result (messages.new.items ≡ messages.old.items ++ file_messages profile file.now) }
{
    match abandoned_at(profile, file.bytes.as_slice()) {
        None => read_kept(alloc, profile, rules, messages, file),
        Some(line) => {
            let place = Place {
                file: file.name.as_slice(),
                line,
            };
            let found = whole_spot(alloc, MessageKind::FileAbandoned, &[]);
            report(alloc, messages, place, found)?;
            Ok(())
        }
    }
}

/// Reads a file that is not given up.
fn read_kept(
    alloc: Global,
    profile: Profile,
    rules: &mut Gathered,
    messages: &mut Vec<Message>,
    file: &SourceFile,
) -> Result<(), RulesFault>
    ensures rules { Adds rules.old rules.new (rules_unless profile file.now None) result }
    ensures messages { OnOk result (messages.new.items ≡ messages.old.items ++ messages_unless profile file.now None) }
{
    let name = file.name.as_slice();
    let joined = joined_lines(alloc, profile, file.bytes.as_slice())?;
    let lines = read_lines(alloc, profile, joined.lines())?;
    add_lines(alloc, profile, rules, messages, name, lines)?;
    report_open(alloc, messages, name, joined.open_at())?;
    Ok(())
}

/// Adds the lines of a file.
fn add_lines(
    alloc: Global,
    profile: Profile,
    rules: &mut Gathered,
    messages: &mut Vec<Message>,
    name: &[u8],
    lines: Vec<LandedReading<'_>>,
) -> Result<(), RulesFault>
    ensures rules { Adds rules.old rules.new (flat_map (λ x. line_rules profile name.now x.0.line x.0.read x.1) lines.entry.items) result }
    ensures messages { OnOk result (messages.new.items ≡ messages.old.items ++ flat_map (λ x. line_messages name.now x.0.line x.0.read x.1) lines.entry.items) }
{
    for line in lines {
        add_line(alloc, profile, rules, messages, name, line)?;
    }
    Ok(())
}

/// Adds a line: a rule, or a message about one that is not a rule.
fn add_line(
    alloc: Global,
    profile: Profile,
    rules: &mut Gathered,
    messages: &mut Vec<Message>,
    name: &[u8],
    line: LandedReading<'_>,
) -> Result<(), RulesFault>
    ensures rules { Adds rules.old rules.new (line_rules profile name.now line.entry.0.line line.entry.0.read line.entry.1) result }
    ensures messages { OnOk result (messages.new.items ≡ messages.old.items ++ line_messages name.now line.entry.0.line line.entry.0.read line.entry.1) }
{
    let LandedReading { reading, landing } = line;
    let Reading {
        line,
        text: _,
        read,
    } = reading;
    let place = Place { file: name, line };
    match read {
        Ok(draft) => add_draft(alloc, profile, rules, messages, place, draft, landing),
        Err(found) => {
            report(alloc, messages, place, found)?;
            Ok(())
        }
    }
}

/// Adds a rule, and the messages about it: first about its jump, and about its label last.
fn add_draft(
    alloc: Global,
    profile: Profile,
    rules: &mut Gathered,
    messages: &mut Vec<Message>,
    place: Place<'_>,
    draft: Draft<'_>,
    landing: Landing,
) -> Result<(), RulesFault>
    ensures rules { Adds rules.old rules.new (rule_at profile place.entry.file.now place.entry.line draft.entry landing ∷ []) result }
    ensures messages { OnOk result (messages.new.items ≡ messages.old.items
        ++ map (message_at place.entry.file.now place.entry.line) (findings_of draft.entry landing)) }
{
    let Draft {
        label,
        goto,
        parts,
        findings,
    } = draft;
    let found = findings_of(alloc, &label, &goto, findings, landing)?;
    report_all(alloc, messages, place, found)?;
    let kept = name_unless(landing.lost, goto);
    rules.add(rule_of(
        alloc,
        profile,
        place,
        name_unless(false, label),
        kept,
        parts,
    )?)
}
