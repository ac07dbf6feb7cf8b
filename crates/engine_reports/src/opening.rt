//! What comes before the first answer to an event.
ghost use Rattle.std.specs.Prelude.{◌≡◌, List, [], None, Ok, IfOk, IfErr};
ghost use Rattle.trie_nodes.specs.Orders.{Rising};
ghost use Rattle.trie_build.specs.Sizes.{KeepsBounds};
ghost use Rattle.trie_nodes.specs.declared.entry.Entry.{Entry};
ghost use Rattle.engine_reports.specs.FilesRead.{rules_read};
ghost use Rattle.engine_reports.specs.Openings.{opening, opening_by, opening_messages, opening_within};
ghost use Rattle.engine_reports.specs.Reports.{IsRefused, shown_rules};

use crate::file_choice::{both_read, files_read};
use crate::messages::{message_lines, plain_message_lines};
use crate::refusal::Refusal;
use engine_sessions::Line;
use file_messages::Message;
use hwdb_core::read_sources;
use rule_core::{ReadRules, files_as_read, read_rules_as};
use std::alloc::{AllocError, Global};
use text_bytes::{FileKind, Profile, SourceFile};
use trie_build::{Trie, trie_of};
use trie_nodes::Entry;

/// The rules and messages of rules files.
#[derive(Drop)]
pub struct RulesRead {
    /// The messages about them, without those about style.
    pub messages: Vec<u8>,
    /// The rules.
    pub rules: ReadRules,
}

/// Reads what events are answered by from the files passed in, rules by the line's profile: the rules and the messages,
/// and the database as a trie. The files are returned as soon as what they hold is known.
///
/// There is `TooManyEntries` exactly if the files of the database hold more than they may, otherwise `TooManyRules`
/// exactly if the rules have more than 2^24 tokens; `Memory` if memory runs out.
pub fn open_with_database(
    alloc: Global,
    line: &Line<'_>,
    files: Vec<SourceFile>,
) -> Result<(RulesRead, Trie), Refusal>
    ensures opening { IfOk result (λ r. opening line.now files.items None ≡ Ok (shown_rules r.0 r.1.entries)) }
    ensures refused { IfErr result (λ e. IsRefused e (opening line.now files.items None)) }
{
    let (rules, database) = both_read(alloc, line, files)?;
    let rules = files_as_read(alloc, line.profile, rules)?;
    let (read, entries) = open_these(alloc, line.profile, &rules, &database)?;
    drop(rules);
    drop(database);
    Ok((read, trie_of(alloc, entries)?))
}

/// The same for the files that are read, rules with their ends of lines as the profile has them. The entries of the
/// database are by order, and never too many for a trie.
fn open_these(
    alloc: Global,
    profile: Profile,
    rules: &[SourceFile],
    database: &[SourceFile],
) -> Result<(RulesRead, Vec<Entry>), Refusal>
    ensures opening { IfOk result (λ r. opening_within profile rules.now database.now ≡ Ok (shown_rules r.0 r.1.items)) }
    ensures rising { IfOk result (λ r. Rising r.1.items) }
    ensures bounds { IfOk result (λ r. KeepsBounds r.1.items) }
    ensures refused { IfErr result (λ e. IsRefused e (opening_within profile rules.now database.now)) }
{
    let database = read_sources(alloc, database)?;
    let read = open_these_rules(alloc, profile, rules, &database.messages)?;
    Ok((read, database.entries))
}

/// Reads the rules by which events are answered with an index, from the files passed in and by the line's profile.
/// No file of a database is read, and so there are no messages about one.
///
/// `TooManyRules` comes exactly if the rules have more than 2^24 tokens; `Memory` if memory runs out.
pub fn open_rules(
    alloc: Global,
    line: &Line<'_>,
    files: Vec<SourceFile>,
) -> Result<RulesRead, Refusal>
    ensures opening { IfOk result (λ r. (entries : List Entry) → opening_by line.now.profile (rules_read line.now files.items) [] entries
        ≡ Ok (shown_rules r entries)) }
    ensures refused { IfErr result (λ e. (entries : List Entry) → IsRefused e (opening_by line.now.profile (rules_read line.now files.items) [] entries)) }
{
    let rules = files_read(alloc, FileKind::Rules, line, files)?;
    let rules = files_as_read(alloc, line.profile, rules)?;
    open_these_rules(alloc, line.profile, &rules, &[])
}

/// The rules of the files that are read, by a profile, and the messages about them and about a database.
fn open_these_rules(
    alloc: Global,
    profile: Profile,
    files: &[SourceFile],
    messages: &[Message],
) -> Result<RulesRead, Refusal>
    ensures opening { IfOk result (λ r. (entries : List Entry) → opening_by profile files.now messages.now entries ≡ Ok (shown_rules r entries)) }
    ensures refused { IfErr result (λ e. (entries : List Entry) → IsRefused e (opening_by profile files.now messages.now entries)) }
{
    let rules = read_rules_as(alloc, profile, files)?;
    let messages = all_message_lines(alloc, rules.messages(), messages)?;
    Ok(RulesRead { messages, rules })
}

/// The lines of the messages about rules that are not about style, and then of those about a database.
fn all_message_lines(
    alloc: Global,
    rules: &[Message],
    database: &[Message],
) -> Result<Vec<u8>, AllocError>
    ensures { IfOk result (λ text. text.items ≡ opening_messages rules.now database.now) }
{
    let mut text = plain_message_lines(alloc, rules)?;
    text.append(&mut message_lines(alloc, database)?)?;
    Ok(text)
}
