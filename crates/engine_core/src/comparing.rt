//! `compare`: the messages about two sets of rules, and then what appears and disappears between their answers.
ghost use Rattle.std.specs.Prelude.{◌≡◌, Ok, Err, Some, None, IfOk, IfErr, option_map, Result};
ghost use Rattle.engine_sessions.specs.Delivery.{RunOutcome};
ghost use Rattle.engine_core.specs.Comparing.{ComparesBy, ComparesOver, both_messages, differences_by};
ghost use Rattle.engine_core.specs.Outcomes.{telling_of};
ghost use Rattle.engine_reports.specs.Indexes.{entries_in};
ghost use Rattle.engine_reports.specs.Openings.{OpeningValue, opening};
ghost use Rattle.engine_reports.specs.Reports.{IsRefused, shown_rules};
ghost use Rattle.engine_formats.specs.Masked.{shown_in};
ghost use Rattle.engine_sessions.specs.Findings.{FindsAll};
ghost use Rattle.engine_sessions.specs.Sessions.{answers_as};

use crate::events::{is_json, telling_of};
use crate::shared::Shared;
use crate::sides::ComparedTables;
use builtin_core::Builtins;
use builtin_devices::RootFiles;
use engine_answers::{Compared, marked};
use engine_formats::shown_in;
use engine_reports::{
    Refusal, RulesRead, deliver_refusal, open_index, open_rules, open_with_database,
};
use engine_sessions::{Line, Sink, Source, find_after_messages, report_out_of_memory};
use std::alloc::{AllocError, Global};
use text_bytes::SourceFile;
use trie_build::{Index, IndexFault};
use trie_nodes::Lookup;

/// Compares the answers to the events of an input by two sets of rules, writes what appears and disappears, and
/// returns the status to exit with.
///
/// The files of each side are those passed in for its line, taken and read as `events` does; rules are evaluated by
/// the profile of the old line, which is that of the new one if a command line made both, and what was found at paths of
/// each root is passed in. Messages about the old
/// rules go to `error`, each after `[OLD] `, and then those about the new ones, each after `[NEW] `; to `output`, for
/// each block of `input` whose answers differ, what appears and disappears, in the old line's format, and if the old line asks
/// for sources each line after the place of the rule that it comes from, written and flushed before the next read.
/// If `index` is passed in, both sides ask it, and no file of a database is read.
///
/// The status is 0; 1 if anything appears or disappears, if a block is faulty, if the files of a side hold more
/// than they may, or if the index fails a check; 3 if the input or an output failed, or the input did not end
/// within 2^48 reads, and only then; 4 if memory ran out. Under 3 all was written and flushed.
pub fn serve_compare<R: Source, W: Sink, E: Sink>(
    alloc: Global,
    old_line: &Line<'_>,
    new_line: &Line<'_>,
    old_files: Vec<SourceFile>,
    new_files: Vec<SourceFile>,
    old_found: &RootFiles,
    new_found: &RootFiles,
    index: Option<&[u8]>,
    input: &mut R,
    output: &mut W,
    error: &mut E,
) -> u8
    // What is written and returned is one function of the lines, the files, what was found, the index and the input; and
    // the same step by step.
    ensures { ComparesOver old_line.now new_line.now old_files.items new_files.items old_found.now new_found.now
        (option_map (λ bytes. bytes.now) index.entry) result
        (record { input = R.shown input.old; out = W.shown output.old; err = E.shown error.old })
        (record { input = R.shown input.new; out = W.shown output.new; err = E.shown error.new }) }
{
    let opened = open_index(index);
    compare_opened(
        alloc, old_line, new_line, old_files, new_files, old_found, new_found, opened, input,
        output, error,
    )
}

/// The same, by the outcome of opening the index.
fn compare_opened<R: Source, W: Sink, E: Sink>(
    alloc: Global,
    old_line: &Line<'_>,
    new_line: &Line<'_>,
    old_files: Vec<SourceFile>,
    new_files: Vec<SourceFile>,
    old_found: &RootFiles,
    new_found: &RootFiles,
    opened: Option<Result<Index<'_>, IndexFault>>,
    input: &mut R,
    output: &mut W,
    error: &mut E,
) -> u8
    ensures { ComparesBy old_line.now new_line.now old_found.now new_found.now (opening old_line.now old_files.items opened.entry)
        (opening new_line.now new_files.items opened.entry) result
        (record { input = R.shown input.old; out = W.shown output.old; err = E.shown error.old })
        (record { input = R.shown input.new; out = W.shown output.new; err = E.shown error.new }) }
{
    match opened {
        None => {
            let old = open_with_database(alloc, old_line, old_files);
            let new = open_with_database(alloc, new_line, new_files);
            compare_read(
                alloc, old_line, new_line, old_found, new_found, old, new, input, output, error,
            )
        }
        Some(Ok(index)) => {
            let old = open_beside(alloc, old_line, old_files, &index);
            let new = open_beside(alloc, new_line, new_files, &index);
            compare_read(
                alloc, old_line, new_line, old_found, new_found, old, new, input, output, error,
            )
        }
        Some(Err(fault)) => deliver_refusal(Refusal::Index(fault), output, error),
    }
}

/// Compares two sets of rules with their databases, or writes why there are not both.
fn compare_read<L: Lookup + Drop, M: Lookup + Drop, R: Source, W: Sink, E: Sink>(
    alloc: Global,
    old_line: &Line<'_>,
    new_line: &Line<'_>,
    old_found: &RootFiles,
    new_found: &RootFiles,
    old: Result<(RulesRead, L), Refusal>,
    new: Result<(RulesRead, M), Refusal>,
    input: &mut R,
    output: &mut W,
    error: &mut E,
) -> u8
    ensures { (old_opened new_opened : Result OpeningValue RunOutcome)
        → IfOk old (λ r. old_opened ≡ Ok (shown_rules r.0 (L.entries r.1))) → IfErr old (λ e. IsRefused e old_opened)
        → IfOk new (λ r. new_opened ≡ Ok (shown_rules r.0 (M.entries r.1))) → IfErr new (λ e. IsRefused e new_opened)
        → ComparesBy old_line.now new_line.now old_found.now new_found.now old_opened new_opened result
        (record { input = R.shown input.old; out = W.shown output.old; err = E.shown error.old })
        (record { input = R.shown input.new; out = W.shown output.new; err = E.shown error.new }) }
{
    match old {
        Ok((old_rules, old_lookup)) => match new {
            Ok((new_rules, new_lookup)) => compare_rules(
                alloc, old_line, new_line, old_found, new_found, old_rules, old_lookup, new_rules,
                new_lookup, input, output, error,
            ),
            Err(refusal) => deliver_refusal(refusal, output, error),
        },
        Err(refusal) => deliver_refusal(refusal, output, error),
    }
}

/// Writes the messages, and after them what appears and disappears.
fn compare_rules<L: Lookup + Drop, M: Lookup + Drop, R: Source, W: Sink, E: Sink>(
    alloc: Global,
    old_line: &Line<'_>,
    new_line: &Line<'_>,
    old_found: &RootFiles,
    new_found: &RootFiles,
    old: RulesRead,
    old_lookup: L,
    new: RulesRead,
    new_lookup: M,
    input: &mut R,
    output: &mut W,
    error: &mut E,
) -> u8
    ensures { FindsAll (telling_of old_line.now) (shown_in old_line.now.format (both_messages old.messages.items new.messages.items))
        (answers_as old_line.now.profile (differences_by old_line.now new_line.now old_found.now new_found.now (shown_rules old (L.entries old_lookup))
        (shown_rules new (M.entries new_lookup)))) result
        (record { input = R.shown input.old; out = W.shown output.old; err = E.shown error.old })
        (record { input = R.shown input.new; out = W.shown output.new; err = E.shown error.new }) }
{
    let old_builtins = Builtins::new(old_lookup, &old_line.links, old_found);
    let new_builtins = Builtins::new(new_lookup, &new_line.links, new_found);
    let telling = telling_of(old_line);
    let asked = Asked {
        json: is_json(old_line.format),
        sources: old_line.sources,
    };
    match both_tables(alloc, asked, old, old_builtins, new, new_builtins) {
        Ok((messages, tables)) => find_after_messages(
            alloc,
            old_line.profile,
            telling,
            &shown_in(old_line.format, messages),
            &tables,
            input,
            output,
            error,
        ),
        Err(_) => report_out_of_memory(error),
    }
}

/// How differences are written: whether as JSON, and whether with the rules that their lines come from.
#[derive(Clone, Copy)]
struct Asked {
    json: bool,
    sources: bool,
}

/// The messages about both sides, and the tables of both, for differences as they are asked for.
fn both_tables<'l, 'm, L: Lookup + Drop, M: Lookup + Drop>(
    alloc: Global,
    asked: Asked,
    old: RulesRead,
    old_builtins: Builtins<'l, L>,
    new: RulesRead,
    new_builtins: Builtins<'m, M>,
) -> Result<
    (
        Vec<u8>,
        Compared<ComparedTables<Builtins<'l, L>>, ComparedTables<Builtins<'m, M>>>,
    ),
    AllocError,
>
    ensures messages { IfOk result (λ both. both.0.items ≡ both_messages old.messages.items new.messages.items) }
    ensures tables { IfOk result (λ both. both.1 ≡ (
      asked.json,
      (
        (asked.sources, (old.rules.rules, old_builtins.entry)),
        (asked.sources, (new.rules.rules, new_builtins.entry)),
      ),
    )) }
{
    let RulesRead {
        messages: on_old,
        rules: old_rules,
    } = old;
    let RulesRead {
        messages: on_new,
        rules: new_rules,
    } = new;
    let mut messages = marked(alloc, b"[OLD] ", &on_old)?;
    messages.append(&mut marked(alloc, b"[NEW] ", &on_new)?)?;
    let sources = asked.sources;
    let old_tables = ComparedTables::new(alloc, sources, old_rules.into_rules(), old_builtins)?;
    let new_tables = ComparedTables::new(alloc, sources, new_rules.into_rules(), new_builtins)?;
    Ok((messages, Compared::new(asked.json, old_tables, new_tables)))
}

/// The rules and the messages about the files passed in, with an index that others also ask. No file of a database
/// is read.
fn open_beside<'b, 'a>(
    alloc: Global,
    line: &Line<'_>,
    files: Vec<SourceFile>,
    index: &'b Index<'a>,
) -> Result<(RulesRead, Shared<'b, Index<'a>>), Refusal>
    ensures opening { IfOk result (λ r. opening line.now files.items (Some (Ok index.entry.now)) ≡ Ok (shown_rules r.0 (entries_in r.1))) }
    ensures refused { IfErr result (λ e. IsRefused e (opening line.now files.items (Some (Ok index.entry.now)))) }
{
    let read = open_rules(alloc, line, files)?;
    Ok((read, Shared::new(index)))
}
