//! `events`: the messages, and then the answers to the blocks of the input.
ghost use Rattle.std.specs.Prelude.{◌≡◌, true, false, Ok, IfOk, IfErr, Some, Result};
ghost use Rattle.engine_sessions.specs.Delivery.{RunOutcome};
ghost use Rattle.engine_core.specs.Outcomes.{added_of, asked_of, asks_more, is_json, telling_of, why_of};
ghost use Rattle.engine_core.specs.Runs.{AnswersBy, RunsBy};
ghost use Rattle.engine_reports.specs.Indexes.{entries_in};
ghost use Rattle.engine_reports.specs.Openings.{OpeningValue, opening};
ghost use Rattle.engine_reports.specs.Reports.{IsRefused, shown_rules};
ghost use Rattle.engine_sessions.specs.Serves.{AnswersAll};
ghost use Rattle.engine_sessions.specs.Sessions.{answers_as};
ghost use Rattle.engine_sessions.specs.Tallies.{SaysAll, events_of};
ghost use Rattle.engine_courses.specs.Unused.{unused_lines};

use crate::asked::AskedTables;
use crate::reported::ReportedTables;
use builtin_core::Builtins;
use builtin_devices::{Knowledge, RootFiles};
use engine_answers::Tables;
use engine_courses::{UnusedTally, first_unknown};
use engine_formats::shown_in;
use engine_reports::{
    Refusal, RulesRead, deliver_refusal, deliver_usage_error, open_rules, open_with_database,
};
use engine_sessions::{
    Answering, Format, Line, Sink, Source, Telling, answer_after_messages, answer_and_tally,
    report_out_of_memory,
};
use rule_types::Rule;
use std::alloc::Global;
use text_bytes::SourceFile;
use trie_build::{Index, IndexFault};
use trie_nodes::Lookup;

/// Reads what events are answered by, writes the messages about it, answers the input, both by the line's profile,
/// and returns the status to exit with. The database is the index that was opened, or otherwise that of the files;
/// `found` is what was found at paths of the root.
pub(crate) fn serve_events<R: Source, W: Sink, E: Sink>(
    alloc: Global,
    line: &Line<'_>,
    files: Vec<SourceFile>,
    found: &RootFiles,
    opened: Option<Result<Index<'_>, IndexFault>>,
    input: &mut R,
    output: &mut W,
    error: &mut E,
) -> u8
    ensures { RunsBy line.now found.now (asked_of line.now.format (why_of line.now) (opening line.now files.items opened.entry)) result
        (record { input = R.shown input.old; out = W.shown output.old; err = E.shown error.old })
        (record { input = R.shown input.new; out = W.shown output.new; err = E.shown error.new }) }
{
    match opened {
        None => {
            let read = open_with_database(alloc, line, files);
            answer_over(alloc, line, found, read, input, output, error)
        }
        Some(Ok(index)) => {
            let read = open_beside(alloc, line, files, index);
            answer_over(alloc, line, found, read, input, output, error)
        }
        Some(Err(fault)) => deliver_refusal(Refusal::Index(fault), output, error),
    }
}

/// Writes the messages, answers the input by the rules and the database, and returns the status to exit with; or
/// writes why there are none.
fn answer_over<L: Lookup + Drop, R: Source, W: Sink, E: Sink>(
    alloc: Global,
    line: &Line<'_>,
    found: &RootFiles,
    read: Result<(RulesRead, L), Refusal>,
    input: &mut R,
    output: &mut W,
    error: &mut E,
) -> u8
    ensures { (opened : Result OpeningValue RunOutcome) → IfOk read (λ r. opened ≡ Ok (shown_rules r.0 (L.entries r.1)))
        → IfErr read (λ e. IsRefused e opened) → RunsBy line.now found.now (asked_of line.now.format (why_of line.now) opened) result
        (record { input = R.shown input.old; out = W.shown output.old; err = E.shown error.old })
        (record { input = R.shown input.new; out = W.shown output.new; err = E.shown error.new }) }
{
    match read {
        Ok((rules, lookup)) => answer_asked(
            alloc, line, found, rules, lookup, input, output, error,
        ),
        Err(refusal) => deliver_refusal(refusal, output, error),
    }
}

/// Writes the messages, and then the answers, or otherwise which rule the line asks for that is not there.
fn answer_asked<L: Lookup + Drop, R: Source, W: Sink, E: Sink>(
    alloc: Global,
    line: &Line<'_>,
    found: &RootFiles,
    read: RulesRead,
    lookup: L,
    input: &mut R,
    output: &mut W,
    error: &mut E,
) -> u8
    ensures { RunsBy line.now found.now (asked_of line.now.format (why_of line.now) (Ok (shown_rules read (L.entries lookup)))) result
        (record { input = R.shown input.old; out = W.shown output.old; err = E.shown error.old })
        (record { input = R.shown input.new; out = W.shown output.new; err = E.shown error.new }) }
{
    match first_unknown(
        alloc,
        &line.why,
        read.rules.messages(),
        read.rules.rules().rules(),
    ) {
        Ok(None) => answer_by_rules(alloc, line, found, read, lookup, input, output, error),
        Ok(Some(unknown)) => {
            let messages = shown_in(line.format, read.messages);
            let unknown = shown_in(line.format, unknown.into_vec());
            deliver_usage_error(&messages, &unknown, output, error)
        }
        Err(_) => deliver_refusal(Refusal::Memory, output, error),
    }
}

/// Writes the messages and answers the input: with what the rules ask if the line asks for questions, and otherwise
/// with the outcome of each event.
fn answer_by_rules<L: Lookup + Drop, R: Source, W: Sink, E: Sink>(
    alloc: Global,
    line: &Line<'_>,
    found: &RootFiles,
    read: RulesRead,
    lookup: L,
    input: &mut R,
    output: &mut W,
    error: &mut E,
) -> u8
    ensures { AnswersBy line.now found.now (shown_rules read (L.entries lookup)) result
        (record { input = R.shown input.old; out = W.shown output.old; err = E.shown error.old })
        (record { input = R.shown input.new; out = W.shown output.new; err = E.shown error.new }) }
{
    if line.questions {
        ask_by_rules(alloc, line, found, read, lookup, input, output, error)
    } else {
        report_by_rules(alloc, line, found, read, lookup, input, output, error)
    }
}

/// Writes the messages, and after them what the rules ask of each event of the input.
fn ask_by_rules<L: Lookup + Drop, R: Source, W: Sink, E: Sink>(
    alloc: Global,
    line: &Line<'_>,
    found: &RootFiles,
    read: RulesRead,
    lookup: L,
    input: &mut R,
    output: &mut W,
    error: &mut E,
) -> u8
    requires { line.now.questions ≡ true }
    ensures { AnswersBy line.now found.now (shown_rules read (L.entries lookup)) result
        (record { input = R.shown input.old; out = W.shown output.old; err = E.shown error.old })
        (record { input = R.shown input.new; out = W.shown output.new; err = E.shown error.new }) }
{
    let RulesRead { messages, rules } = read;
    let messages = shown_in(line.format, messages);
    let tables = AskedTables::new(
        rules.into_rules(),
        Builtins::new(lookup, &line.links, found),
    );
    let rules = tables.rules();
    let knowledge = tables.knowledge();
    answer_and_say(
        alloc, line, &messages, &tables, rules, knowledge, input, output, error,
    )
}

/// Whether answers are objects of JSON.
pub(crate) fn is_json(format: Format) -> bool
    ensures { result ≡ is_json format }
{
    format == Format::Json
}

/// Whether a line asks for more than the answers, or for another format of them.
fn asks_more(line: &Line<'_>) -> bool
    ensures { result ≡ asks_more line.now }
{
    line.sources || !line.why.is_empty() || is_json(line.format)
}

/// How a run of a line tells what is no answer.
pub(crate) fn telling_of(line: &Line<'_>) -> Telling
    ensures { result ≡ telling_of line.now }
{
    let for_people = line.format.is_for_people();
    Telling {
        for_people,
        no_block: line.all | for_people,
    }
}

/// Writes the messages and answers the input; if the line asks for that, the rules that no event met follow the answers.
fn answer_and_say<A: Answering, K: Knowledge, R: Source, W: Sink, E: Sink>(
    alloc: Global,
    line: &Line<'_>,
    messages: &[u8],
    answering: &A,
    rules: &[Rule],
    knowledge: &K,
    input: &mut R,
    output: &mut W,
    error: &mut E,
) -> u8
    ensures says { line.now.unused ≡ true
        → SaysAll (telling_of line.now) messages.now (answers_as line.now.profile (A.answers answering.now))
        (λ text. unused_lines (added_of line.now) rules.now (K.known knowledge.now) (events_of line.now.profile text)) result
        (record { input = R.shown input.old; out = W.shown output.old; err = E.shown error.old })
        (record { input = R.shown input.new; out = W.shown output.new; err = E.shown error.new }) }
    ensures answers { line.now.unused ≡ false
        → AnswersAll (telling_of line.now) messages.now (answers_as line.now.profile (A.answers answering.now)) result
        (record { input = R.shown input.old; out = W.shown output.old; err = E.shown error.old })
        (record { input = R.shown input.new; out = W.shown output.new; err = E.shown error.new }) }
{
    let profile = line.profile;
    let telling = telling_of(line);
    if !line.unused {
        return answer_after_messages(
            alloc, profile, telling, messages, answering, input, output, error,
        );
    }
    match UnusedTally::new(alloc, &line.added, rules, knowledge) {
        Ok(tally) => answer_and_tally(
            alloc, profile, telling, messages, answering, tally, input, output, error,
        ),
        Err(_) => report_out_of_memory(error),
    }
}

/// Writes the messages and answers the input: by the program of the rules, or, if the line asks for more than the
/// answers or for JSON, by the rules as they were read.
fn report_by_rules<L: Lookup + Drop, R: Source, W: Sink, E: Sink>(
    alloc: Global,
    line: &Line<'_>,
    found: &RootFiles,
    read: RulesRead,
    lookup: L,
    input: &mut R,
    output: &mut W,
    error: &mut E,
) -> u8
    requires { line.now.questions ≡ false }
    ensures { AnswersBy line.now found.now (shown_rules read (L.entries lookup)) result
        (record { input = R.shown input.old; out = W.shown output.old; err = E.shown error.old })
        (record { input = R.shown input.new; out = W.shown output.new; err = E.shown error.new }) }
{
    let RulesRead { messages, rules } = read;
    let messages = shown_in(line.format, messages);
    if asks_more(line) {
        let builtins = Builtins::new(lookup, &line.links, found);
        let json = is_json(line.format);
        let tables = ReportedTables::new(json, line.sources, &line.why, rules, builtins);
        let rules = tables.rules();
        let knowledge = tables.knowledge();
        return answer_and_say(
            alloc, line, &messages, &tables, rules, knowledge, input, output, error,
        );
    }
    match Tables::new(
        alloc,
        rules.into_rules(),
        Builtins::new(lookup, &line.links, found),
    ) {
        Ok(tables) => {
            let rules = tables.rules();
            let knowledge = tables.knowledge();
            answer_and_say(
                alloc, line, &messages, &tables, rules, knowledge, input, output, error,
            )
        }
        Err(_) => report_out_of_memory(error),
    }
}

/// The rules and the messages about the files passed in, if the database is an index: of the files only rules are read.
fn open_beside<'a>(
    alloc: Global,
    line: &Line<'_>,
    files: Vec<SourceFile>,
    index: Index<'a>,
) -> Result<(RulesRead, Index<'a>), Refusal>
    ensures opening { IfOk result (λ r. opening line.now files.items (Some (Ok index.entry)) ≡ Ok (shown_rules r.0 (entries_in r.1))) }
    ensures refused { IfErr result (λ e. IsRefused e (opening line.now files.items (Some (Ok index.entry)))) }
{
    let read = open_rules(alloc, line, files)?;
    Ok((read, index))
}
