//! The lines about items, each after what is in front of it.
ghost use Rattle.std.specs.Prelude.{◌≡◌, ◌++◌, ◌∷◌, [], IfOk, OnOk, option_map};
ghost use Rattle.engine_answers.specs.Answers.{lines_after};
ghost use Rattle.engine_answers.specs.Inner.{front_of, lines_as_is, shown_count};
ghost use Rattle.engine_answers.specs.Items.{env_lines, given_lines, item_lines, label_lines, member_lines, node_lines};
ghost use Rattle.engine_answers.specs.Items.{persist_lines, priority_lines, value_lines, watch_lines};

use crate::front::{push_label_origin, push_member_origin, push_origin};
use crate::lines::{is_hidden, push_as_is, push_bare, push_line, push_pair, push_text};
use engine_sessions::escaped_count;
use eval_effects::watch_word;
use eval_rules::Outcome;
use eval_sources::Sources;
use eval_state::Label;
use itoa::Buffer;
use std::alloc::{AllocError, Global};
use text_bytes::{Bytes, Profile};
use text_tables::{CowPairs, OwnedTexts, SortedPairs};

/// Adds the lines about all items of an outcome.
#[tactic(auto, unfolding(crate::specs::Items::item_lines))]
pub(crate) fn push_items(
    alloc: Global,
    lines: &mut Vec<u8>,
    sources: Option<&Sources<'_>>,
    profile: Profile,
    outcome: &Outcome<'_>,
) -> Result<(), AllocError>
    ensures { OnOk result (lines.new.items
        ≡ lines.old.items ++ lines_after (front_of (option_map (λ s. s.now) sources.entry)) (item_lines profile outcome.now)) }
{
    push_node(alloc, lines, sources, outcome)?;
    push_labels(alloc, lines, sources, profile, outcome.labels.as_slice())?;
    push_members(alloc, lines, sources, b"link", &outcome.links)?;
    push_members(alloc, lines, sources, b"tag", &outcome.tags)?;
    push_env(alloc, lines, sources, &outcome.env)?;
    push_values(alloc, lines, sources, b"attr", &outcome.attrs)?;
    push_values(alloc, lines, sources, b"sysctl", &outcome.sysctls)?;
    Ok(())
}

/// Adds the lines on the device's node.
#[tactic(auto, unfolding(crate::specs::Items::node_lines))]
fn push_node(
    alloc: Global,
    lines: &mut Vec<u8>,
    sources: Option<&Sources<'_>>,
    outcome: &Outcome<'_>,
) -> Result<(), AllocError>
    ensures { OnOk result (lines.new.items ≡ lines.old.items ++ lines_after (front_of (option_map (λ s. s.now) sources.entry)) (node_lines outcome.now)) }
{
    push_given(alloc, lines, sources, b"name", &outcome.name)?;
    push_given(alloc, lines, sources, b"owner", &outcome.owner)?;
    push_given(alloc, lines, sources, b"group", &outcome.group)?;
    push_given(alloc, lines, sources, b"mode", &outcome.mode)?;
    push_priority(alloc, lines, sources, outcome.priority)?;
    push_watch(alloc, lines, sources, outcome.watch)?;
    push_persist(alloc, lines, sources, outcome.persist)?;
    Ok(())
}

/// Adds the line of a text that is the only one of its word, if there is one.
fn push_given(
    alloc: Global,
    lines: &mut Vec<u8>,
    sources: Option<&Sources<'_>>,
    word: &[u8],
    text: &Option<Bytes>,
) -> Result<(), AllocError>
    ensures { OnOk result (lines.new.items
        ≡ lines.old.items ++ lines_after (front_of (option_map (λ s. s.now) sources.entry)) (given_lines word.now text.now)) }
{
    let Some(text) = text else {
        return Ok(());
    };
    push_origin(alloc, lines, sources, word, text.as_slice())?;
    push_text(alloc, lines, word, text.as_slice())
}

/// Adds the line of a priority, if one was assigned.
fn push_priority(
    alloc: Global,
    lines: &mut Vec<u8>,
    sources: Option<&Sources<'_>>,
    priority: Option<i32>,
) -> Result<(), AllocError>
    ensures { OnOk result (lines.new.items ≡ lines.old.items ++ lines_after (front_of (option_map (λ s. s.now) sources.entry)) (priority_lines priority)) }
{
    let Some(priority) = priority else {
        return Ok(());
    };
    let mut buffer = Buffer::new();
    let number = buffer.format(priority).as_bytes();
    push_origin(alloc, lines, sources, b"priority", number)?;
    push_line(lines, b"priority", number)
}

/// Adds the line for watching or not, if it was assigned.
fn push_watch(
    alloc: Global,
    lines: &mut Vec<u8>,
    sources: Option<&Sources<'_>>,
    watch: Option<bool>,
) -> Result<(), AllocError>
    ensures { OnOk result (lines.new.items ≡ lines.old.items ++ lines_after (front_of (option_map (λ s. s.now) sources.entry)) (watch_lines watch)) }
{
    let Some(watched) = watch else {
        return Ok(());
    };
    let word = watch_word(watched);
    push_origin(alloc, lines, sources, word, b"")?;
    push_bare(lines, word)
}

/// Adds the line that says that what is known stays in the database, if it does.
fn push_persist(
    alloc: Global,
    lines: &mut Vec<u8>,
    sources: Option<&Sources<'_>>,
    persist: bool,
) -> Result<(), AllocError>
    ensures { OnOk result (lines.new.items ≡ lines.old.items ++ lines_after (front_of (option_map (λ s. s.now) sources.entry)) (persist_lines persist)) }
{
    if !persist {
        return Ok(());
    }
    push_origin(alloc, lines, sources, b"persist", b"")?;
    push_bare(lines, b"persist")
}

/// Adds a line for each text.
fn push_members(
    alloc: Global,
    lines: &mut Vec<u8>,
    sources: Option<&Sources<'_>>,
    word: &[u8],
    texts: &OwnedTexts,
) -> Result<(), AllocError>
    ensures { OnOk result (lines.new.items
        ≡ lines.old.items ++ lines_after (front_of (option_map (λ s. s.now) sources.entry)) (member_lines word.now texts.now)) }
{
    for text in texts.as_slice() {
        push_member_origin(alloc, lines, sources, word, text, b"")?;
        push_text(alloc, lines, word, text)?;
    }
    Ok(())
}

/// Adds a line for each name and its value.
fn push_values(
    alloc: Global,
    lines: &mut Vec<u8>,
    sources: Option<&Sources<'_>>,
    word: &[u8],
    pairs: &CowPairs<'_>,
) -> Result<(), AllocError>
    ensures { OnOk result (lines.new.items
        ≡ lines.old.items ++ lines_after (front_of (option_map (λ s. s.now) sources.entry)) (value_lines word.now pairs.now)) }
{
    for (name, value) in pairs.as_map().iter() {
        push_member_origin(
            alloc,
            lines,
            sources,
            word,
            name.as_slice(),
            value.as_slice(),
        )?;
        push_pair(alloc, lines, word, name.as_slice(), value.as_slice())?;
    }
    Ok(())
}

/// Adds a line for each label.
fn push_labels(
    alloc: Global,
    lines: &mut Vec<u8>,
    sources: Option<&Sources<'_>>,
    profile: Profile,
    labels: &[Label],
) -> Result<(), AllocError>
    ensures { OnOk result (lines.new.items
        ≡ lines.old.items ++ lines_after (front_of (option_map (λ s. s.now) sources.entry)) (label_lines profile labels.now)) }
{
    for label in labels {
        push_label_origin(alloc, lines, sources, profile, label)?;
        push_pair(alloc, lines, b"label", label.name(), label.text())?;
    }
    Ok(())
}

/// Adds the lines of properties. Mostly nothing is in front of them and nothing in them has to be escaped: if their
/// newlines are all that would have to be, they are as they were put together.
fn push_env(
    alloc: Global,
    lines: &mut Vec<u8>,
    sources: Option<&Sources<'_>>,
    pairs: &SortedPairs<'_>,
) -> Result<(), AllocError>
    ensures { OnOk result (lines.new.items ≡ lines.old.items ++ lines_after (front_of (option_map (λ s. s.now) sources.entry)) (env_lines pairs.now)) }
{
    if sources.is_some() {
        return push_each_env(alloc, lines, sources, pairs);
    }
    let before = lines.len();
    let count = push_env_as_is(lines, pairs)?;
    if escaped_count(&lines[before..]) == count {
        return Ok(());
    }
    lines.truncate(before);
    push_each_env(alloc, lines, sources, pairs)
}

/// Adds the lines of properties as they are, whatever has to be escaped, and says how many lines these are.
fn push_env_as_is(lines: &mut Vec<u8>, pairs: &SortedPairs<'_>) -> Result<usize, AllocError>
    ensures lines { OnOk result (lines.new.items ≡ lines.old.items ++ lines_as_is pairs.now) }
    ensures count { IfOk result (λ count. count ≡ shown_count pairs.now) }
{
    let mut count = 0;
    for place in 0..pairs.len() {
        let (name, value) = pairs.pair_at(place);
        count += usize::from(push_as_is(lines, name, value)?);
    }
    Ok(count)
}

/// Adds the lines of properties, each escaped where it has to be.
fn push_each_env(
    alloc: Global,
    lines: &mut Vec<u8>,
    sources: Option<&Sources<'_>>,
    pairs: &SortedPairs<'_>,
) -> Result<(), AllocError>
    ensures { OnOk result (lines.new.items ≡ lines.old.items ++ lines_after (front_of (option_map (λ s. s.now) sources.entry)) (env_lines pairs.now)) }
{
    for place in 0..pairs.len() {
        let (name, value) = pairs.pair_at(place);
        push_shown(alloc, lines, sources, name, value)?;
    }
    Ok(())
}

/// Adds the line of a property, unless its name begins with a dot.
fn push_shown(
    alloc: Global,
    lines: &mut Vec<u8>,
    sources: Option<&Sources<'_>>,
    name: &[u8],
    value: &[u8],
) -> Result<(), AllocError>
    ensures { OnOk result (lines.new.items
        ≡ lines.old.items ++ lines_after (front_of (option_map (λ s. s.now) sources.entry)) (env_lines ((name.now, value.now) ∷ []))) }
{
    if is_hidden(name) {
        return Ok(());
    }
    push_member_origin(alloc, lines, sources, b"env", name, value)?;
    push_pair(alloc, lines, b"env", name, value)
}
