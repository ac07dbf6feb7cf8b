//! The members about the items of an outcome.
ghost use Rattle.std.specs.Prelude.{◌≡◌, ◌++◌, ◌∷◌, [], codes, OnOk, option_map};
ghost use Rattle.text_json.specs.Listed.{member_tokens, value_tokens};
ghost use Rattle.text_json.specs.Values.{array_of, object_of};
ghost use Rattle.engine_answers.specs.JsonInner.{shape_of};
ghost use Rattle.engine_answers.specs.Members.{env_members, given_members, item_members, label_values, node_members};
ghost use Rattle.engine_answers.specs.Members.{persist_members, priority_members, text_values, value_members, watch_members};

use crate::lines::is_hidden;
use crate::shape::{Value, write_label, write_member, write_only};
use eval_effects::watch_word;
use eval_rules::Outcome;
use eval_sources::Sources;
use eval_state::Label;
use itoa::Buffer;
use json::Writer;
use std::alloc::{AllocError, Global};
use text_bytes::{Bytes, Profile};
use text_json::write_told_key;
use text_tables::{CowPairs, OwnedTexts, SortedPairs};

/// Writes the text that is the only one of its word, if there is one.
fn write_given(
    alloc: Global,
    writer: &mut Writer,
    sources: Option<&Sources<'_>>,
    word: &str,
    text: &Option<Bytes>,
) -> Result<(), AllocError>
    ensures tokens { OnOk result (writer.new.tokens ≡ writer.old.tokens
        ++ member_tokens (given_members (shape_of (option_map (λ s. s.now) sources.entry)) word.now text.now)) }
    ensures before { OnOk result (writer.new.before ≡ writer.old.before) }
{
    let Some(text) = text else {
        return Ok(());
    };
    writer.key(word)?;
    write_only(
        alloc,
        writer,
        sources,
        word.as_bytes(),
        text.as_slice(),
        Value::Text(text.as_slice()),
    )
}

/// Writes the priority, if one was assigned.
fn write_priority(
    alloc: Global,
    writer: &mut Writer,
    sources: Option<&Sources<'_>>,
    priority: Option<i32>,
) -> Result<(), AllocError>
    ensures tokens { OnOk result (writer.new.tokens ≡ writer.old.tokens
        ++ member_tokens (priority_members (shape_of (option_map (λ s. s.now) sources.entry)) priority)) }
    ensures before { OnOk result (writer.new.before ≡ writer.old.before) }
{
    let Some(priority) = priority else {
        return Ok(());
    };
    writer.key("priority")?;
    let mut buffer = Buffer::new();
    let text = buffer.format(priority).as_bytes();
    write_only(
        alloc,
        writer,
        sources,
        b"priority",
        text,
        Value::Number(priority),
    )
}

/// Writes whether the device is watched, if it was assigned.
fn write_watch(
    alloc: Global,
    writer: &mut Writer,
    sources: Option<&Sources<'_>>,
    watch: Option<bool>,
) -> Result<(), AllocError>
    ensures tokens { OnOk result (writer.new.tokens ≡ writer.old.tokens
        ++ member_tokens (watch_members (shape_of (option_map (λ s. s.now) sources.entry)) watch)) }
    ensures before { OnOk result (writer.new.before ≡ writer.old.before) }
{
    let Some(watched) = watch else {
        return Ok(());
    };
    writer.key("watch")?;
    write_only(
        alloc,
        writer,
        sources,
        watch_word(watched),
        b"",
        Value::Mark(watched),
    )
}

/// Writes that what is known stays in the database, if it does.
fn write_persist(
    alloc: Global,
    writer: &mut Writer,
    sources: Option<&Sources<'_>>,
    persist: bool,
) -> Result<(), AllocError>
    ensures tokens { OnOk result (writer.new.tokens ≡ writer.old.tokens
        ++ member_tokens (persist_members (shape_of (option_map (λ s. s.now) sources.entry)) persist)) }
    ensures before { OnOk result (writer.new.before ≡ writer.old.before) }
{
    if !persist {
        return Ok(());
    }
    writer.key("persist")?;
    write_only(alloc, writer, sources, b"persist", b"", Value::Mark(true))
}

/// Writes the members on the device's node.
#[tactic(auto, unfolding(crate::specs::Members::node_members))]
fn write_node(
    alloc: Global,
    writer: &mut Writer,
    sources: Option<&Sources<'_>>,
    outcome: &Outcome<'_>,
) -> Result<(), AllocError>
    ensures tokens { OnOk result (writer.new.tokens ≡ writer.old.tokens
        ++ member_tokens (node_members (shape_of (option_map (λ s. s.now) sources.entry)) outcome.now)) }
    ensures before { OnOk result (writer.new.before ≡ writer.old.before) }
{
    write_given(alloc, writer, sources, "name", &outcome.name)?;
    write_given(alloc, writer, sources, "owner", &outcome.owner)?;
    write_given(alloc, writer, sources, "group", &outcome.group)?;
    write_given(alloc, writer, sources, "mode", &outcome.mode)?;
    write_priority(alloc, writer, sources, outcome.priority)?;
    write_watch(alloc, writer, sources, outcome.watch)?;
    write_persist(alloc, writer, sources, outcome.persist)?;
    Ok(())
}

/// Writes texts one after another.
fn write_each_text(
    alloc: Global,
    writer: &mut Writer,
    sources: Option<&Sources<'_>>,
    word: &[u8],
    texts: &OwnedTexts,
) -> Result<(), AllocError>
    ensures tokens { OnOk result (writer.new.tokens ≡ writer.old.tokens
        ++ value_tokens (text_values (shape_of (option_map (λ s. s.now) sources.entry)) word.now texts.now)) }
    ensures before { OnOk result (writer.new.before ≡ writer.old.before) }
{
    for text in texts.as_slice() {
        write_member(alloc, writer, sources, word, text, b"", text)?;
    }
    Ok(())
}

/// Writes a member that is an array of texts.
fn write_texts(
    alloc: Global,
    writer: &mut Writer,
    sources: Option<&Sources<'_>>,
    key: &str,
    word: &[u8],
    texts: &OwnedTexts,
) -> Result<(), AllocError>
    ensures tokens { OnOk result (writer.new.tokens ≡ writer.old.tokens
        ++ member_tokens ((key.now, array_of (text_values (shape_of (option_map (λ s. s.now) sources.entry)) word.now texts.now)) ∷ [])) }
    ensures before { OnOk result (writer.new.before ≡ writer.old.before) }
{
    writer.key(key)?;
    writer.begin_array()?;
    write_each_text(alloc, writer, sources, word, texts)?;
    writer.end_array()?;
    Ok(())
}

/// Writes labels one after another.
fn write_each_label(
    alloc: Global,
    writer: &mut Writer,
    sources: Option<&Sources<'_>>,
    profile: Profile,
    labels: &[Label],
) -> Result<(), AllocError>
    ensures tokens { OnOk result (writer.new.tokens ≡ writer.old.tokens
        ++ value_tokens (label_values (shape_of (option_map (λ s. s.now) sources.entry)) profile labels.now)) }
    ensures before { OnOk result (writer.new.before ≡ writer.old.before) }
{
    for label in labels {
        write_label(alloc, writer, sources, profile, label)?;
    }
    Ok(())
}

/// Writes the member with the labels of modules.
fn write_labels(
    alloc: Global,
    writer: &mut Writer,
    sources: Option<&Sources<'_>>,
    profile: Profile,
    labels: &[Label],
) -> Result<(), AllocError>
    ensures tokens { OnOk result (writer.new.tokens ≡ writer.old.tokens
        ++ member_tokens ((codes "labels", array_of (label_values (shape_of (option_map (λ s. s.now) sources.entry)) profile labels.now)) ∷ [])) }
    ensures before { OnOk result (writer.new.before ≡ writer.old.before) }
{
    writer.key("labels")?;
    writer.begin_array()?;
    write_each_label(alloc, writer, sources, profile, labels)?;
    writer.end_array()?;
    Ok(())
}

/// Writes a name with its value.
fn write_pair(
    alloc: Global,
    writer: &mut Writer,
    sources: Option<&Sources<'_>>,
    word: &[u8],
    name: &[u8],
    value: &[u8],
) -> Result<(), AllocError>
    ensures tokens { OnOk result (writer.new.tokens ≡ writer.old.tokens
        ++ member_tokens (value_members (shape_of (option_map (λ s. s.now) sources.entry)) word.now ((name.now, value.now) ∷ []))) }
    ensures before { OnOk result (writer.new.before ≡ writer.old.before) }
{
    write_told_key(alloc, writer, name)?;
    write_member(alloc, writer, sources, word, name, value, value)
}

/// Writes names with their values one after another.
fn write_each_value(
    alloc: Global,
    writer: &mut Writer,
    sources: Option<&Sources<'_>>,
    word: &[u8],
    pairs: &CowPairs<'_>,
) -> Result<(), AllocError>
    ensures tokens { OnOk result (writer.new.tokens ≡ writer.old.tokens
        ++ member_tokens (value_members (shape_of (option_map (λ s. s.now) sources.entry)) word.now pairs.now)) }
    ensures before { OnOk result (writer.new.before ≡ writer.old.before) }
{
    for (name, value) in pairs.as_map().iter() {
        write_pair(
            alloc,
            writer,
            sources,
            word,
            name.as_slice(),
            value.as_slice(),
        )?;
    }
    Ok(())
}

/// Writes a member that is an object of names with their values.
fn write_values(
    alloc: Global,
    writer: &mut Writer,
    sources: Option<&Sources<'_>>,
    key: &str,
    word: &[u8],
    pairs: &CowPairs<'_>,
) -> Result<(), AllocError>
    ensures tokens { OnOk result (writer.new.tokens ≡ writer.old.tokens
        ++ member_tokens ((key.now, object_of (value_members (shape_of (option_map (λ s. s.now) sources.entry)) word.now pairs.now)) ∷ [])) }
    ensures before { OnOk result (writer.new.before ≡ writer.old.before) }
{
    writer.key(key)?;
    writer.begin_object()?;
    write_each_value(alloc, writer, sources, word, pairs)?;
    writer.end_object()?;
    Ok(())
}

/// Writes a property, unless its name begins with a dot.
fn write_shown(
    alloc: Global,
    writer: &mut Writer,
    sources: Option<&Sources<'_>>,
    name: &[u8],
    value: &[u8],
) -> Result<(), AllocError>
    ensures tokens { OnOk result (writer.new.tokens ≡ writer.old.tokens
        ++ member_tokens (env_members (shape_of (option_map (λ s. s.now) sources.entry)) ((name.now, value.now) ∷ []))) }
    ensures before { OnOk result (writer.new.before ≡ writer.old.before) }
{
    if is_hidden(name) {
        return Ok(());
    }
    write_pair(alloc, writer, sources, b"env", name, value)
}

/// Writes properties one after another.
fn write_each_env(
    alloc: Global,
    writer: &mut Writer,
    sources: Option<&Sources<'_>>,
    pairs: &SortedPairs<'_>,
) -> Result<(), AllocError>
    ensures tokens { OnOk result (writer.new.tokens ≡ writer.old.tokens
        ++ member_tokens (env_members (shape_of (option_map (λ s. s.now) sources.entry)) pairs.now)) }
    ensures before { OnOk result (writer.new.before ≡ writer.old.before) }
{
    for place in 0..pairs.len() {
        let (name, value) = pairs.pair_at(place);
        write_shown(alloc, writer, sources, name, value)?;
    }
    Ok(())
}

/// Writes the member with the properties.
fn write_env(
    alloc: Global,
    writer: &mut Writer,
    sources: Option<&Sources<'_>>,
    pairs: &SortedPairs<'_>,
) -> Result<(), AllocError>
    ensures tokens { OnOk result (writer.new.tokens ≡ writer.old.tokens
        ++ member_tokens ((codes "env", object_of (env_members (shape_of (option_map (λ s. s.now) sources.entry)) pairs.now)) ∷ [])) }
    ensures before { OnOk result (writer.new.before ≡ writer.old.before) }
{
    writer.key("env")?;
    writer.begin_object()?;
    write_each_env(alloc, writer, sources, pairs)?;
    writer.end_object()?;
    Ok(())
}

/// Writes the members about all items of an outcome.
#[tactic(auto, unfolding(crate::specs::Members::item_members))]
pub(crate) fn write_items(
    alloc: Global,
    writer: &mut Writer,
    sources: Option<&Sources<'_>>,
    profile: Profile,
    outcome: &Outcome<'_>,
) -> Result<(), AllocError>
    ensures tokens { OnOk result (writer.new.tokens ≡ writer.old.tokens
        ++ member_tokens (item_members (shape_of (option_map (λ s. s.now) sources.entry)) profile outcome.now)) }
    ensures before { OnOk result (writer.new.before ≡ writer.old.before) }
{
    write_node(alloc, writer, sources, outcome)?;
    write_labels(alloc, writer, sources, profile, outcome.labels.as_slice())?;
    write_texts(alloc, writer, sources, "links", b"link", &outcome.links)?;
    write_texts(alloc, writer, sources, "tags", b"tag", &outcome.tags)?;
    write_env(alloc, writer, sources, &outcome.env)?;
    write_values(alloc, writer, sources, "attr", b"attr", &outcome.attrs)?;
    write_values(
        alloc,
        writer,
        sources,
        "sysctl",
        b"sysctl",
        &outcome.sysctls,
    )?;
    Ok(())
}
