//! How the value of an item is written: as it is, or with the rule that it comes from.
ghost use Rattle.std.specs.Prelude.{◌≡◌, ◌++◌, OnOk, option_map};
ghost use Rattle.json.specs.Tree.{json_tokens, members_tokens};
ghost use Rattle.text_json.specs.Told.{told};
ghost use Rattle.text_json.specs.Values.{members_of};
ghost use Rattle.eval_effects.specs.Items.{item_name, label_item};
ghost use Rattle.engine_answers.specs.JsonInner.{json_of, shape_of};
ghost use Rattle.engine_answers.specs.Members.{label_value, source_members, sourced};

use crate::values::write_label_value;
use eval_effects::{item_name, label_item};
use eval_sources::Sources;
use eval_state::Label;
use json::Writer;
use rule_types::Rule;
use std::alloc::{AllocError, Global};
use text_bytes::Profile;
use text_json::{write_number, write_told, write_told_value};

/// What an item has as its value.
#[derive(Clone, Copy)]
pub(crate) enum Value<'a> {
    /// A text.
    Text(&'a [u8]),
    /// A priority.
    Number(i32),
    /// Whether something is, which the word of the item says.
    Mark(bool),
    /// The label of a module.
    Label(&'a Label),
}

/// Writes a value.
fn write_value(alloc: Global, writer: &mut Writer, value: Value<'_>) -> Result<(), AllocError>
    ensures tokens { OnOk result (writer.new.tokens ≡ writer.old.tokens ++ json_tokens (json_of value.entry)) }
    ensures before { OnOk result (writer.new.before ≡ writer.old.before) }
{
    match value {
        Value::Text(text) => write_told_value(alloc, writer, text),
        Value::Number(number) => writer.i64(i64::from(number)),
        Value::Mark(is) => writer.boolean(is),
        Value::Label(label) => write_label_value(alloc, writer, label),
    }
}

/// Writes the members that say which rule something comes from, and the end of their object.
pub(crate) fn write_source(
    alloc: Global,
    writer: &mut Writer,
    rule: Option<&Rule>,
) -> Result<(), AllocError>
    ensures tokens { OnOk result (writer.new.tokens ≡ writer.old.tokens
        ++ members_tokens (members_of (source_members (option_map (λ r. r.now) rule.entry)))) }
    ensures before { OnOk result (writer.new.before ≡ writer.old.before) }
{
    match rule {
        Some(rule) => {
            write_told(alloc, writer, "file", rule.file())?;
            write_number(writer, "line", rule.line)?;
            writer.end_object()
        }
        None => writer.end_object(),
    }
}

/// Writes a value with the rule that it comes from.
#[tactic(auto, unfolding(crate::specs::Members::sourced))]
fn write_sourced_value(
    alloc: Global,
    writer: &mut Writer,
    rule: Option<&Rule>,
    value: Value<'_>,
) -> Result<(), AllocError>
    ensures tokens { OnOk result (writer.new.tokens ≡ writer.old.tokens
        ++ json_tokens (sourced (option_map (λ r. r.now) rule.entry) (json_of value.entry))) }
    ensures before { OnOk result (writer.new.before ≡ writer.old.before) }
{
    writer.begin_object()?;
    writer.key("value")?;
    write_value(alloc, writer, value)?;
    write_source(alloc, writer, rule)
}

/// Writes the value of the only item of its word, with the rule that it comes from if that is asked for. `text` is the value as the
/// item has it.
pub(crate) fn write_only(
    alloc: Global,
    writer: &mut Writer,
    sources: Option<&Sources<'_>>,
    word: &[u8],
    text: &[u8],
    value: Value<'_>,
) -> Result<(), AllocError>
    ensures tokens { OnOk result (writer.new.tokens ≡ writer.old.tokens
        ++ json_tokens (shape_of (option_map (λ s. s.now) sources.entry) (word.now, text.now) (json_of value.entry))) }
    ensures before { OnOk result (writer.new.before ≡ writer.old.before) }
{
    match sources {
        Some(sources) => { write_sourced_value(alloc, writer, sources.rule_of(word, text), value) }
        None => write_value(alloc, writer, value),
    }
}

/// Writes the text of one of several items of its word, by which of them it is and by its value.
pub(crate) fn write_member(
    alloc: Global,
    writer: &mut Writer,
    sources: Option<&Sources<'_>>,
    word: &[u8],
    about: &[u8],
    value: &[u8],
    text: &[u8],
) -> Result<(), AllocError>
    ensures tokens { OnOk result (writer.new.tokens ≡ writer.old.tokens
        ++ json_tokens (shape_of (option_map (λ s. s.now) sources.entry) (item_name word.now about.now, value.now) (told text.now))) }
    ensures before { OnOk result (writer.new.before ≡ writer.old.before) }
{
    match sources {
        Some(sources) => {
            let name = item_name(alloc, word, about)?;
            let rule = sources.rule_of(name.as_slice(), value);
            write_sourced_value(alloc, writer, rule, Value::Text(text))
        }
        None => write_told_value(alloc, writer, text),
    }
}

/// Writes the label of a module.
pub(crate) fn write_label(
    alloc: Global,
    writer: &mut Writer,
    sources: Option<&Sources<'_>>,
    profile: Profile,
    label: &Label,
) -> Result<(), AllocError>
    ensures tokens { OnOk result (writer.new.tokens ≡ writer.old.tokens
        ++ json_tokens (shape_of (option_map (λ s. s.now) sources.entry) (label_item profile label.now) (label_value label.now))) }
    ensures before { OnOk result (writer.new.before ≡ writer.old.before) }
{
    match sources {
        Some(sources) => {
            let item = label_item(alloc, profile, label)?;
            let rule = sources.rule_of(item.name(), item.value());
            write_sourced_value(alloc, writer, rule, Value::Label(label))
        }
        None => write_label_value(alloc, writer, label),
    }
}
