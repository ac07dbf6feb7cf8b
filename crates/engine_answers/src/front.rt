//! What is in front of the lines of an answer: nothing, or where each item comes from.
ghost use Rattle.std.specs.Prelude.{◌≡◌, ◌++◌, OnOk, option_map};
ghost use Rattle.eval_effects.specs.Items.{item_name, label_item};
ghost use Rattle.engine_answers.specs.Answers.{source_part};
ghost use Rattle.engine_answers.specs.Inner.{front_of};

use engine_sessions::push_place;
use eval_effects::{item_name, label_item};
use eval_sources::Sources;
use eval_state::Label;
use rule_types::Rule;
use std::alloc::{AllocError, Global};
use text_bytes::Profile;

/// Adds where a line comes from.
pub(crate) fn push_source(
    alloc: Global,
    lines: &mut Vec<u8>,
    rule: Option<&Rule>,
) -> Result<(), AllocError>
    ensures { OnOk result (lines.new.items ≡ lines.old.items ++ source_part (option_map (λ r. r.now) rule.entry)) }
{
    match rule {
        Some(rule) => push_place(alloc, lines, rule.file(), rule.line),
        None => lines.extend_from_slice(b"-: "),
    }
}

/// Adds where the only item of its word comes from, by its value, if that is asked for.
pub(crate) fn push_origin(
    alloc: Global,
    lines: &mut Vec<u8>,
    sources: Option<&Sources<'_>>,
    word: &[u8],
    value: &[u8],
) -> Result<(), AllocError>
    ensures { OnOk result (lines.new.items ≡ lines.old.items ++ front_of (option_map (λ s. s.now) sources.entry) (word.now, value.now)) }
{
    match sources {
        Some(sources) => push_source(alloc, lines, sources.rule_of(word, value)),
        None => Ok(()),
    }
}

/// Adds where one of several items of its word comes from, by which of them it is and its value, if that is asked for.
pub(crate) fn push_member_origin(
    alloc: Global,
    lines: &mut Vec<u8>,
    sources: Option<&Sources<'_>>,
    word: &[u8],
    about: &[u8],
    value: &[u8],
) -> Result<(), AllocError>
    ensures { OnOk result (lines.new.items
        ≡ lines.old.items ++ front_of (option_map (λ s. s.now) sources.entry) (item_name word.now about.now, value.now)) }
{
    match sources {
        Some(sources) => {
            let name = item_name(alloc, word, about)?;
            push_source(alloc, lines, sources.rule_of(name.as_slice(), value))
        }
        None => Ok(()),
    }
}

/// Adds where the label of a module comes from, if that is asked for.
pub(crate) fn push_label_origin(
    alloc: Global,
    lines: &mut Vec<u8>,
    sources: Option<&Sources<'_>>,
    profile: Profile,
    label: &Label,
) -> Result<(), AllocError>
    ensures { OnOk result (lines.new.items
        ≡ lines.old.items ++ front_of (option_map (λ s. s.now) sources.entry) (label_item profile label.now)) }
{
    match sources {
        Some(sources) => {
            let item = label_item(alloc, profile, label)?;
            push_source(alloc, lines, sources.rule_of(item.name(), item.value()))
        }
        None => Ok(()),
    }
}
