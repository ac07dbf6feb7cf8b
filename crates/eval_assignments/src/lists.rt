//! Lists that assignments change: the tags and the links.
ghost use Rattle.std.specs.Prelude.{◌≡◌, ◌++◌, ◌∷◌, [], map, OnOk, IfOk};
ghost use Rattle.text_tables.specs.Texts.{with_texts};
ghost use Rattle.eval_assignments.specs.Lists.{changed, link_names, not_empty, one_tag, without_texts};

use rule_types::AssignOperator;
use std::alloc::{AllocError, Global};
use text_bytes::split_once;
use text_tables::OwnedTexts;

/// Adds each of these texts.
fn add_each(alloc: Global, texts: &mut OwnedTexts, more: &[&[u8]]) -> Result<(), AllocError>
    ensures { OnOk result (texts.new ≡ with_texts texts.old (map (λ t. t.now) more.now)) }
{
    for text in more {
        texts.add(alloc, text)?;
    }
    Ok(())
}

/// Removes each of these texts.
fn remove_each(texts: &mut OwnedTexts, gone: &[&[u8]])
    ensures { texts.new ≡ without_texts texts.old (map (λ t. t.now) gone.now) }
{
    for text in gone {
        texts.remove(text);
    }
}

/// Changes texts by an operator.
pub(crate) fn change(
    alloc: Global,
    operator: AssignOperator,
    given: &[&[u8]],
    texts: &mut OwnedTexts,
) -> Result<(), AllocError>
    ensures { OnOk result (texts.new ≡ changed operator (map (λ t. t.now) given.now) texts.old) }
{
    match operator {
        AssignOperator::Assign | AssignOperator::AssignFinal => {
            texts.clear();
            add_each(alloc, texts, given)
        }
        AssignOperator::Add => add_each(alloc, texts, given),
        AssignOperator::Remove => {
            remove_each(texts, given);
            Ok(())
        }
    }
}

/// Changes tags by an operator; a text is one tag, an empty text no tag.
pub(crate) fn change_tags(
    alloc: Global,
    operator: AssignOperator,
    text: &[u8],
    tags: &mut OwnedTexts,
) -> Result<(), AllocError>
    ensures { OnOk result (tags.new ≡ changed operator (one_tag text.now) tags.old) }
{
    if text.is_empty() {
        change(alloc, operator, &[], tags)
    } else {
        change(alloc, operator, &[text], tags)
    }
}

/// Adds a name to others, unless it is empty.
pub(crate) fn push_name<'a>(names: &mut Vec<&'a [u8]>, name: &'a [u8]) -> Result<(), AllocError>
    ensures { OnOk result (map (λ t. t.now) names.new.items ≡ map (λ t. t.now) names.old.items ++ not_empty (name.now ∷ [])) }
{
    if !name.is_empty() {
        names.push(name)?;
    }
    Ok(())
}

/// The names in a text, with spaces between them.
fn link_names(alloc: Global, text: &[u8]) -> Result<Vec<&[u8]>, AllocError>
    ensures { IfOk result (λ found. map (λ t. t.now) found.items ≡ link_names text.now) }
{
    let mut names = Vec::new(alloc);
    let mut rest = text;
    while let Some((prefix, following)) = split_once(b' ', rest) {
        push_name(&mut names, prefix)?;
        rest = following;
    }
    push_name(&mut names, rest)?;
    Ok(names)
}

/// Changes links by an operator; the text holds their names, with spaces between them.
pub(crate) fn change_links(
    alloc: Global,
    operator: AssignOperator,
    text: &[u8],
    links: &mut OwnedTexts,
) -> Result<(), AllocError>
    ensures { OnOk result (links.new ≡ changed operator (link_names text.now) links.old) }
{
    let names = link_names(alloc, text)?;
    change(alloc, operator, &names, links)
}
