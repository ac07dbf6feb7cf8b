//! What is there of the items that a rule can have changed.
ghost use Rattle.std.specs.Prelude.{◌≡◌, ◌++◌, ◌∷◌, [], ◌&&◌, codes, drop, flat_map, if◌then◌else◌, map, not, None, Some, OnOk, IfOk, option_map};
ghost use Rattle.text_tables.specs.Texts.{is_among};
ghost use Rattle.eval_effects.specs.Items.{item_name, items};
ghost use Rattle.eval_sources.specs.Touched as names;

use crate::found::{Found, push_bare, push_found};
use crate::node::push_node;
use crate::touched::Sizes;
use eval_assignments::written_name;
use eval_effects::{item_name, texts_after};
use eval_state::Scene;
use rule_types::{Assignment, Change, Rule, Target};
use std::alloc::{AllocError, Global};
use text_bytes::Bytes;

/// Adds a link or a tag, which has no text as its value.
fn push_member(
    alloc: Global,
    found: &mut Vec<Found>,
    word: &[u8],
    about: &[u8],
    is_there: bool,
) -> Result<(), AllocError>
    ensures { OnOk result (found.new.items ≡ found.old.items ++ (item_name word.now about.now, if is_there then Some [] else None) ∷ []) }
{
    push_bare(alloc, found, item_name(alloc, word, about)?, is_there)
}

/// Adds one of several of a word, with its value if it has one.
fn push_pair(
    alloc: Global,
    found: &mut Vec<Found>,
    word: &[u8],
    about: &[u8],
    value: Option<&[u8]>,
) -> Result<(), AllocError>
    ensures { OnOk result (found.new.items ≡ found.old.items ++ (item_name word.now about.now, option_map (λ v. v.now) value.entry) ∷ []) }
{
    let name = item_name(alloc, word, about)?;
    push_found(alloc, found, name, value)
}

/// Adds a link.
fn push_link(
    alloc: Global,
    found: &mut Vec<Found>,
    scene: &Scene<'_>,
    link: &[u8],
) -> Result<(), AllocError>
    ensures { OnOk result (found.new.items ≡ found.old.items ++ names.found (items scene.now) (item_name (codes "link") link.now ∷ [])) }
{
    push_member(
        alloc,
        found,
        b"link",
        link,
        scene.state.links.contains(link),
    )
}

/// Whether a tag was set and not removed.
fn is_tag(scene: &Scene<'_>, tag: &[u8]) -> bool
    ensures { result ≡ (is_among scene.now.state.tags tag.now && not (is_among scene.now.gone tag.now)) }
{
    scene.state.tags.contains(tag) && !scene.gone.contains(tag)
}

/// Adds a tag.
fn push_tag(
    alloc: Global,
    found: &mut Vec<Found>,
    scene: &Scene<'_>,
    tag: &[u8],
) -> Result<(), AllocError>
    ensures { OnOk result (found.new.items ≡ found.old.items ++ names.found (items scene.now) (item_name (codes "tag") tag.now ∷ [])) }
{
    push_member(alloc, found, b"tag", tag, is_tag(scene, tag))
}

/// Adds a property.
fn push_property(
    alloc: Global,
    found: &mut Vec<Found>,
    scene: &Scene<'_>,
    name: &[u8],
) -> Result<(), AllocError>
    ensures { OnOk result (found.new.items ≡ found.old.items ++ names.found (items scene.now) (item_name (codes "env") name.now ∷ [])) }
{
    push_pair(alloc, found, b"env", name, scene.state.env.get(name))
}

/// Adds an attribute.
fn push_attribute(
    alloc: Global,
    found: &mut Vec<Found>,
    scene: &Scene<'_>,
    name: &[u8],
) -> Result<(), AllocError>
    ensures { OnOk result (found.new.items ≡ found.old.items ++ names.found (items scene.now) (item_name (codes "attr") name.now ∷ [])) }
{
    push_pair(alloc, found, b"attr", name, scene.attrs.get(name))
}

/// Adds a kernel parameter.
fn push_parameter(
    alloc: Global,
    found: &mut Vec<Found>,
    scene: &Scene<'_>,
    name: &[u8],
) -> Result<(), AllocError>
    ensures { OnOk result (found.new.items ≡ found.old.items ++ names.found (items scene.now) (item_name (codes "sysctl") name.now ∷ [])) }
{
    push_pair(alloc, found, b"sysctl", name, scene.sysctls.get(name))
}

/// Adds the attribute that is written, if one is.
fn push_written_attribute(
    alloc: Global,
    found: &mut Vec<Found>,
    scene: &Scene<'_>,
    written: Option<Bytes>,
) -> Result<(), AllocError>
    ensures { OnOk result (found.new.items ≡ found.old.items ++ names.found (items scene.now) (names.written_named (codes "attr") written)) }
{
    match written {
        Some(name) => push_attribute(alloc, found, scene, name.as_slice()),
        None => Ok(()),
    }
}

/// Adds the kernel parameter that is written, if one is.
fn push_written_parameter(
    alloc: Global,
    found: &mut Vec<Found>,
    scene: &Scene<'_>,
    written: Option<Bytes>,
) -> Result<(), AllocError>
    ensures { OnOk result (found.new.items ≡ found.old.items ++ names.found (items scene.now) (names.written_named (codes "sysctl") written)) }
{
    match written {
        Some(name) => push_parameter(alloc, found, scene, name.as_slice()),
        None => Ok(()),
    }
}

/// Adds the items that a text can be assigned to.
fn push_target(
    alloc: Global,
    found: &mut Vec<Found>,
    scene: &Scene<'_>,
    target: &Target,
) -> Result<(), AllocError>
    ensures { OnOk result (found.new.items ≡ found.old.items
        ++ names.found (items scene.now) (names.named_by_text scene.now.state.event.profile scene.now.state target.now)) }
{
    match target {
        Target::Env(name) => push_property(alloc, found, scene, name.as_slice()),
        Target::Attr(_) => {
            let written = written_name(alloc, target, &scene.state)?;
            push_written_attribute(alloc, found, scene, written)
        }
        Target::Sysctl(_) => {
            let written = written_name(alloc, target, &scene.state)?;
            push_written_parameter(alloc, found, scene, written)
        }
        Target::Symlink | Target::Tag | Target::Seclabel(_) => Ok(()),
        _ => push_node(alloc, found, scene),
    }
}

/// Adds the items that an assignment can change.
fn push_named(
    alloc: Global,
    found: &mut Vec<Found>,
    scene: &Scene<'_>,
    change: &Change,
) -> Result<(), AllocError>
    ensures { OnOk result (found.new.items ≡ found.old.items
        ++ names.found (items scene.now) (names.named_by scene.now.state.event.profile scene.now.state change.now)) }
{
    match change {
        Change::Option(_) => push_node(alloc, found, scene),
        Change::Text(target, _) => push_target(alloc, found, scene, target),
        Change::Run(_, _) => Ok(()),
    }
}

/// Adds these links.
fn push_each_link(
    alloc: Global,
    found: &mut Vec<Found>,
    scene: &Scene<'_>,
    links: &[Vec<u8>],
) -> Result<(), AllocError>
    ensures { OnOk result (found.new.items ≡ found.old.items ++ names.found (items scene.now) (names.of_links (map (λ t. t.items) links.now))) }
{
    for link in links {
        push_link(alloc, found, scene, link)?;
    }
    Ok(())
}

/// Adds the links after so many.
fn push_links(
    alloc: Global,
    found: &mut Vec<Found>,
    scene: &Scene<'_>,
    count: usize,
) -> Result<(), AllocError>
    ensures { OnOk result (found.new.items ≡ found.old.items ++ names.found (items scene.now) (names.of_links (drop count scene.now.state.links))) }
{
    push_each_link(
        alloc,
        found,
        scene,
        texts_after(scene.state.links.as_slice(), count),
    )
}

/// Adds these tags.
fn push_each_tag(
    alloc: Global,
    found: &mut Vec<Found>,
    scene: &Scene<'_>,
    tags: &[Vec<u8>],
) -> Result<(), AllocError>
    ensures { OnOk result (found.new.items ≡ found.old.items ++ names.found (items scene.now) (names.of_tags (map (λ t. t.items) tags.now))) }
{
    for tag in tags {
        push_tag(alloc, found, scene, tag)?;
    }
    Ok(())
}

/// Adds the tags after so many.
fn push_tags(
    alloc: Global,
    found: &mut Vec<Found>,
    scene: &Scene<'_>,
    count: usize,
) -> Result<(), AllocError>
    ensures { OnOk result (found.new.items ≡ found.old.items ++ names.found (items scene.now) (names.of_tags (drop count scene.now.state.tags))) }
{
    push_each_tag(
        alloc,
        found,
        scene,
        texts_after(scene.state.tags.as_slice(), count),
    )
}

/// Adds the items that assignments name.
fn push_all_named(
    alloc: Global,
    found: &mut Vec<Found>,
    scene: &Scene<'_>,
    sets: &[Assignment],
) -> Result<(), AllocError>
    ensures { OnOk result (found.new.items ≡ found.old.items
        ++ names.found (items scene.now) (flat_map (λ a. names.named_by scene.now.state.event.profile scene.now.state a.change) sets.now)) }
{
    for set in sets {
        push_named(alloc, found, scene, &set.change)?;
    }
    Ok(())
}

/// What is there of the items that a rule can have changed, by what was there before it.
#[tactic(auto, unfolding(crate::specs::Touched::found_after))]
pub(crate) fn found_after(
    alloc: Global,
    rule: &Rule,
    was: Sizes,
    scene: &Scene<'_>,
) -> Result<Vec<Found>, AllocError>
    ensures { IfOk result (λ found. found.items ≡ names.found_after rule.now was scene.now) }
{
    let mut found = Vec::new(alloc);
    push_links(alloc, &mut found, scene, was.links)?;
    push_tags(alloc, &mut found, scene, was.tags)?;
    push_all_named(alloc, &mut found, scene, &rule.sets)?;
    Ok(found)
}
