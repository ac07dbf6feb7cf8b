//! What an assignment can change.
//!
//! An assignment changes the items of its key, or RUNs, and one that only adds to a list leaves its beginning as it is. So
//! what it did costs what it can have changed, and not what the scene holds.
ghost use Rattle.std.specs.Prelude.{◌≡◌, ◌++◌, drop, IfOk, OnOk, option_map};
ghost use Rattle.eval_effects.specs.Scope as scope;
ghost use Rattle.eval_effects.specs.Narrow.{found_about, found_by_text, written_by, written_item};

use crate::items::{Item, item_name, push_item, push_labels, push_links, push_node, push_tags};
use eval_assignments::written_name;
use eval_state::{MadeRun, Run, Scene, State};
use rule_types::{AssignOperator, Change, Target};
use std::alloc::{AllocError, Global};
use text_bytes::Bytes;
use text_tables::CowPairs;

/// How many links, tags and RUNs an assignment leaves as they are, from the first on.
#[derive(Clone, Copy)]
pub(crate) struct Fronts {
    links: usize,
    tags: usize,
    runs: usize,
    made: usize,
}

impl Fronts {
    /// Those that an assignment with an operator leaves; if a tag was removed, which may be set
    /// again, no tags.
    pub(crate) fn of(operator: AssignOperator, scene: &Scene<'_>) -> Fronts
        ensures { result ≡ scope.fronts operator scene.now }
    {
        match operator {
            AssignOperator::Add => Fronts {
                links: scene.state.links.as_slice().len(),
                tags: if scene.gone.as_slice().is_empty() {
                    scene.state.tags.as_slice().len()
                } else {
                    0
                },
                runs: scene.runs.as_slice().len(),
                made: scene.made.as_slice().len(),
            },
            _ => Fronts {
                links: 0,
                tags: 0,
                runs: 0,
                made: 0,
            },
        }
    }
}

/// The attribute or the kernel parameter that a change writes, if it writes one.
pub(crate) fn written_by(
    alloc: Global,
    change: &Change,
    state: &State<'_>,
) -> Result<Option<Bytes>, AllocError>
    ensures { IfOk result (λ name. name ≡ written_by change.now state.now) }
{
    match change {
        Change::Text(target, _) => written_name(alloc, target, state),
        _ => Ok(None),
    }
}

/// Adds the item of what is written, if something is and it is there.
fn push_written(
    alloc: Global,
    items: &mut Vec<Item>,
    word: &[u8],
    written: Option<&Bytes>,
    pairs: &CowPairs<'_>,
) -> Result<(), AllocError>
    ensures { OnOk result (items.new.items ≡ items.old.items ++ written_item word.now (option_map (λ n. n.now) written.entry) pairs.now) }
{
    let Some(name) = written else {
        return Ok(());
    };
    match pairs.get(name.as_slice()) {
        Some(value) => push_item(
            alloc,
            items,
            item_name(alloc, word, name.as_slice())?,
            value,
        ),
        None => Ok(()),
    }
}

/// Adds the items that a text can change that is assigned to a key, of attributes and parameters the one that is written.
fn push_by_text(
    alloc: Global,
    items: &mut Vec<Item>,
    written: &Option<Bytes>,
    target: &Target,
    fronts: Fronts,
    scene: &Scene<'_>,
) -> Result<(), AllocError>
    ensures { OnOk result (items.new.items ≡ items.old.items ++ found_by_text written.now target.now fronts scene.now) }
{
    let profile = scene.state.event.event().profile();
    match target {
        Target::Env(name) => push_written(alloc, items, b"env", Some(name), &scene.state.env),
        Target::Attr(_) => push_written(alloc, items, b"attr", written.as_ref(), &scene.attrs),
        Target::Sysctl(_) => {
            push_written(alloc, items, b"sysctl", written.as_ref(), &scene.sysctls)
        }
        Target::Seclabel(_) => push_labels(alloc, items, profile, scene.labels.as_slice()),
        Target::Symlink => push_links(alloc, items, scene, fronts.links),
        Target::Tag => push_tags(alloc, items, scene, fronts.tags),
        _ => push_node(alloc, items, scene),
    }
}

/// The items that an assignment can change, by what it writes.
pub(crate) fn items_about(
    alloc: Global,
    change: &Change,
    written: &Option<Bytes>,
    fronts: Fronts,
    scene: &Scene<'_>,
) -> Result<Vec<Item>, AllocError>
    ensures { IfOk result (λ found. found.items ≡ found_about written.now change.now fronts scene.now) }
{
    let mut found = Vec::new(alloc);
    match change {
        Change::Option(_) => push_node(alloc, &mut found, scene)?,
        Change::Text(target, _) => {
            push_by_text(alloc, &mut found, written, target, fronts, scene)?;
        }
        Change::Run(_, _) => {}
    }
    Ok(found)
}

/// What follows the first `count` of some items.
fn after<T>(items: &[T], count: usize) -> &[T]
    ensures { result.now ≡ drop count items.now }
{
    items.split_at(count.min(items.len())).1
}

/// The RUNs that an assignment can change.
pub(crate) fn runs_about<'s, 'a>(
    change: &Change,
    fronts: Fronts,
    scene: &'s Scene<'a>,
) -> &'s [Run<'a>]
    ensures { result.now ≡ scope.runs_about change.now fronts scene.now }
{
    match change {
        Change::Run(_, _) => after(scene.runs.as_slice(), fronts.runs),
        _ => &[],
    }
}

/// The RUNs that udev made and an assignment can change.
pub(crate) fn made_about<'s, 'a>(
    change: &Change,
    fronts: Fronts,
    scene: &'s Scene<'a>,
) -> &'s [MadeRun<'a>]
    ensures { result.now ≡ scope.made_about change.now fronts scene.now }
{
    match change {
        Change::Run(_, _) => after(scene.made.as_slice(), fronts.made),
        _ => &[],
    }
}
