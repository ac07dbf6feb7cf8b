//! What is in a scene, as items.
ghost use Rattle.std.specs.Prelude.{◌≡◌, ◌++◌, ◌∷◌, [], codes, drop, flat_map, map, IfOk, OnOk};
ghost use Rattle.eval_state.specs.Texts.{filled};
ghost use Rattle.eval_assignments.specs.Lists.{without_texts};
ghost use Rattle.eval_effects.specs.Inner.{tag_item};
ghost use Rattle.eval_effects.specs.Items.{given_item, item_name, items, label_item, label_items, node_items, pair_items};
ghost use Rattle.eval_effects.specs.Items.{persist_item, priority_item, text_items, watch_item, watch_word};

use eval_state::{Label, Scene};
use itoa::Buffer;
use std::alloc::{AllocError, Global};
use std::marker::Model;
use text_bytes::{Bytes, Profile};
use text_tables::{CowPairs, OwnedTexts};

/// Something in a scene. Its name is the first word of its line, followed by what it is about if several items have
/// that word.
#[derive(Drop)]
pub struct Item {
    name: Bytes,
    value: Bytes,
}

impl Model for Item {
    ghost use Rattle.text_tables.specs.Pairs.{Pair};

    ghost Value = { Pair };

    ghost view = { λ i. (i.name, i.value) };
}

impl Item {
    /// Returns its name.
    pub fn name(&self) -> &[u8]
        ensures { result.now ≡ self.now.0 }
    {
        self.name.as_slice()
    }

    /// Returns its value; empty if the name says all.
    pub fn value(&self) -> &[u8]
        ensures { result.now ≡ self.now.1 }
    {
        self.value.as_slice()
    }

    /// Returns its name and its value.
    pub fn into_parts(self) -> (Bytes, Bytes)
        ensures { result ≡ self }
    {
        let Item { name, value } = self;
        (name, value)
    }
}

/// The name of an item that is one of several of its word: the word, a space, and which of them it is.
pub fn item_name(alloc: Global, word: &[u8], about: &[u8]) -> Result<Bytes, AllocError>
    ensures { IfOk result (λ name. name ≡ item_name word.now about.now) }
{
    let mut name = Vec::from_slice(alloc, word)?;
    name.push(b' ')?;
    name.extend_from_slice(about)?;
    Ok(Bytes::new(name))
}

/// Adds an item.
pub(crate) fn push_item(
    alloc: Global,
    items: &mut Vec<Item>,
    name: Bytes,
    value: &[u8],
) -> Result<(), AllocError>
    ensures { OnOk result (items.new.items ≡ items.old.items ++ (name, value.now) ∷ []) }
{
    let value = Bytes::copy_of(alloc, value)?;
    items.push(Item { name, value })?;
    Ok(())
}

/// Adds an item whose name is its word alone.
fn push_word(
    alloc: Global,
    items: &mut Vec<Item>,
    word: &[u8],
    value: &[u8],
) -> Result<(), AllocError>
    ensures { OnOk result (items.new.items ≡ items.old.items ++ (word.now, value.now) ∷ []) }
{
    push_item(alloc, items, Bytes::copy_of(alloc, word)?, value)
}

/// Adds a text as an item, if there is one.
fn push_given(
    alloc: Global,
    items: &mut Vec<Item>,
    word: &[u8],
    text: &Option<Bytes>,
) -> Result<(), AllocError>
    ensures { OnOk result (items.new.items ≡ items.old.items ++ given_item word.now text.now) }
{
    match text {
        Some(text) => push_word(alloc, items, word, text.as_slice()),
        None => Ok(()),
    }
}

/// What follows the first `count` of some texts: nothing if there are no more than these.
pub fn texts_after(texts: &[Vec<u8>], count: usize) -> &[Vec<u8>]
    ensures { result.now ≡ drop count texts.now }
{
    texts.split_at(count.min(texts.len())).1
}

/// Adds texts as items.
fn push_texts(
    alloc: Global,
    items: &mut Vec<Item>,
    word: &[u8],
    texts: &[Vec<u8>],
) -> Result<(), AllocError>
    ensures { OnOk result (items.new.items ≡ items.old.items ++ text_items word.now (map (λ t. t.items) texts.now)) }
{
    for text in texts {
        push_item(alloc, items, item_name(alloc, word, text)?, b"")?;
    }
    Ok(())
}

/// Adds the links after so many.
pub(crate) fn push_links(
    alloc: Global,
    items: &mut Vec<Item>,
    scene: &Scene<'_>,
    count: usize,
) -> Result<(), AllocError>
    ensures { OnOk result (items.new.items ≡ items.old.items ++ text_items (codes "link") (drop count scene.now.state.links)) }
{
    let links = texts_after(scene.state.links.as_slice(), count);
    push_texts(alloc, items, b"link", links)
}

/// Adds a tag, unless it was removed.
fn push_tag(
    alloc: Global,
    items: &mut Vec<Item>,
    gone: &OwnedTexts,
    tag: &[u8],
) -> Result<(), AllocError>
    ensures { OnOk result (items.new.items ≡ items.old.items ++ tag_item gone.now tag.now) }
{
    if !gone.contains(tag) {
        push_item(alloc, items, item_name(alloc, b"tag", tag)?, b"")?;
    }
    Ok(())
}

/// Adds those of some tags that were not removed.
fn push_each_tag(
    alloc: Global,
    items: &mut Vec<Item>,
    gone: &OwnedTexts,
    tags: &[Vec<u8>],
) -> Result<(), AllocError>
    ensures { OnOk result (items.new.items ≡ items.old.items ++ flat_map (tag_item gone.now) (map (λ t. t.items) tags.now)) }
{
    for tag in tags {
        push_tag(alloc, items, gone, tag)?;
    }
    Ok(())
}

/// Adds the tags after so many, but for those that were removed.
pub(crate) fn push_tags(
    alloc: Global,
    items: &mut Vec<Item>,
    scene: &Scene<'_>,
    count: usize,
) -> Result<(), AllocError>
    ensures { OnOk result (items.new.items
        ≡ items.old.items ++ text_items (codes "tag") (without_texts (drop count scene.now.state.tags) scene.now.gone)) }
{
    let tags = texts_after(scene.state.tags.as_slice(), count);
    push_each_tag(alloc, items, &scene.gone, tags)
}

/// Adds names with their values as items.
fn push_pairs(
    alloc: Global,
    items: &mut Vec<Item>,
    word: &[u8],
    pairs: &CowPairs<'_>,
) -> Result<(), AllocError>
    ensures { OnOk result (items.new.items ≡ items.old.items ++ pair_items word.now pairs.now) }
{
    for (name, value) in pairs.as_map().iter() {
        push_item(
            alloc,
            items,
            item_name(alloc, word, name.as_slice())?,
            value.as_slice(),
        )?;
    }
    Ok(())
}

/// The label of a module as an item: by the manual its module has no other one, for udev the label itself is a part
/// of the name.
pub fn label_item(alloc: Global, profile: Profile, label: &Label) -> Result<Item, AllocError>
    ensures { IfOk result (λ item. item ≡ label_item profile label.now) }
{
    match profile {
        Profile::Manual => Ok(Item {
            name: item_name(alloc, b"label", label.name())?,
            value: Bytes::copy_of(alloc, label.text())?,
        }),
        Profile::Udev => {
            let mut text = Vec::from_slice(alloc, label.name())?;
            text.push(b'=')?;
            text.extend_from_slice(label.text())?;
            Ok(Item {
                name: item_name(alloc, b"label", &text)?,
                value: Bytes::copy_of(alloc, b"")?,
            })
        }
    }
}

/// Adds labels as items.
pub(crate) fn push_labels(
    alloc: Global,
    items: &mut Vec<Item>,
    profile: Profile,
    labels: &[Label],
) -> Result<(), AllocError>
    ensures { OnOk result (items.new.items ≡ items.old.items ++ label_items profile labels.now) }
{
    for label in labels {
        items.push(label_item(alloc, profile, label)?)?;
    }
    Ok(())
}

/// Adds the name of a device, if one was assigned that is not empty.
fn push_name(alloc: Global, items: &mut Vec<Item>, name: &Option<Bytes>) -> Result<(), AllocError>
    ensures { OnOk result (items.new.items ≡ items.old.items ++ given_item (codes "name") (filled name.now)) }
{
    match name {
        Some(name) => {
            if name.as_slice().is_empty() {
                return Ok(());
            }
            push_word(alloc, items, b"name", name.as_slice())
        }
        None => Ok(()),
    }
}

/// Adds a priority, if one was assigned.
fn push_priority(
    alloc: Global,
    items: &mut Vec<Item>,
    priority: Option<i32>,
) -> Result<(), AllocError>
    ensures { OnOk result (items.new.items ≡ items.old.items ++ priority_item priority) }
{
    let Some(priority) = priority else {
        return Ok(());
    };
    push_word(
        alloc,
        items,
        b"priority",
        Buffer::new().format(priority).as_bytes(),
    )
}

/// The word for watching or not, by which the item is named.
pub fn watch_word(watched: bool) -> &'static [u8]
    ensures { result.now ≡ watch_word watched }
{
    if watched { b"watch" } else { b"nowatch" }
}

/// Adds the word for watching or not, if it was assigned.
fn push_watch(alloc: Global, items: &mut Vec<Item>, watch: Option<bool>) -> Result<(), AllocError>
    ensures { OnOk result (items.new.items ≡ items.old.items ++ watch_item watch) }
{
    match watch {
        Some(watched) => push_word(alloc, items, watch_word(watched), b""),
        None => Ok(()),
    }
}

/// Adds that what is known about the device stays, if it does.
fn push_persist(alloc: Global, items: &mut Vec<Item>, persist: bool) -> Result<(), AllocError>
    ensures { OnOk result (items.new.items ≡ items.old.items ++ persist_item persist) }
{
    if persist {
        push_word(alloc, items, b"persist", b"")?;
    }
    Ok(())
}

/// Adds the items of the device's node.
#[tactic(auto, unfolding(crate::specs::Items::node_items))]
pub(crate) fn push_node(
    alloc: Global,
    items: &mut Vec<Item>,
    scene: &Scene<'_>,
) -> Result<(), AllocError>
    ensures { OnOk result (items.new.items ≡ items.old.items ++ node_items scene.now) }
{
    push_name(alloc, items, &scene.state.name)?;
    push_given(alloc, items, b"owner", &scene.owner)?;
    push_given(alloc, items, b"group", &scene.group)?;
    push_given(alloc, items, b"mode", &scene.mode)?;
    push_priority(alloc, items, scene.priority)?;
    push_watch(alloc, items, scene.watch)?;
    push_persist(alloc, items, scene.persist)?;
    Ok(())
}

/// All items of a scene.
#[tactic(auto, unfolding(crate::specs::Items::items))]
pub fn items_of(alloc: Global, scene: &Scene<'_>) -> Result<Vec<Item>, AllocError>
    ensures { IfOk result (λ found. found.items ≡ items scene.now) }
{
    let mut found = Vec::new(alloc);
    push_node(alloc, &mut found, scene)?;
    let profile = scene.state.event.event().profile();
    push_labels(alloc, &mut found, profile, scene.labels.as_slice())?;
    push_links(alloc, &mut found, scene, 0)?;
    push_tags(alloc, &mut found, scene, 0)?;
    push_pairs(alloc, &mut found, b"env", &scene.state.env)?;
    push_pairs(alloc, &mut found, b"attr", &scene.attrs)?;
    push_pairs(alloc, &mut found, b"sysctl", &scene.sysctls)?;
    Ok(found)
}
