//! Links as udev keeps them: each as the plain path below `/dev`.
ghost use Rattle.std.specs.Prelude.{◌≡◌, ◌∷◌, ◌++◌, [], codes, map, filter, IfOk, OnOk, OnErr, option_map};
ghost use Rattle.std.specs.List.{join_with_byte, list_any, slice_split};
ghost use Rattle.std.specs.Option.{option_or};
ghost use Rattle.text_bytes.specs.Names.{slash};
ghost use Rattle.text_tables.specs.Texts.{same_text};
ghost use Rattle.eval_assignments.specs.Links.{after_dev, components, first_refused, is_barred, is_between, is_step, link_noted};
ghost use Rattle.eval_assignments.specs.Links.{links_changed, listed, path_of, plain_link, plain_links, words};

use crate::lists::{change, push_name};
use eval_state::{NoteKind, Scene};
use rule_types::{AssignOperator, Rule};
use std::alloc::{AllocError, Global};
use text_bytes::{Bytes, begins_with, split_once};

/// The most bytes of a component of a link.
const MAX_COMPONENT_BYTES: usize = 255;

/// Whether a byte is between two words for udev.
fn is_between(byte: u8) -> bool
    ensures { result ≡ is_between byte }
{
    byte == b' ' || byte == b'\t' || byte == b'\n' || byte == b'\r'
}

/// The parts of a text between the bytes at which udev splits it.
fn parts(alloc: Global, text: &[u8]) -> Result<Vec<&[u8]>, AllocError>
    ensures { IfOk result (λ found. map (λ t. t.now) found.items ≡ slice_split is_between text.now) }
{
    text.split(|byte| is_between(*byte)).collect(alloc)
}

/// The words of a text as udev splits it, at spaces, tabs and the ends of lines.
#[tactic(auto, using(crate::proofs::Cutting::held_more))]
pub(crate) fn words(alloc: Global, text: &[u8]) -> Result<Vec<&[u8]>, AllocError>
    ensures { IfOk result (λ found. map (λ t. t.now) found.items ≡ words text.now) }
{
    let parts = parts(alloc, text)?;
    let mut words = Vec::new(alloc);
    for part in &parts {
        push_name(&mut words, part)?;
    }
    Ok(words)
}

/// Whether a component of a path leads somewhere: an empty one does not, and neither does `.`.
fn is_step(component: &[u8]) -> bool
    ensures { result ≡ is_step component.now }
{
    !component.is_empty() && component != b".".as_slice()
}

/// Adds a component to others, if it leads somewhere.
fn push_step<'a>(steps: &mut Vec<&'a [u8]>, component: &'a [u8]) -> Result<(), AllocError>
    ensures { OnOk result (map (λ t. t.now) steps.new.items ≡ map (λ t. t.now) steps.old.items ++ filter is_step (component.now ∷ [])) }
{
    if is_step(component) {
        steps.push(component)?;
    }
    Ok(())
}

/// The components of a path that lead somewhere.
pub(crate) fn components(alloc: Global, path: &[u8]) -> Result<Vec<&[u8]>, AllocError>
    ensures { IfOk result (λ found. map (λ t. t.now) found.items ≡ components path.now) }
{
    let mut steps = Vec::new(alloc);
    let mut rest = path;
    while let Some((component, following)) = split_once(b'/', rest) {
        push_step(&mut steps, component)?;
        rest = following;
    }
    push_step(&mut steps, rest)?;
    Ok(steps)
}

/// Whether a component may not be in a link.
fn is_barred(component: &[u8]) -> bool
    ensures { result ≡ is_barred component.now }
{
    component == b"..".as_slice() || component.len() > MAX_COMPONENT_BYTES
}

/// Whether one of several components may not be in a link.
fn any_barred(parts: &[&[u8]]) -> bool
    ensures { result ≡ list_any is_barred (map (λ t. t.now) parts.now) }
{
    for part in parts {
        if is_barred(part) {
            return true;
        }
    }
    false
}

/// Whether a component is `dev`.
fn is_dev(component: &[u8]) -> bool
    ensures { result ≡ same_text component.now (codes "dev") }
{
    component == b"dev".as_slice()
}

/// The components after `dev`, if that is the first one.
fn after_dev<'s, 'a>(components: &'s [&'a [u8]]) -> &'s [&'a [u8]]
    ensures { map (λ t. t.now) result.now ≡ after_dev (map (λ t. t.now) components.now) }
{
    let Some((first, others)) = components.split_first() else {
        return components;
    };
    if is_dev(first) {
        return others;
    }
    others.split_at(0).0
}

/// Components with a slash between each two.
#[tactic(auto, using(crate::proofs::Joining::join_more))]
pub(crate) fn joined(alloc: Global, components: &[&[u8]]) -> Result<Bytes, AllocError>
    ensures { IfOk result (λ path. path ≡ join_with_byte slash (map (λ t. t.now) components.now)) }
{
    let Some((first, others)) = components.split_first() else {
        return Ok(Bytes::new(Vec::new(alloc)));
    };
    let mut path = Vec::from_slice(alloc, first)?;
    for component in others {
        path.push(b'/')?;
        path.extend_from_slice(component)?;
    }
    Ok(Bytes::new(path))
}

/// A path of components, if there are any.
fn path_of(alloc: Global, components: &[&[u8]]) -> Result<Option<Bytes>, AllocError>
    ensures { IfOk result (λ path. path ≡ path_of (map (λ t. t.now) components.now)) }
{
    if components.is_empty() {
        return Ok(None);
    }
    Ok(Some(joined(alloc, components)?))
}

/// A link as udev keeps it: without slashes that repeat or are at an end, without `.`, and below `/dev`.
/// `None` if the path leads out of `/dev`, if a component is `..`, or if one has over 255 bytes.
fn plain_link(alloc: Global, path: &[u8]) -> Result<Option<Bytes>, AllocError>
    ensures { IfOk result (λ link. link ≡ plain_link path.now) }
{
    let parts = components(alloc, path)?;
    if any_barred(&parts) {
        return Ok(None);
    }
    if begins_with(b'/', path) {
        path_of(alloc, after_dev(&parts))
    } else {
        path_of(alloc, &parts)
    }
}

/// The outcome of words that are meant as links.
#[derive(Drop)]
struct Links<'a> {
    /// The links as they are kept.
    kept: Vec<Bytes>,
    /// The first word that is not a link.
    refused: Option<&'a [u8]>,
}

impl<'a> Links<'a> {
    /// Takes one word more.
    fn take(&mut self, alloc: Global, word: &'a [u8]) -> Result<(), AllocError>
        ensures kept { OnOk result (self.new.kept.items ≡ self.old.kept.items ++ listed (plain_link word.now)) }
        ensures refused { OnOk result (option_map (λ t. t.now) self.new.refused
            ≡ option_or (option_map (λ t. t.now) self.old.refused) (first_refused (word.now ∷ []))) }
    {
        match plain_link(alloc, word)? {
            Some(link) => self.kept.push(link)?,
            None => self.refused = self.refused.or(Some(word)),
        }
        Ok(())
    }
}

/// The links of words, and the first word that is not a link.
fn links_of<'a>(alloc: Global, words: &[&'a [u8]]) -> Result<Links<'a>, AllocError>
    ensures kept { IfOk result (λ links. links.kept.items ≡ plain_links (map (λ t. t.now) words.now)) }
    ensures refused { IfOk result (λ links. option_map (λ t. t.now) links.refused ≡ first_refused (map (λ t. t.now) words.now)) }
{
    let mut links = Links {
        kept: Vec::new(alloc),
        refused: None,
    };
    for word in words {
        links.take(alloc, word)?;
    }
    Ok(links)
}

/// Texts, borrowed.
fn borrowed(alloc: Global, texts: &[Bytes]) -> Result<Vec<&[u8]>, AllocError>
    ensures { IfOk result (λ borrowed. map (λ t. t.now) borrowed.items ≡ texts.now) }
{
    let mut borrowed = Vec::with_capacity(alloc, texts.len())?;
    for text in texts {
        borrowed.push(text.as_slice())?;
    }
    Ok(borrowed)
}

/// Leaves a note about a refused link, if there is one.
fn note_link(
    alloc: Global,
    rule: &Rule,
    refused: Option<&[u8]>,
    scene: &mut Scene<'_>,
) -> Result<(), AllocError>
    ensures scene { OnOk result (scene.new ≡ link_noted rule.now (option_map (λ t. t.now) refused.entry) scene.old) }
    ensures refused { OnErr result (scene.new ≡ scene.old) }
{
    match refused {
        Some(path) => scene.note(alloc, rule, NoteKind::LinkIgnored, path),
        None => Ok(()),
    }
}

/// Changes the links by an operator as udev does (systemd 257): each word of the text is a link, kept as its plain
/// path below `/dev`; a word that is not a link is left out, and the first of these is reported in a note.
pub(crate) fn change_udev_links(
    alloc: Global,
    rule: &Rule,
    operator: AssignOperator,
    text: &[u8],
    scene: &mut Scene<'_>,
) -> Result<(), AllocError>
    ensures scene { OnOk result (scene.new ≡ links_changed rule.now operator text.now scene.old) }
    ensures refused { OnErr result (scene.new.state.event ≡ scene.old.state.event) }
{
    let words = words(alloc, text)?;
    let links = links_of(alloc, &words)?;
    let kept = borrowed(alloc, &links.kept)?;
    change(alloc, operator, &kept, &mut scene.state.links)?;
    note_link(alloc, rule, links.refused, scene)
}
