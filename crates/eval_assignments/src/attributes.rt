//! The attribute that an assignment writes for udev, found by its name.
ghost use Rattle.std.specs.Prelude.{◌≡◌, ◌++◌, ◌∷◌, nat_lt, codes, length, IfOk, OnOk, OnErr};
ghost use Rattle.text_bytes.specs.Names.{slash};
ghost use Rattle.eval_assignments.specs.Attributes.{attribute_put, attribute_set, found_above};
ghost use Rattle.eval_assignments.specs.Written.{found_attribute, is_own};
ghost use Rattle.eval_rendering.specs.Bounds.{most_path_bytes};

use eval_rendering::MAX_PATH_BYTES;
use eval_state::{Chain, Named, NoteKind, Scene, starred};
use rule_types::{Key, Rule};
use std::alloc::{AllocError, Global};
use text_bytes::Bytes;

/// Assigns a value to an attribute that was found by its name; if it was not found, a note is left.
fn put_attribute(
    alloc: Global,
    rule: &Rule,
    name: &[u8],
    found: Option<Bytes>,
    value: Bytes,
    scene: &mut Scene<'_>,
) -> Result<(), AllocError>
    ensures scene { OnOk result (scene.new ≡ attribute_put rule.now name.now found value scene.old) }
    ensures refused { OnErr result (scene.new.state.event ≡ scene.old.state.event) }
{
    match found {
        Some(found) => scene.attrs.put(alloc, found.as_slice(), value),
        None => scene.note(alloc, rule, NoteKind::AttributeNotFound, name),
    }
}

/// Whether the path of an attribute of a device has more bytes than udev has room for.
fn is_path_long(path: &[u8], name: &[u8]) -> bool
    ensures { result ≡ nat_lt most_path_bytes (length (codes "/sys" ++ path.now ++ slash ∷ name.now)) }
{
    let most = MAX_PATH_BYTES - b"/sys/".len();
    path.len() > most || name.len() > most - path.len()
}

/// The attribute of the device at a place of the chain, as it is found by its name, with all that is before it there.
fn found_above(
    alloc: Global,
    chain: &Chain<'_>,
    place: usize,
    named: &Named<'_>,
    name: &[u8],
) -> Result<Option<Bytes>, AllocError>
    ensures { IfOk result (λ found. found ≡ found_above chain.now place named.now name.now) }
{
    let Some(device) = chain.device_at(place) else {
        return Ok(None);
    };
    let Some(attribute) = starred(alloc, device, named.attribute)? else {
        return Ok(None);
    };
    let before = name.len().saturating_sub(named.attribute.len());
    let mut whole = Vec::from_slice(alloc, &name[..before])?;
    whole.extend_from_slice(attribute.as_slice())?;
    Ok(Some(Bytes::new(whole)))
}

/// Whether a name is that of an attribute of the event device: it names no device of the chain.
fn is_own(event: &Chain<'_>, name: &[u8]) -> bool
    ensures { result ≡ is_own name.now event.now }
{
    match Named::read(name) {
        Some(named) => event.named_place(&named).is_none(),
        None => true,
    }
}

/// The attribute that a name leads to, as udev reports it (systemd 257): `[SUBSYSTEM/KERNEL]ATTRIBUTE` is one of the
/// device of the chain with this name, if there is one, and a component `*` with others after it means the first
/// folder that fits.
pub(crate) fn found_attribute(
    alloc: Global,
    event: &Chain<'_>,
    name: &[u8],
) -> Result<Option<Bytes>, AllocError>
    ensures { IfOk result (λ found. found ≡ found_attribute name.now event.now) }
{
    let Some(named) = Named::read(name) else {
        return starred(alloc, event.device(), name);
    };
    match event.named_place(&named) {
        None => starred(alloc, event.device(), name),
        Some(0) => starred(alloc, event.device(), named.attribute),
        Some(place) => found_above(alloc, event, place, &named, name),
    }
}

/// Assigns a value to an attribute as udev finds it. A name that fits nothing leaves a note, and so does a path of over
/// 1,023 bytes.
pub(crate) fn set_attribute(
    alloc: Global,
    rule: &Rule,
    name: &[u8],
    value: Bytes,
    scene: &mut Scene<'_>,
) -> Result<(), AllocError>
    ensures scene { OnOk result (scene.new ≡ attribute_set rule.now name.now value scene.old) }
    ensures refused { OnErr result (scene.new.state.event ≡ scene.old.state.event) }
{
    if is_own(&scene.state.event, name) && is_path_long(scene.state.event.device().path(), name) {
        return scene.note_key(alloc, rule, NoteKind::TextTooLong, Key::Attr, Some(name));
    }
    let found = found_attribute(alloc, &scene.state.event, name)?;
    put_attribute(alloc, rule, name, found, value, scene)
}
