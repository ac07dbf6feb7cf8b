//! TEST and PROGRAM: what the event answers.
ghost use Rattle.std.specs.Prelude.{◌≡◌, [], IfOk, OnErr, option_copied, option_map};
ghost use Rattle.eval_acts.specs.Questions.{answered, answered_by_block, is_behind, is_found, is_somewhere, result_of, tested, tested_at};
ghost use Rattle.eval_acts.specs.Questions.{tested_by, tested_by_udev, tested_elsewhere, tested_here, with_result};
ghost use Rattle.eval_state.specs.Named.{named};
ghost use Rattle.eval_state.specs.Places.{is_there, place_of};

use device_core::{Device, Event, ProgramAnswer};
use eval_rendering::{attribute_safe, is_not_read, linked_device};
use eval_state::{Chain, Named, NoteKind, Place, Scene};
use rule_types::Rule;
use std::alloc::{AllocError, Global};
use text_bytes::{Bytes, Profile, begins_with, following};

/// Whether something is where a name leads in the folder of a device.
fn leads_somewhere<'a>(
    alloc: Global,
    event: &Event<'_>,
    device: &Device<'a>,
    name: &'a [u8],
) -> Result<bool, AllocError>
    ensures { IfOk result (λ found. found ≡ is_there event.now (place_of device.now name.now)) }
{
    let place = Place::of(alloc, device, name)?;
    place.is_there(alloc, event)
}

/// Whether there is a device, and something is where a name leads in its folder.
fn is_found<'a>(
    alloc: Global,
    event: &Event<'_>,
    device: Option<&Device<'a>>,
    name: &'a [u8],
) -> Result<bool, AllocError>
    ensures { IfOk result (λ found. found ≡ is_found event.now name.now (option_copied device.entry)) }
{
    match device {
        Some(device) => leads_somewhere(alloc, event, device, name),
        None => Ok(false),
    }
}

/// TEST of a path that names a device that is not in the chain, which is not made unless the event device has it under
/// this whole path.
fn look_elsewhere(
    alloc: Global,
    rule: &Rule,
    path: &[u8],
    scene: &mut Scene<'_>,
) -> Result<bool, AllocError>
    ensures scene { IfOk result (λ done. (scene.new, done) ≡ tested_elsewhere rule.now path.now scene.old) }
    ensures refused { OnErr result (scene.new.state.event ≡ scene.old.state.event) }
{
    let event = scene.state.event.event();
    if leads_somewhere(alloc, event, event.device(), path)? {
        return Ok(true);
    }
    scene.note(alloc, rule, NoteKind::TestNotMade, path)?;
    Ok(false)
}

/// TEST of a file of the device at a place of the chain, if the device is there.
fn look_at(
    alloc: Global,
    rule: &Rule,
    place: Option<usize>,
    name: &[u8],
    path: &[u8],
    scene: &mut Scene<'_>,
) -> Result<bool, AllocError>
    ensures scene { IfOk result (λ done. (scene.new, done) ≡ tested_at place rule.now name.now path.now scene.old) }
    ensures refused { OnErr result (scene.new.state.event ≡ scene.old.state.event) }
{
    match place {
        Some(place) => {
            let chain = &scene.state.event;
            is_found(alloc, chain.event(), chain.device_at(place), name)
        }
        None => look_elsewhere(alloc, rule, path, scene),
    }
}

/// Whether something is behind the link `device` of a device, or is that link, by what follows its name in a path.
fn is_behind(
    alloc: Global,
    chain: &Chain<'_>,
    device: &Device<'_>,
    rest: Option<&[u8]>,
) -> Result<bool, AllocError>
    ensures { IfOk result (λ found. found ≡ is_behind chain.now device.now (option_map (λ t. t.now) rest.entry)) }
{
    match rest {
        Some(rest) if rest.is_empty() || begins_with(b'/', rest) => {
            is_found(alloc, chain.event(), linked_device(chain, device), rest)
        }
        _ => Ok(false),
    }
}

/// Whether something is where a path leads from the folder of the event device.
fn is_somewhere(alloc: Global, chain: &Chain<'_>, path: &[u8]) -> Result<bool, AllocError>
    ensures { IfOk result (λ found. found ≡ is_somewhere chain.now chain.now.device path.now) }
{
    let device = chain.device();
    if leads_somewhere(alloc, chain.event(), device, path)? {
        return Ok(true);
    }
    is_behind(alloc, chain, device, following(b"device", path))
}

/// TEST of a path that names no device, which is not made if the block does not tell what is there.
fn look_here(
    alloc: Global,
    rule: &Rule,
    path: &[u8],
    scene: &mut Scene<'_>,
) -> Result<bool, AllocError>
    ensures scene { IfOk result (λ done. (scene.new, done) ≡ tested_here rule.now path.now scene.old) }
    ensures refused { OnErr result (scene.new.state.event ≡ scene.old.state.event) }
{
    if is_somewhere(alloc, &scene.state.event, path)? {
        return Ok(true);
    }
    if is_not_read(path, &scene.state.event) {
        scene.note(alloc, rule, NoteKind::TestNotMade, path)?;
    }
    Ok(false)
}

/// TEST as udev makes it: of a file or a folder of the event device, or of the device that the path names.
fn look_as_udev(
    alloc: Global,
    rule: &Rule,
    path: &[u8],
    scene: &mut Scene<'_>,
) -> Result<bool, AllocError>
    ensures scene { IfOk result (λ done. (scene.new, done) ≡ tested_by_udev (named path.now) rule.now path.now scene.old) }
    ensures refused { OnErr result (scene.new.state.event ≡ scene.old.state.event) }
{
    match Named::read(path) {
        Some(named) => {
            let place = scene.state.event.named_place(&named);
            look_at(alloc, rule, place, named.attribute, path, scene)
        }
        None => look_here(alloc, rule, path, scene),
    }
}

/// TEST of a relative path without a mask: by the manual it asks for an attribute of the event device.
fn look_by(
    alloc: Global,
    rule: &Rule,
    path: &[u8],
    scene: &mut Scene<'_>,
) -> Result<bool, AllocError>
    ensures scene { IfOk result (λ done. (scene.new, done) ≡ tested_by scene.old.state.event.profile rule.now path.now scene.old) }
    ensures refused { OnErr result (scene.new.state.event ≡ scene.old.state.event) }
{
    match scene.state.event.event().profile() {
        Profile::Manual => Ok(scene.state.event.device().attrs().get(path).is_some()),
        Profile::Udev => look_as_udev(alloc, rule, path, scene),
    }
}

/// TEST of a path, which is not made with an absolute path or with a mask.
pub(crate) fn look_for(
    alloc: Global,
    rule: &Rule,
    mask: Option<&Bytes>,
    path: &[u8],
    scene: &mut Scene<'_>,
) -> Result<bool, AllocError>
    ensures scene { IfOk result (λ done. (scene.new, done) ≡ tested rule.now (option_copied mask.entry) path.now scene.old) }
    ensures refused { OnErr result (scene.new.state.event ≡ scene.old.state.event) }
{
    if mask.is_some() || begins_with(b'/', path) {
        scene.note(alloc, rule, NoteKind::TestNotMade, path)?;
        return Ok(false);
    }
    look_by(alloc, rule, path, scene)
}

/// Empties the result.
pub(crate) fn clear_result(alloc: Global, scene: &mut Scene<'_>)
    ensures { scene.new ≡ with_result [] scene.old }
{
    scene.state.result = Bytes::new(Vec::new(alloc));
}

/// The result that a program's text makes.
fn result_of(alloc: Global, profile: Profile, text: &[u8]) -> Result<Bytes, AllocError>
    ensures { IfOk result (λ made. made ≡ result_of profile text.now) }
{
    match profile {
        Profile::Manual => Bytes::copy_of(alloc, text),
        Profile::Udev => Ok(Bytes::new(attribute_safe(alloc, text)?)),
    }
}

/// Takes what a program answered: if its status is 0, its text is the result.
fn take_answer(
    alloc: Global,
    answer: &ProgramAnswer<'_>,
    scene: &mut Scene<'_>,
) -> Result<bool, AllocError>
    ensures scene { IfOk result (λ done. (scene.new, done) ≡ answered answer.now scene.old) }
    ensures refused { OnErr result (scene.new.state.event ≡ scene.old.state.event) }
{
    if answer.status() != 0 {
        return Ok(false);
    }
    scene.state.result = result_of(alloc, scene.state.event.event().profile(), answer.text())?;
    Ok(true)
}

/// Takes the answer of the event's block to a command.
pub(crate) fn ask(
    alloc: Global,
    rule: &Rule,
    command: &[u8],
    scene: &mut Scene<'_>,
) -> Result<bool, AllocError>
    ensures scene { IfOk result (λ done. (scene.new, done) ≡ answered_by_block rule.now command.now scene.old) }
    ensures refused { OnErr result (scene.new.state.event ≡ scene.old.state.event) }
{
    match scene.state.event.event().programs().get(command) {
        Some(answer) => take_answer(alloc, answer, scene),
        None => {
            scene.note(alloc, rule, NoteKind::NoAnswer, command)?;
            Ok(false)
        }
    }
}
