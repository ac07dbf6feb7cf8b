//! The builtin.
ghost use Rattle.std.specs.Prelude.{◌≡◌, ◌∷◌, [], IfOk, OnOk, map, option_copied, option_map};
ghost use Rattle.text_tables.specs.Texts.{with_texts};
ghost use Rattle.builtin_devices.specs.Outcomes.{needs_of};
ghost use Rattle.builtin_link.specs.Link.{by_files, by_present, file_for, file_needs, given_keys, is_loopback, name_with, needs_with, net_setup_link};
ghost use Rattle.builtin_link.specs.Link.{properties_by, set_by};

use crate::checks::{add_lacked, is_for};
use crate::keys::checks_of;
use crate::numbers::MAX_NUMBER;
use crate::policies::name_of;
use builtin_devices::{Base, BuiltinOutcome, add_property, attribute, number_in};
use device_core::Event;
use link_files::{LINK, LinkFile, Setting, last_of};
use std::alloc::{AllocError, Global};
use text_bytes::Bytes;
use text_tables::{CowPairs, OwnedTexts, is_among};

/// The actions on which files are looked at.
const LOOKING_ACTIONS: [&[u8]; 3] = [b"add", b"bind", b"move"];

/// The keys of `[Link]` that set properties, which is not computed.
const PROPERTY_KEYS: [&[u8]; 3] = [b"Property", b"ImportProperty", b"UnsetProperty"];

/// The file for an interface, the first one that is for it. Adds what would tell whether a file before it is.
fn file_for<'f>(
    alloc: Global,
    event: &Event<'_>,
    env: &CowPairs<'_>,
    files: &'f [LinkFile],
    needs: &mut OwnedTexts,
) -> Result<Option<&'f LinkFile>, AllocError>
    ensures file { IfOk result (λ file. option_copied file ≡ file_for event.now env.now files.now) }
    ensures needs { OnOk result (needs.new ≡ with_texts needs.old (file_needs event.now env.now files.now)) }
{
    for file in files {
        let checks = checks_of(alloc, event, env, file.settings())?;
        if is_for(&checks) {
            return Ok(Some(file));
        }
        add_lacked(alloc, &checks, needs)?;
    }
    Ok(None)
}

/// Adds those of these keys that are given to what is needed.
fn add_keys(
    alloc: Global,
    settings: &[Setting],
    keys: &[&[u8]],
    needs: &mut OwnedTexts,
) -> Result<(), AllocError>
    ensures { OnOk result (needs.new ≡ with_texts needs.old (given_keys settings.now (map (λ key. key.now) keys.now))) }
{
    for key in keys {
        if !last_of(LINK, key, settings).is_empty() {
            needs.add(alloc, key)?;
        }
    }
    Ok(())
}

/// The properties of an interface that a file is for.
fn properties_by(
    alloc: Global,
    file: &LinkFile,
    name: &[u8],
) -> Result<Vec<(Bytes, Bytes)>, AllocError>
    ensures { IfOk result (λ properties. properties.items ≡ properties_by file.now name.now) }
{
    let mut properties = Vec::new(alloc);
    add_property(alloc, b"ID_NET_LINK_FILE", file.path(), &mut properties)?;
    add_property(
        alloc,
        b"ID_NET_LINK_FILE_DROPINS",
        file.drop_ins(),
        &mut properties,
    )?;
    add_property(alloc, b"ID_NET_NAME", name, &mut properties)?;
    Ok(properties)
}

/// What a file sets, if there is one and there is a name by it. Adds what would have to be known with it.
#[tactic(auto, using(crate::proofs::Needs::in_two))]
fn set_by(
    alloc: Global,
    event: &Event<'_>,
    env: &CowPairs<'_>,
    file: Option<&LinkFile>,
    needs: &mut OwnedTexts,
) -> Result<Vec<(Bytes, Bytes)>, AllocError>
    ensures properties { IfOk result (λ properties. properties.items
        ≡ set_by (option_copied file.entry) (name_with event.now env.now (option_copied file.entry))) }
    ensures needs { OnOk result (needs.new ≡ with_texts needs.old (needs_with event.now env.now (option_copied file.entry))) }
{
    let Some(file) = file else {
        return Ok(Vec::new(alloc));
    };
    let name = name_of(alloc, event, env, file.settings())?;
    add_keys(alloc, file.settings(), &PROPERTY_KEYS, needs)?;
    let Some(name) = name else {
        needs.add(alloc, b"INTERFACE")?;
        return Ok(Vec::new(alloc));
    };
    properties_by(alloc, file, name)
}

/// The outcome if files are looked at.
#[tactic(auto, unfolding(crate::specs::Link::by_files))]
fn by_files(
    alloc: Global,
    files: &[LinkFile],
    event: &Event<'_>,
    env: &CowPairs<'_>,
) -> Result<BuiltinOutcome, AllocError>
    ensures { IfOk result (λ outcome. outcome ≡ by_files event.now env.now files.now) }
{
    let mut needs = OwnedTexts::new(alloc);
    let file = file_for(alloc, event, env, files, &mut needs)?;
    let properties = set_by(alloc, event, env, file, &mut needs)?;
    Ok(BuiltinOutcome::succeeding(properties, needs))
}

/// Whether flags say that an interface is the machine's own.
fn is_loopback(flags: &[u8]) -> bool
    ensures { result ≡ is_loopback flags.now }
{
    match number_in(Base::AsWritten, MAX_NUMBER, flags) {
        Some(number) => number / 8 % 2 == 1,
        None => false,
    }
}

/// What is needed if that is one word.
fn needing(alloc: Global, word: &[u8]) -> Result<OwnedTexts, AllocError>
    ensures { IfOk result (λ needs. needs ≡ needs_of (word.now ∷ [])) }
{
    let mut needs = OwnedTexts::new(alloc);
    needs.add(alloc, word)?;
    Ok(needs)
}

/// The outcome if the interface keeps its name whatever files say.
fn by_present(alloc: Global, name: Option<&[u8]>) -> Result<BuiltinOutcome, AllocError>
    ensures { IfOk result (λ outcome. outcome ≡ by_present (option_map (λ t. t.now) name.entry)) }
{
    let mut properties = Vec::new(alloc);
    match name {
        Some(name) => {
            add_property(alloc, b"ID_NET_NAME", name, &mut properties)?;
            Ok(BuiltinOutcome::succeeding(properties, OwnedTexts::new(alloc)))
        }
        None => {
            let needs = needing(alloc, b"INTERFACE")?;
            Ok(BuiltinOutcome::succeeding(properties, needs))
        }
    }
}

/// The name of the network interface that the event device is, as the builtin net_setup_link of udev of systemd 257
/// gives it by `.link` files; systemd.link(5) has their form. `env` are the current properties of the event device.
///
/// On `add`, `bind` and `move` it sets ID_NET_LINK_FILE, ID_NET_LINK_FILE_DROPINS and ID_NET_NAME by the first file that
/// is for the interface; ID_NET_NAME is a new name only on `add`. On other actions it sets ID_NET_NAME alone, to the
/// present name. It sets nothing for the machine's own interface, or if no file is for the interface.
///
/// It fails if the kernel reported no IFINDEX. A file that is for the interface only by what the block does not tell
/// counts as one that is not, and the outcome needs what would tell.
#[tactic(auto, unfolding(crate::specs::Link::net_setup_link))]
pub fn net_setup_link(
    alloc: Global,
    files: &[LinkFile],
    event: &Event<'_>,
    env: &CowPairs<'_>,
) -> Result<BuiltinOutcome, AllocError>
    ensures { IfOk result (λ outcome. outcome ≡ net_setup_link files.now event.now env.now) }
{
    if !is_among(&LOOKING_ACTIONS, event.action()) {
        return by_present(alloc, env.get(b"INTERFACE"));
    }
    let device = event.device();
    if device.env().get(b"IFINDEX").is_none() {
        return Ok(BuiltinOutcome::failing(alloc, needing(alloc, b"IFINDEX")?));
    }
    let Some(flags) = attribute(device, b"flags") else {
        let needs = needing(alloc, b"flags")?;
        return Ok(BuiltinOutcome::succeeding(Vec::new(alloc), needs));
    };
    if is_loopback(flags) {
        return Ok(BuiltinOutcome::succeeding(Vec::new(alloc), OwnedTexts::new(alloc)));
    }
    by_files(alloc, files, event, env)
}
