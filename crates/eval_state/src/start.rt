//! What is known about an event before any rule has run.
ghost use Rattle.std.specs.Prelude.{◌≡◌, [], OnOk, IfOk, option_map, codes};
ghost use Rattle.text_tables.specs.Pairs.{with_values};
ghost use Rattle.text_tables.specs.Texts.{with_texts};
ghost use Rattle.text_bytes.specs.declared.profile.Profile.TheVariants.{Udev};
ghost use Rattle.eval_state.specs.Properties.{given_properties};
ghost use Rattle.eval_state.specs.Start.{node_path, pair_if, reported_by, start_env, start_state};

use crate::chain::Chain;
use crate::state::State;
use device_core::Event;
use std::alloc::{AllocError, Global};
use text_bytes::{Bytes, Profile};
use text_tables::{CowPairs, OwnedTexts, Pairs};

/// Sets a property if it has a value.
fn set_given<'a>(
    env: &mut CowPairs<'a>,
    name: &'a [u8],
    value: Option<&'a [u8]>,
) -> Result<(), AllocError>
    ensures { OnOk result (env.new ≡ with_values env.old (pair_if name.now (option_map (λ v. v.now) value.entry))) }
{
    match value {
        Some(value) => env.lend(name, value),
        None => Ok(()),
    }
}

/// The path of a node below `/dev`.
pub fn node_path(alloc: Global, node: &[u8]) -> Result<Bytes, AllocError>
    ensures { IfOk result (λ path. path ≡ node_path node.now) }
{
    let mut path = Vec::from_slice(alloc, b"/dev/")?;
    path.extend_from_slice(node)?;
    Ok(Bytes::new(path))
}

/// Sets the path of the node, if there is one.
fn set_node(alloc: Global, env: &mut CowPairs<'_>, node: Option<&[u8]>) -> Result<(), AllocError>
    ensures { OnOk result (env.new ≡ with_values env.old (pair_if (codes "DEVNAME") (option_map (λ n. node_path n.now) node.entry))) }
{
    match node {
        Some(node) => env.put(alloc, b"DEVNAME", node_path(alloc, node)?),
        None => Ok(()),
    }
}

/// Sets what the event itself says about its device.
fn set_reported<'a>(
    alloc: Global,
    env: &mut CowPairs<'a>,
    event: &'a Event<'_>,
) -> Result<(), AllocError>
    ensures { OnOk result (env.new ≡ with_values env.old (reported_by event.now)) }
{
    let device = event.device();
    env.lend(b"ACTION", event.action())?;
    env.lend(b"DEVPATH", device.path())?;
    set_given(env, b"SUBSYSTEM", device.subsystem())?;
    set_node(alloc, env, device.node())?;
    set_given(env, b"MAJOR", device.number().map(|number| number.major()))?;
    set_given(env, b"MINOR", device.number().map(|number| number.minor()))
}

/// Sets those properties of a device that are not empty.
fn set_filled<'a>(env: &mut CowPairs<'a>, given: &Pairs<'a>) -> Result<(), AllocError>
    ensures { OnOk result (env.new ≡ with_values env.old (given_properties Udev given.now)) }
{
    for (name, value) in given.as_map().iter() {
        if !value.is_empty() {
            env.lend(name, value)?;
        }
    }
    Ok(())
}

/// Sets the properties that a device has by a profile: for udev an empty one is none.
fn set_own<'a>(
    env: &mut CowPairs<'a>,
    profile: Profile,
    given: &Pairs<'a>,
) -> Result<(), AllocError>
    ensures { OnOk result (env.new ≡ with_values env.old (given_properties profile given.now)) }
{
    match profile {
        Profile::Manual => env.lend_all(given),
        Profile::Udev => set_filled(env, given),
    }
}

/// Sets the properties that an event begins with.
#[tactic(auto, unfolding(crate::specs::Start::start_env))]
fn set_env<'a>(
    alloc: Global,
    env: &mut CowPairs<'a>,
    event: &'a Event<'_>,
) -> Result<(), AllocError>
    requires { env.old ≡ [] }
    ensures { OnOk result (env.new ≡ start_env event.now) }
{
    set_own(env, event.profile(), event.device().env())?;
    set_reported(alloc, env, event)
}

/// Sets the properties that an event begins with, the links and the tags.
fn set_tables<'a>(
    alloc: Global,
    env: &mut CowPairs<'a>,
    links: &mut OwnedTexts,
    tags: &mut OwnedTexts,
    event: &'a Event<'_>,
) -> Result<(), AllocError>
    requires none { env.old ≡ [] }
    ensures env { OnOk result (env.new ≡ start_env event.now) }
    ensures links { OnOk result (links.new ≡ with_texts links.old event.now.device.links) }
    ensures tags { OnOk result (tags.new ≡ with_texts tags.old event.now.device.tags) }
{
    links.add_all(alloc, event.device().links())?;
    tags.add_all(alloc, event.device().tags())?;
    set_env(alloc, env, event)
}

impl<'a> State<'a> {
    /// What is known about an event before any rule has run, as udev(7) has it: the properties of its device with
    /// ACTION, DEVPATH and, if given, SUBSYSTEM, DEVNAME (`/dev/` and the node), MAJOR and MINOR set over them; its
    /// links and its tags; no result, no name and no selected device. For udev (systemd 257) an empty property of the
    /// device is none.
    pub fn new(alloc: Global, event: &'a Event<'_>) -> Result<State<'a>, AllocError>
        ensures { IfOk result (λ state. state ≡ start_state event.now) }
    {
        let chain = Chain::new(alloc, event)?;
        let mut env = CowPairs::new(alloc);
        let mut links = OwnedTexts::new(alloc);
        let mut tags = OwnedTexts::new(alloc);
        set_tables(alloc, &mut env, &mut links, &mut tags, event)?;
        Ok(State {
            event: chain,
            selected: None,
            result: Bytes::new(Vec::new(alloc)),
            name: None,
            env,
            links,
            tags,
        })
    }
}
