//! The name of an interface.
ghost use Rattle.std.specs.Prelude.{◌≡◌, IfOk, option_map};
ghost use Rattle.builtin_link.specs.Policies.{given_name, keeps_name, name_by, name_by_policies, name_of, policies_count, property_of, with_name};

use crate::numbers::own_number;
use builtin_devices::{file_at, is_number};
use device_core::Event;
use eval_commands::cmdline_value;
use link_files::{LINK, Setting, WordKind, is_interface_name, is_no, is_of, last_of, words_of};
use std::alloc::{AllocError, Global};
use text_bytes::Bytes;
use text_tables::CowPairs;

/// Whether a policy says that the interface keeps its name.
#[tactic(auto, unfolding(crate::specs::Policies::keeps_name))]
fn keeps_name(source: Option<u64>, policy: &[u8]) -> bool
    ensures { result ≡ keeps_name source policy.now }
{
    policy == b"kernel".as_slice() && is_number(2, source)
        || policy == b"keep".as_slice() && (is_number(3, source) || is_number(4, source))
}

/// The property that has the name by a policy.
#[tactic(auto, unfolding(crate::specs::Policies::property_of))]
fn property_of(policy: &[u8]) -> Option<&'static [u8]>
    ensures { option_map (λ t. t.now) result ≡ property_of policy.now }
{
    if policy == b"database".as_slice() {
        return Some(b"ID_NET_NAME_FROM_DATABASE");
    }
    if policy == b"onboard".as_slice() {
        return Some(b"ID_NET_NAME_ONBOARD");
    }
    if policy == b"slot".as_slice() {
        return Some(b"ID_NET_NAME_SLOT");
    }
    if policy == b"path".as_slice() {
        return Some(b"ID_NET_NAME_PATH");
    }
    if policy == b"mac".as_slice() {
        return Some(b"ID_NET_NAME_MAC");
    }
    None
}

/// The name by a policy.
fn name_by<'e>(env: &'e CowPairs<'_>, policy: &[u8]) -> Option<&'e [u8]>
    ensures { option_map (λ t. t.now) result ≡ name_by env.now policy.now }
{
    let name = env.get(property_of(policy)?)?;
    if is_interface_name(name) {
        Some(name)
    } else {
        None
    }
}

/// The name by policies in turn, or the one that is left.
fn name_by_policies<'e>(
    source: Option<u64>,
    env: &'e CowPairs<'_>,
    kept: Option<&'e [u8]>,
    left: Option<&'e [u8]>,
    policies: &[Bytes],
) -> Option<&'e [u8]>
    ensures { option_map (λ t. t.now) result
        ≡ name_by_policies source env.now (option_map (λ t. t.now) kept.entry) (option_map (λ t. t.now) left.entry) policies.now }
{
    for policy in policies {
        let policy = policy.as_slice();
        if keeps_name(source, policy) {
            return kept;
        }
        if let Some(name) = name_by(env, policy) {
            return Some(name);
        }
    }
    left
}

/// What one more setting makes of the name that is given.
fn with_name<'e>(held: Option<&'e [u8]>, setting: &'e Setting) -> Option<&'e [u8]>
    ensures { option_map (λ t. t.now) result ≡ with_name (option_map (λ t. t.now) held.entry) setting.now }
{
    if !is_of(LINK, b"Name", setting) {
        return held;
    }
    let value = setting.value.as_slice();
    if value.is_empty() {
        return None;
    }
    if is_interface_name(value) {
        return Some(value);
    }
    held
}

/// The name that is given.
#[tactic(auto, unfolding(crate::specs::Policies::given_name))]
fn given_name(settings: &[Setting]) -> Option<&[u8]>
    ensures { option_map (λ t. t.now) result ≡ given_name settings.now }
{
    let mut held = None;
    for setting in settings {
        held = with_name(held, setting);
    }
    held
}

/// Whether policies count.
#[tactic(auto, unfolding(crate::specs::Policies::policies_count))]
fn policies_count(alloc: Global, event: &Event<'_>) -> Result<bool, AllocError>
    ensures { IfOk result (λ count. count ≡ policies_count event.now) }
{
    let Some(line) = file_at(event, b"cmdline").or(file_at(event, b"cmdline.part")) else {
        return Ok(true);
    };
    match cmdline_value(alloc, b"net.ifnames", line)? {
        Some(value) => Ok(!is_no(value.as_slice())),
        None => Ok(true),
    }
}

/// The name by the event: only a new interface is named, by policies in turn, or else as it is given.
#[tactic(auto, unfolding(crate::specs::Policies::name_of, crate::specs::Policies::new_name, crate::specs::Policies::policies_of))]
pub(crate) fn name_of<'e>(
    alloc: Global,
    event: &Event<'_>,
    env: &'e CowPairs<'_>,
    settings: &'e [Setting],
) -> Result<Option<&'e [u8]>, AllocError>
    ensures { IfOk result (λ name. option_map (λ t. t.now) name ≡ name_of event.now env.now settings.now) }
{
    let present = env.get(b"INTERFACE");
    if event.action() != b"add".as_slice() {
        return Ok(present);
    }
    let left = given_name(settings).or(present);
    if !policies_count(alloc, event)? {
        return Ok(left);
    }
    let policies = words_of(
        alloc,
        WordKind::Plain,
        last_of(LINK, b"NamePolicy", settings),
    )?;
    let source = own_number(event, b"name_assign_type");
    Ok(name_by_policies(source, env, present, left, &policies))
}
