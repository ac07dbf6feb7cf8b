//! What udev refuses in a token whose key, attribute and operator are taken.
ghost use Rattle.std.specs.Prelude.{◌≡◌, map, nat_eq, option_map};
ghost use Rattle.std.specs.Cmp.Lexicographic.{pointwise};
ghost use Rattle.std.specs.List.{list_any};
ghost use Rattle.rule_parts.specs.Refusals.{is_no_name, is_reserved, refusal_by, refusal_of, refused_builtin, refused_import, refused_run, refused_text};
ghost use Rattle.rule_parts.specs.Values.{finding};

use file_messages::MessageKind;
use rule_types::{ImportType, Role, RunType, Target, builtin_of};
use text_bytes::Profile;

/// The properties that udev sets by itself, which no rule may set.
const RESERVED: [&[u8]; 12] = [
    b"ACTION",
    b"DEVLINKS",
    b"DEVNAME",
    b"DEVPATH",
    b"DEVTYPE",
    b"DRIVER",
    b"IFINDEX",
    b"MAJOR",
    b"MINOR",
    b"SEQNUM",
    b"SUBSYSTEM",
    b"TAGS",
];

/// Why a role with this value is refused, and the text with which this is reported. The manual refuses nothing
/// here.
pub(crate) fn refusal_by<'a>(
    profile: Profile,
    role: &'a Role,
    text: &'a [u8],
) -> Option<(MessageKind, &'a [u8])>
    ensures { option_map (λ x. finding x.0 x.1.now) result ≡ refusal_by profile role.now text.now }
{
    match profile {
        Profile::Manual => None,
        Profile::Udev => refusal_of(role, text),
    }
}

/// Why udev refuses a role with this value, and the text with which this is reported.
#[tactic(auto, unfolding(crate::specs::Refusals::refusal_of))]
fn refusal_of<'a>(role: &'a Role, text: &'a [u8]) -> Option<(MessageKind, &'a [u8])>
    ensures { option_map (λ x. finding x.0 x.1.now) result ≡ refusal_of role.now text.now }
{
    match role {
        Role::Set(target, _) => refused_text(target, text),
        Role::Run(known, _) => refused_run(*known, text),
        Role::Import(known, _) => refused_import(*known, text),
        _ => None,
    }
}

/// Why udev refuses an assignment of a text.
fn refused_text<'a>(target: &'a Target, text: &'a [u8]) -> Option<(MessageKind, &'a [u8])>
    ensures { option_map (λ x. finding x.0 x.1.now) result ≡ refused_text target.now text.now }
{
    match target {
        Target::Env(property) if is_reserved(property.as_slice()) => {
            Some((MessageKind::ReservedProperty, property.as_slice()))
        }
        Target::Name if is_no_name(text) => Some((MessageKind::NameWithoutEffect, text)),
        _ => None,
    }
}

/// Whether udev sets a property by itself.
fn is_reserved(property: &[u8]) -> bool
    ensures { result ≡ is_reserved property.now }
{
    is_among(&RESERVED, property)
}

/// Whether a text is one of these names.
fn is_among(names: &[&[u8]], text: &[u8]) -> bool
    ensures { result ≡ list_any (λ name. pointwise nat_eq name text.now) (map (λ name. name.now) names.now) }
{
    for name in names {
        if *name == text {
            return true;
        }
    }
    false
}

/// Whether a name leaves a device with the name that it has.
fn is_no_name(text: &[u8]) -> bool
    ensures { result ≡ is_no_name text.now }
{
    text.is_empty() || text == b"%k".as_slice()
}

/// Why udev refuses a command of a type.
fn refused_run(known: Option<RunType>, text: &[u8]) -> Option<(MessageKind, &[u8])>
    ensures { option_map (λ x. finding x.0 x.1.now) result ≡ refused_run known text.now }
{
    match known {
        Some(RunType::Builtin) => refused_builtin(text),
        _ => None,
    }
}

/// Why udev refuses an import of a type.
fn refused_import(known: ImportType, text: &[u8]) -> Option<(MessageKind, &[u8])>
    ensures { option_map (λ x. finding x.0 x.1.now) result ≡ refused_import known text.now }
{
    match known {
        ImportType::Builtin => refused_builtin(text),
        _ => None,
    }
}

/// Why udev refuses a text that has to ask for a builtin.
fn refused_builtin(text: &[u8]) -> Option<(MessageKind, &[u8])>
    ensures { option_map (λ x. finding x.0 x.1.now) result ≡ refused_builtin text.now }
{
    match builtin_of(text) {
        Some(_) => None,
        None => Some((MessageKind::UnknownBuiltin, text)),
    }
}
