//! What a token is about: its key with what is in its braces.
ghost use Rattle.std.specs.Prelude.{◌≡◌, IfSome, Some, option_map};
ghost use Rattle.rule_types.specs.Names.{import_name, run_name};
ghost use Rattle.rule_types.specs.Written.{attribute_of_topic, key_of_topic};
ghost use Rattle.rule_types.specs.Topics.{attribute_as, bare, constant_in, import_in, is_constant, mask_as, mask_in, name_in, run_type_in, topic_of};

use crate::keys::Key;
use crate::modes::is_mask_as;
use crate::types::{ImportType, RunType, import_type_of, run_type_of};
use text_bytes::{Bytes, Profile};

/// A key with what is in its braces, if it is what the key takes.
#[derive(Drop)]
pub enum Topic {
    Action,
    Devpath,
    Kernel,
    Subsystem,
    Driver,
    Kernels,
    Subsystems,
    Drivers,
    Tags,
    Result,
    /// With an attribute's name.
    Attrs(Bytes),
    /// With a constant's name.
    Const(Bytes),
    /// With a mask of file modes, if there is one, as it is written.
    Test(Option<Bytes>),
    Program,
    /// With its type.
    Import(ImportType),
    Name,
    Symlink,
    Tag,
    /// With an attribute's name.
    Attr(Bytes),
    /// With a kernel parameter's name.
    Sysctl(Bytes),
    /// With a property's name.
    Env(Bytes),
    Owner,
    Group,
    Mode,
    /// With a security module's name.
    Seclabel(Bytes),
    /// With its type, if one is given.
    Run(Option<RunType>),
    Options,
    Label,
    Goto,
}

/// What a token with this key and attribute is about. `None` if the key lacks an attribute or does not take this
/// one. No key takes an empty attribute, except that udev takes the empty braces of TEST as if there were none.
#[tactic(auto, unfolding(crate::specs::Topics::topic_of))]
pub fn topic_of(profile: Profile, key: Key, attribute: Option<Bytes>) -> Option<Topic>
    ensures topic { result ≡ topic_of profile key attribute }
    ensures written { IfSome result (λ topic. (key_of_topic topic ≡ key) × (attribute_of_topic topic ≡ attribute_as profile key attribute)) }
{
    match key {
        Key::Action => bare(attribute, Topic::Action),
        Key::Devpath => bare(attribute, Topic::Devpath),
        Key::Kernel => bare(attribute, Topic::Kernel),
        Key::Subsystem => bare(attribute, Topic::Subsystem),
        Key::Driver => bare(attribute, Topic::Driver),
        Key::Kernels => bare(attribute, Topic::Kernels),
        Key::Subsystems => bare(attribute, Topic::Subsystems),
        Key::Drivers => bare(attribute, Topic::Drivers),
        Key::Tags => bare(attribute, Topic::Tags),
        Key::Result => bare(attribute, Topic::Result),
        Key::Attrs => Some(Topic::Attrs(name_in(attribute)?)),
        Key::Const => Some(Topic::Const(constant_in(profile, attribute)?)),
        Key::Test => Some(Topic::Test(mask_in(profile, mask_as(profile, attribute))?)),
        Key::Program => bare(attribute, Topic::Program),
        Key::Import => Some(Topic::Import(import_in(attribute)?)),
        Key::Name => bare(attribute, Topic::Name),
        Key::Symlink => bare(attribute, Topic::Symlink),
        Key::Tag => bare(attribute, Topic::Tag),
        Key::Attr => Some(Topic::Attr(name_in(attribute)?)),
        Key::Sysctl => Some(Topic::Sysctl(name_in(attribute)?)),
        Key::Env => Some(Topic::Env(name_in(attribute)?)),
        Key::Owner => bare(attribute, Topic::Owner),
        Key::Group => bare(attribute, Topic::Group),
        Key::Mode => bare(attribute, Topic::Mode),
        Key::Seclabel => Some(Topic::Seclabel(name_in(attribute)?)),
        Key::Run => Some(Topic::Run(run_type_in(attribute)?)),
        Key::Options => bare(attribute, Topic::Options),
        Key::Label => bare(attribute, Topic::Label),
        Key::Goto => bare(attribute, Topic::Goto),
    }
}

/// A topic that takes no attribute.
fn bare(attribute: Option<Bytes>, topic: Topic) -> Option<Topic>
    ensures { result ≡ bare attribute topic }
{
    match attribute {
        None => Some(topic),
        Some(_) => None,
    }
}

/// The name that an attribute gives.
fn name_in(attribute: Option<Bytes>) -> Option<Bytes>
    ensures { result ≡ name_in attribute }
{
    match attribute {
        None => None,
        Some(name) if name.as_slice().is_empty() => None,
        Some(name) => Some(name),
    }
}

/// The constant that an attribute names: udev knows two, the manual any.
fn constant_in(profile: Profile, attribute: Option<Bytes>) -> Option<Bytes>
    ensures { result ≡ constant_in profile attribute }
{
    match profile {
        Profile::Manual => name_in(attribute),
        Profile::Udev => attribute.filter(|name| is_constant(name.as_slice())),
    }
}

/// Whether udev knows a constant of this name.
fn is_constant(name: &[u8]) -> bool
    ensures { result ≡ is_constant name.now }
{
    name == b"arch".as_slice() || name == b"virt".as_slice()
}

/// What is in the braces of TEST, as it is taken: for udev empty braces count as none.
fn mask_as(profile: Profile, attribute: Option<Bytes>) -> Option<Bytes>
    ensures { result ≡ mask_as profile attribute }
{
    match profile {
        Profile::Manual => attribute,
        Profile::Udev => name_in(attribute),
    }
}

/// The mask that an attribute gives, or that there is none; `None` for a wrong mask.
fn mask_in(profile: Profile, attribute: Option<Bytes>) -> Option<Option<Bytes>>
    ensures { result ≡ mask_in profile attribute }
{
    match attribute {
        None => Some(None),
        Some(mask) if is_mask_as(profile, mask.as_slice()) => Some(Some(mask)),
        Some(_) => None,
    }
}

/// The type of IMPORT that an attribute names.
fn import_in(attribute: Option<Bytes>) -> Option<ImportType>
    ensures known { result ≡ import_in attribute }
    ensures named { IfSome result (λ known. Some (import_name known) ≡ attribute) }
{
    match attribute {
        None => None,
        Some(name) => import_type_of(name.as_slice()),
    }
}

/// The type of RUN that an attribute names, or that there is none.
fn run_type_in(attribute: Option<Bytes>) -> Option<Option<RunType>>
    ensures known { result ≡ run_type_in attribute }
    ensures named { IfSome result (λ known. option_map run_name known ≡ attribute) }
{
    match attribute {
        None => Some(None),
        Some(name) => Some(Some(run_type_of(name.as_slice())?)),
    }
}
