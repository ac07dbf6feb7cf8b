//! The key and the attribute with which a match or an assignment is written: reports about an event name it by
//! these.
ghost use Rattle.std.specs.Prelude.{◌≡◌, option_map};
ghost use Rattle.rule_types.specs.Written.{attribute_of_plain, attribute_of_target, attribute_of_up, key_of_plain, key_of_target, key_of_up};

use crate::keys::Key;
use crate::roles::{PlainKey, Target, UpKey};

impl PlainKey {
    /// Its key.
    pub fn key(&self) -> Key
        ensures { result ≡ key_of_plain self.now }
    {
        match self {
            PlainKey::Action => Key::Action,
            PlainKey::Devpath => Key::Devpath,
            PlainKey::Kernel => Key::Kernel,
            PlainKey::Subsystem => Key::Subsystem,
            PlainKey::Driver => Key::Driver,
            PlainKey::Name => Key::Name,
            PlainKey::Symlink => Key::Symlink,
            PlainKey::Tag => Key::Tag,
            PlainKey::Attr(_) => Key::Attr,
            PlainKey::Sysctl(_) => Key::Sysctl,
            PlainKey::Env(_) => Key::Env,
            PlainKey::Const(_) => Key::Const,
        }
    }

    /// What is in its braces, if it has them.
    pub fn attribute(&self) -> Option<&[u8]>
        ensures { option_map (λ text. text.now) result ≡ attribute_of_plain self.now }
    {
        match self {
            PlainKey::Attr(name)
            | PlainKey::Sysctl(name)
            | PlainKey::Env(name)
            | PlainKey::Const(name) => Some(name.as_slice()),
            _ => None,
        }
    }
}

impl UpKey {
    /// Its key.
    pub fn key(&self) -> Key
        ensures { result ≡ key_of_up self.now }
    {
        match self {
            UpKey::Kernels => Key::Kernels,
            UpKey::Subsystems => Key::Subsystems,
            UpKey::Drivers => Key::Drivers,
            UpKey::Tags => Key::Tags,
            UpKey::Attrs(_) => Key::Attrs,
        }
    }

    /// What is in its braces, if it has them.
    pub fn attribute(&self) -> Option<&[u8]>
        ensures { option_map (λ text. text.now) result ≡ attribute_of_up self.now }
    {
        match self {
            UpKey::Attrs(name) => Some(name.as_slice()),
            _ => None,
        }
    }
}

impl Target {
    /// Its key.
    pub fn key(&self) -> Key
        ensures { result ≡ key_of_target self.now }
    {
        match self {
            Target::Owner => Key::Owner,
            Target::Group => Key::Group,
            Target::Mode => Key::Mode,
            Target::Tag => Key::Tag,
            Target::Seclabel(_) => Key::Seclabel,
            Target::Env(_) => Key::Env,
            Target::Name => Key::Name,
            Target::Symlink => Key::Symlink,
            Target::Attr(_) => Key::Attr,
            Target::Sysctl(_) => Key::Sysctl,
        }
    }

    /// What is in its braces, if it has them.
    pub fn attribute(&self) -> Option<&[u8]>
        ensures { option_map (λ text. text.now) result ≡ attribute_of_target self.now }
    {
        match self {
            Target::Seclabel(name)
            | Target::Env(name)
            | Target::Attr(name)
            | Target::Sysctl(name) => Some(name.as_slice()),
            _ => None,
        }
    }
}
