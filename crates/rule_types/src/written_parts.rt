//! The key and the attribute with which an act or an assignment is written: the notes of an event name it by these.
ghost use Rattle.std.specs.Prelude.{◌≡◌, option_map};
ghost use Rattle.rule_types.specs.WrittenParts.{attribute_of_act_kind, attribute_of_change, key_of_act_kind, key_of_change, type_of};

use crate::keys::Key;
use crate::part::{ActKind, Change, Import};
use crate::types::ImportType;

impl Import {
    /// Its type.
    pub fn import_type(&self) -> ImportType
        ensures { result ≡ type_of self.now }
    {
        match self {
            Import::Program(_) => ImportType::Program,
            Import::Builtin(_) => ImportType::Builtin,
            Import::File(_) => ImportType::File,
            Import::Parent(_, _) => ImportType::Parent,
            Import::Cmdline(_) => ImportType::Cmdline,
            Import::Db(_) => ImportType::Db,
        }
    }
}

impl ActKind {
    /// Its key.
    pub fn key(&self) -> Key
        ensures { result ≡ key_of_act_kind self.now }
    {
        match self {
            ActKind::Test(_, _) => Key::Test,
            ActKind::Program(_) => Key::Program,
            ActKind::Import(_) => Key::Import,
        }
    }

    /// What is in its braces, if it has them.
    pub fn attribute(&self) -> Option<&[u8]>
        ensures { option_map (λ text. text.now) result ≡ attribute_of_act_kind self.now }
    {
        match self {
            ActKind::Test(mask, _) => mask.as_ref().map(|mask| mask.as_slice()),
            ActKind::Program(_) => None,
            ActKind::Import(import) => Some(import.import_type().name()),
        }
    }
}

impl Change {
    /// Its key.
    pub fn key(&self) -> Key
        ensures { result ≡ key_of_change self.now }
    {
        match self {
            Change::Option(_) => Key::Options,
            Change::Text(target, _) => target.key(),
            Change::Run(_, _) => Key::Run,
        }
    }

    /// What is in its braces, if it has them.
    pub fn attribute(&self) -> Option<&[u8]>
        ensures { option_map (λ text. text.now) result ≡ attribute_of_change self.now }
    {
        match self {
            Change::Option(_) => None,
            Change::Text(target, _) => target.attribute(),
            Change::Run(known, _) => known.map(|known| known.name()),
        }
    }
}
