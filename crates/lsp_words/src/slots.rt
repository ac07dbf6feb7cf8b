//! Which words may stand at a place of a row, and where the one that is begun there begins.
ghost use Rattle.std.specs.Prelude.{◌≡◌, ◌≤◌, IfSome, length};
ghost use Rattle.std.specs.List.{prefix_len};
ghost use Rattle.text_bytes.specs.Names.{is_blank};
ghost use Rattle.lsp_words.specs.Contexts.{seen};
ghost use Rattle.lsp_words.specs.Slots.{database_slot, kind_at, kind_in_braces, kind_in_name, kind_in_value, slot_of};

use crate::contexts::{Scan, scanned};
use crate::kinds::WordKind;
use crate::moves::Place;
use rule_types::{ImportType, Key, RunType, import_type_of, key_of, run_type_of};
use text_bytes::{FileKind, begins_with, is_blank};

/// Which words may stand at the end of some bytes, and where the word that is begun there begins.
#[derive(Clone, Copy, PartialEq, Eq)]
pub(crate) struct Slot {
    pub(crate) kind: WordKind,
    pub(crate) start: usize,
}

/// What is in the braces of a key.
fn kind_in_braces(key: Option<Key>) -> Option<WordKind>
    ensures { result ≡ kind_in_braces key }
{
    match key {
        Some(Key::Attr | Key::Attrs) => Some(WordKind::Attribute),
        Some(Key::Env) => Some(WordKind::Property),
        Some(Key::Import) => Some(WordKind::ImportType),
        Some(Key::Run) => Some(WordKind::RunType),
        Some(Key::Const) => Some(WordKind::Constant),
        Some(Key::Seclabel) => Some(WordKind::Module),
        _ => None,
    }
}

/// What the value of a key is made of, by what is in the key's braces.
fn kind_in_value(key: Option<Key>, braces: &[u8]) -> Option<WordKind>
    ensures { result ≡ kind_in_value key braces.now }
{
    match key {
        Some(Key::Action) => Some(WordKind::Action),
        Some(Key::Subsystem | Key::Subsystems) => Some(WordKind::Subsystem),
        Some(Key::Options) => Some(WordKind::RuleOption),
        Some(Key::Import) => match import_type_of(braces) {
            Some(ImportType::Builtin) => Some(WordKind::Builtin),
            Some(ImportType::Db | ImportType::Parent) => Some(WordKind::Property),
            _ => None,
        },
        Some(Key::Run) => match run_type_of(braces) {
            Some(RunType::Builtin) => Some(WordKind::Builtin),
            _ => None,
        },
        _ => None,
    }
}

/// What is in the braces of a substitution.
fn kind_in_name(name: &[u8]) -> Option<WordKind>
    ensures { result ≡ kind_in_name name.now }
{
    if name == b"$env".as_slice() || name == b"%E".as_slice() {
        Some(WordKind::Property)
    } else if name == b"$attr".as_slice() || name == b"%s".as_slice() {
        Some(WordKind::Attribute)
    } else {
        None
    }
}

/// Which words may stand where a row is read to.
fn kind_at(before: &[u8], scan: &Scan<'_>) -> Option<WordKind>
    requires { scan.now.start ≤ length before.now }
    ensures { result ≡ kind_at scan.now.place (seen before.now scan.now) }
{
    match scan.place {
        Place::Indent | Place::Gap | Place::Key => Some(WordKind::Key),
        Place::Braces => kind_in_braces(key_of(scan.key)),
        Place::Head | Place::Operator => Some(WordKind::Operator),
        Place::Value => kind_in_value(key_of(scan.key), scan.braces),
        Place::Name => {
            let (_, word) = before.split_at(scan.start);
            if begins_with(b'$', word) {
                Some(WordKind::Substitution)
            } else {
                Some(WordKind::Letter)
            }
        }
        Place::Inner => kind_in_name(scan.name),
        _ => None,
    }
}

/// How many blanks a text begins with.
fn indent_of(text: &[u8]) -> usize
    ensures value { result ≡ prefix_len is_blank text.now }
    ensures within { result ≤ length text.now }
{
    text.iter().take_while(|byte| is_blank(**byte)).count()
}

/// Which words may stand at the end of these bytes of a database file's row.
fn database_slot(before: &[u8]) -> Option<Slot>
    ensures value { result ≡ database_slot before.now }
    ensures within { IfSome result (λ slot. slot.start ≤ length before.now) }
{
    if before.contains(&b'#') {
        return None;
    }
    if begins_with(b' ', before) {
        if before.contains(&b'=') {
            None
        } else {
            Some(Slot {
                kind: WordKind::DatabaseProperty,
                start: indent_of(before),
            })
        }
    } else {
        Some(Slot {
            kind: WordKind::Match,
            start: 0,
        })
    }
}

/// Which words may stand at the end of these bytes of a row.
#[tactic(auto, unfolding(crate::specs::Slots::slot_of))]
pub(crate) fn slot_of(kind: FileKind, before: &[u8]) -> Option<Slot>
    ensures value { result ≡ slot_of kind before.now }
    ensures within { IfSome result (λ slot. slot.start ≤ length before.now) }
{
    match kind {
        FileKind::Rules => {
            let scan = scanned(before);
            let word = kind_at(before, &scan)?;
            Some(Slot {
                kind: word,
                start: scan.start,
            })
        }
        FileKind::Hwdb => database_slot(before),
    }
}
