//! Which known name an unknown one may have been meant as.
ghost use Rattle.std.specs.Prelude.{◌≡◌, ◌≤◌, false, length, map, nat_eq, option_map, IfOk};
ghost use Rattle.std.specs.Char.{is_ascii_alphabetic};
ghost use Rattle.std.specs.List.{list_any, prefix_len, starts_with};
ghost use Rattle.text_bytes.specs.Names.{equals};
ghost use Rattle.text_bytes.specs.Texts.{split_once};
ghost use Rattle.rule_types.specs.Builtins.{builtin_name, first_word};
ghost use Rattle.rule_types.specs.Names.{key_name};
ghost use Rattle.engine_formats.specs.Meant.{has_name, letters, meant_as, name_in, names_for, option_in, unknown_after};
ghost use Rattle.file_catalogue.specs.declared.remark.Remark.TheVariants as about;

use crate::near::nearest;
use file_catalogue::Remark;
use file_messages::MessageKind;
use rule_types::{BUILTINS, Builtin, Key, first_word};
use std::alloc::{AllocError, Global};
use text_bytes::{split_once, word_of};

/// All keys, as udev(7) has them.
const KEYS: [Key; 29] = [
    Key::Action,
    Key::Devpath,
    Key::Kernel,
    Key::Subsystem,
    Key::Driver,
    Key::Kernels,
    Key::Subsystems,
    Key::Drivers,
    Key::Tags,
    Key::Result,
    Key::Attrs,
    Key::Const,
    Key::Test,
    Key::Program,
    Key::Import,
    Key::Name,
    Key::Symlink,
    Key::Tag,
    Key::Attr,
    Key::Sysctl,
    Key::Env,
    Key::Owner,
    Key::Group,
    Key::Mode,
    Key::Seclabel,
    Key::Run,
    Key::Options,
    Key::Label,
    Key::Goto,
];

/// The names of options of OPTIONS, each without its value.
const OPTION_NAMES: [&[u8]; 7] = [
    b"link_priority",
    b"string_escape",
    b"static_node",
    b"watch",
    b"nowatch",
    b"db_persist",
    b"log_level",
];

/// The names after a `$`. The contract of `has_name` compares them with the table by which templates are read.
const SIGN_NAMES: [&[u8]; 19] = [
    b"kernel",
    b"number",
    b"devpath",
    b"id",
    b"driver",
    b"attr",
    b"env",
    b"major",
    b"minor",
    b"result",
    b"parent",
    b"name",
    b"links",
    b"root",
    b"sysfs",
    b"sys",
    b"devnode",
    b"tempnode",
    b"$",
];

/// Those of them that are to be written: neither those of old versions of udev nor the sign itself.
const WRITTEN_NAMES: [&[u8]; 16] = [
    b"kernel", b"number", b"devpath", b"id", b"driver", b"attr", b"env", b"major", b"minor",
    b"result", b"parent", b"name", b"links", b"root", b"sys", b"devnode",
];

/// The names of keys.
fn key_names(alloc: Global, keys: &[Key]) -> Result<Vec<&'static [u8]>, AllocError>
    ensures { IfOk result (λ names. map (λ name. name.now) names.items ≡ map key_name keys.now) }
{
    let mut names = Vec::new(alloc);
    for key in keys {
        names.push(key.name())?;
    }
    Ok(names)
}

/// The names of builtins.
fn builtin_names(alloc: Global, builtins: &[Builtin]) -> Result<Vec<&'static [u8]>, AllocError>
    ensures { IfOk result (λ names. map (λ name. name.now) names.items ≡ map builtin_name builtins.now) }
{
    let mut names = Vec::new(alloc);
    for builtin in builtins {
        names.push(builtin.name())?;
    }
    Ok(names)
}

/// The names of which the word of a message should have one; none if it is not about a name.
fn names_for(alloc: Global, kind: MessageKind) -> Result<Vec<&'static [u8]>, AllocError>
    ensures { IfOk result (λ names. map (λ name. name.now) names.items ≡ names_for kind) }
{
    match kind {
        MessageKind::UnknownKey => key_names(alloc, &KEYS),
        MessageKind::UnknownBuiltin => builtin_names(alloc, &BUILTINS),
        MessageKind::BadValue => Vec::from_slice(alloc, &OPTION_NAMES),
        MessageKind::BadSubstitution => Vec::from_slice(alloc, &WRITTEN_NAMES),
        MessageKind::BadAttributeSubstitution => Vec::from_slice(alloc, &WRITTEN_NAMES),
        _ => Ok(Vec::new(alloc)),
    }
}

/// The option that a value names: what comes before `=`, or all of it.
fn option_in(value: &[u8]) -> &[u8]
    ensures { result.now ≡ option_in (split_once equals value.now) value.now }
{
    match split_once(b'=', value) {
        Some((name, _)) => name,
        None => value,
    }
}

/// How many letters a text begins with.
fn letter_count(text: &[u8]) -> usize
    ensures value { result ≡ prefix_len is_ascii_alphabetic text.now }
    ensures within { result ≤ length text.now }
{
    text.iter()
        .take_while(|byte| byte.is_ascii_alphabetic())
        .count()
}

/// The letters that a text begins with.
fn letters(text: &[u8]) -> &[u8]
    ensures { result.now ≡ letters text.now }
{
    let (first, _) = text.split_at(letter_count(text));
    first
}

/// Whether one of these names begins a text.
fn begins_with_any(names: &[&'static [u8]], text: &[u8]) -> bool
    ensures { result ≡ list_any (λ name. starts_with nat_eq text.now name) (map (λ name. name.now) names.now) }
{
    for name in names {
        if text.starts_with(*name) {
            return true;
        }
    }
    false
}

/// Whether a known name after a `$` begins a text.
fn has_name(text: &[u8]) -> bool
    ensures { result ≡ has_name text.now }
{
    begins_with_any(&SIGN_NAMES, text)
}

/// The letters after the first `$` that no known name follows; none if there is no such sign. `$$` is one sign, which
/// stands for itself.
#[tactic(auto, unfolding(crate::specs::Meant::unknown_after))]
fn unknown_name(text: &[u8]) -> &[u8]
    ensures { result.now ≡ unknown_after false text.now }
{
    let mut rest = text;
    let mut sign = false;
    while let Some((byte, after)) = rest.split_first() {
        if sign && !has_name(rest) {
            return letters(rest);
        }
        sign = !sign & (*byte == b'$');
        rest = after;
    }
    rest
}

/// The part of the word of a message that should be a name.
fn name_in(kind: MessageKind, word: &[u8]) -> &[u8]
    ensures { result.now ≡ name_in kind word.now }
{
    match kind {
        MessageKind::UnknownBuiltin => first_word(word),
        MessageKind::BadValue => option_in(word),
        MessageKind::BadSubstitution => unknown_name(word),
        MessageKind::BadAttributeSubstitution => unknown_name(word),
        _ => word,
    }
}

/// The known name that the word of a message may have been meant as, if there is one.
fn meant_by(
    alloc: Global,
    kind: MessageKind,
    word: &[u8],
) -> Result<Option<&'static [u8]>, AllocError>
    ensures { IfOk result (λ found. option_map (λ name. name.now) found ≡ meant_as (about.Message kind) word.now) }
{
    let names = names_for(alloc, kind)?;
    nearest(alloc, names.as_slice(), word_of(name_in(kind, word)))
}

/// The known name that the word of a remark may have been meant as, if there is one.
pub fn meant_as(
    alloc: Global,
    remark: Remark,
    word: &[u8],
) -> Result<Option<&'static [u8]>, AllocError>
    ensures { IfOk result (λ found. option_map (λ name. name.now) found ≡ meant_as remark word.now) }
{
    match remark {
        Remark::Message(kind) => meant_by(alloc, kind, word),
        _ => Ok(None),
    }
}
