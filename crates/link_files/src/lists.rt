//! The values that `.link` files give a key.
ghost use Rattle.std.specs.Prelude.{◌≡◌, ◌++◌, IfOk, OnOk};
ghost use Rattle.std.specs.List.{list_all};
ghost use Rattle.link_files.specs.Lists.{counts, is_list, is_negated, is_of, is_property, is_property_byte, is_property_name, last_of, list_of};
ghost use Rattle.link_files.specs.Lists.{signed, texts_of, unsigned, with_texts_of};

use crate::names::is_interface_name;
use crate::settings::Setting;
use crate::words::{WordKind, is_whole, words_of};
use std::alloc::{AllocError, Global};
use text_bytes::{Bytes, begins_with, is_digit, split_once};

/// The section that says for which interfaces a file is.
pub const MATCH: &[u8] = b"Match";

/// The section that says what becomes of them.
pub const LINK: &[u8] = b"Link";

/// Whether a setting is of a section and a key.
pub fn is_of(section: &[u8], key: &[u8], setting: &Setting) -> bool
    ensures { result ≡ is_of section.now key.now setting.now }
{
    setting.section.as_slice() == section && setting.key.as_slice() == key
}

/// Whether all bytes of a text may be in the name of a property.
fn has_property_bytes(text: &[u8]) -> bool
    ensures { result ≡ list_all is_property_byte text.now }
{
    text.iter()
        .all(|byte| byte.is_ascii_alphanumeric() || *byte == b'_')
}

/// Whether a text may be the name of a property.
#[tactic(auto, unfolding(crate::specs::Lists::is_property_name))]
fn is_property_name(name: &[u8]) -> bool
    ensures { result ≡ is_property_name name.now }
{
    match name.first() {
        Some(byte) => !is_digit(*byte) && has_property_bytes(name),
        None => false,
    }
}

/// Whether a word is the name of a property and a value.
fn is_property(word: &[u8]) -> bool
    ensures { result ≡ is_property word.now }
{
    match split_once(b'=', word) {
        Some((name, _)) => is_property_name(name),
        None => false,
    }
}

/// Whether a word counts among those of its kind.
fn counts(kind: WordKind, word: &[u8]) -> bool
    ensures { result ≡ counts kind word.now }
{
    match kind {
        WordKind::Plain | WordKind::Glob => true,
        WordKind::Name => is_interface_name(word),
        WordKind::Property => is_property(word),
    }
}

/// Whether the words of a value are negated.
fn is_negated(kind: WordKind, value: &[u8]) -> bool
    ensures { result ≡ is_negated kind value.now }
{
    match kind {
        WordKind::Plain => false,
        WordKind::Name | WordKind::Glob | WordKind::Property => begins_with(b'!', value),
    }
}

/// A value without the sign before all its words.
fn unsigned(kind: WordKind, value: &[u8]) -> &[u8]
    ensures { result.now ≡ unsigned kind value.now }
{
    if is_negated(kind, value) {
        value.get(1..).unwrap_or(b"")
    } else {
        value
    }
}

/// A word with its sign.
fn signed(alloc: Global, negated: bool, word: &[u8]) -> Result<Bytes, AllocError>
    ensures { IfOk result (λ text. text ≡ signed negated word.now) }
{
    if !negated {
        return Bytes::copy_of(alloc, word);
    }
    let mut text = Vec::from_slice(alloc, b"!")?;
    text.extend_from_slice(word)?;
    Ok(Bytes::new(text))
}

/// Adds the words of a value that count, each with its sign.
#[tactic(auto, unfolding(crate::specs::Lists::texts_of))]
fn add_texts(
    alloc: Global,
    kind: WordKind,
    value: &[u8],
    held: &mut Vec<Bytes>,
) -> Result<(), AllocError>
    ensures { OnOk result (held.new.items ≡ held.old.items ++ texts_of kind value.now) }
{
    let negated = is_negated(kind, value);
    let words = words_of(alloc, kind, unsigned(kind, value))?;
    for word in &words {
        if counts(kind, word.as_slice()) {
            held.push(signed(alloc, negated, word.as_slice())?)?;
        }
    }
    Ok(())
}

/// Whether all words count.
fn all_count(kind: WordKind, words: &[Bytes]) -> bool
    ensures { result ≡ list_all (counts kind) words.now }
{
    words.iter().all(|word| counts(kind, word.as_slice()))
}

/// Whether a value is a list of words that count, all of them: none is left out by `list_of`.
#[tactic(auto, unfolding(crate::specs::Lists::is_list))]
pub fn is_list(alloc: Global, kind: WordKind, value: &[u8]) -> Result<bool, AllocError>
    ensures { IfOk result (λ list. list ≡ is_list kind value.now) }
{
    let value = unsigned(kind, value);
    let whole = is_whole(alloc, kind, value)?;
    let words = words_of(alloc, kind, value)?;
    Ok(whole && all_count(kind, &words))
}

/// Takes one more setting for the words of a key.
#[tactic(auto, unfolding(crate::specs::Lists::with_texts_of))]
fn take_setting(
    alloc: Global,
    kind: WordKind,
    key: &[u8],
    setting: &Setting,
    held: &mut Vec<Bytes>,
) -> Result<(), AllocError>
    ensures { OnOk result (held.new.items ≡ with_texts_of kind key.now held.old.items setting.now) }
{
    if !is_of(MATCH, key, setting) {
        return Ok(());
    }
    let value = setting.value.as_slice();
    if value.is_empty() {
        held.clear();
        return Ok(());
    }
    add_texts(alloc, kind, value, held)
}

/// The words that are given for a key of `[Match]`.
#[tactic(auto, unfolding(crate::specs::Lists::list_of))]
pub fn list_of(
    alloc: Global,
    kind: WordKind,
    key: &[u8],
    settings: &[Setting],
) -> Result<Vec<Bytes>, AllocError>
    ensures { IfOk result (λ words. words.items ≡ list_of kind key.now settings.now) }
{
    let mut held = Vec::new(alloc);
    for setting in settings {
        take_setting(alloc, kind, key, setting, &mut held)?;
    }
    Ok(held)
}

/// The value that is given last for a key; empty if none is.
#[tactic(auto, unfolding(crate::specs::Lists::last_of))]
pub fn last_of<'a>(section: &[u8], key: &[u8], settings: &'a [Setting]) -> &'a [u8]
    ensures { result.now ≡ last_of section.now key.now settings.now }
{
    let mut held: &[u8] = b"";
    for setting in settings {
        if is_of(section, key, setting) {
            held = setting.value.as_slice();
        }
    }
    held
}
