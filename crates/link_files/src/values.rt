//! The values that keys take, as far as they are looked at.
ghost use Rattle.std.specs.Prelude.{◌≡◌, IfOk, map};
ghost use Rattle.std.specs.List.{list_all};
ghost use Rattle.text_tables.specs.Texts.{is_among};
ghost use Rattle.link_files.specs.Values.{are_among, takes};

use crate::booleans::{is_no, is_yes};
use crate::keys::{ADDRESS_POLICIES, ALTERNATIVE_POLICIES, DUPLEX, Form, NAME_POLICIES, WAKES};
use crate::lists::is_list;
use crate::names::is_interface_name;
use crate::words::{WordKind, words_of};
use std::alloc::{AllocError, Global};
use text_bytes::Bytes;
use text_tables::is_among;

/// Whether words are all among these.
fn all_among(known: &[&[u8]], words: &[Bytes]) -> bool
    ensures { result ≡ list_all (is_among (map (λ k. k.now) known.now)) words.now }
{
    words.iter().all(|word| is_among(known, word.as_slice()))
}

/// Whether a value is words that are all among these.
fn are_among(alloc: Global, known: &[&[u8]], value: &[u8]) -> Result<bool, AllocError>
    ensures { IfOk result (λ are. are ≡ are_among (map (λ k. k.now) known.now) value.now) }
{
    let whole = is_list(alloc, WordKind::Plain, value)?;
    let words = words_of(alloc, WordKind::Plain, value)?;
    Ok(whole && all_among(known, &words))
}

/// Whether a key whose values have a form takes a value.
pub(crate) fn takes(alloc: Global, form: Form, value: &[u8]) -> Result<bool, AllocError>
    ensures { IfOk result (λ taken. taken ≡ takes form value.now) }
{
    if value.is_empty() {
        return Ok(true);
    }
    match form {
        Form::Any => Ok(true),
        Form::Names => is_list(alloc, WordKind::Name, value),
        Form::Globs => is_list(alloc, WordKind::Glob, value),
        Form::Properties => is_list(alloc, WordKind::Property, value),
        Form::Name => Ok(is_interface_name(value)),
        Form::Boolean => Ok(is_yes(value) || is_no(value)),
        Form::NamePolicies => are_among(alloc, &NAME_POLICIES, value),
        Form::AlternativePolicies => are_among(alloc, &ALTERNATIVE_POLICIES, value),
        Form::AddressPolicy => Ok(is_among(&ADDRESS_POLICIES, value)),
        Form::Duplex => Ok(is_among(&DUPLEX, value)),
        Form::Wake => are_among(alloc, &WAKES, value),
    }
}
