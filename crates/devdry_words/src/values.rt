//! The values of a subcommand's arguments.
//!
//! An argument that a subcommand does not take has no value there, so that the same questions can be asked of the
//! matches of each.
ghost use Rattle.std.specs.Prelude.{◌≡◌, IfOk, map, option_map};
ghost use Rattle.clap.specs.Words.{all_of, first_of, found_of, rows_of};
ghost use Rattle.devdry_words.specs.Values.{has_value, is_empty_text, is_set, text_of, texts_of};

use clap::ArgMatches;
use std::alloc::{AllocError, Global};

/// The value of an argument, if it was given.
pub(crate) fn value<'a>(matches: &ArgMatches<'a>, id: &str) -> Option<&'a str>
    ensures { option_map (λ t. t.now) result ≡ first_of id.now (rows_of (found_of matches.now)) }
{
    matches.get_str(id)
}

/// The value of an argument, empty if it was not given.
pub(crate) fn text<'a>(matches: &ArgMatches<'a>, id: &str) -> &'a str
    ensures { result.now ≡ text_of id.now (rows_of (found_of matches.now)) }
{
    match value(matches, id) {
        Some(text) => text,
        None => "",
    }
}

/// Whether a flag was given.
pub(crate) fn is_given(matches: &ArgMatches<'_>, id: &str) -> bool
    ensures { result ≡ is_set id.now (rows_of (found_of matches.now)) }
{
    match value(matches, id) {
        Some(text) => text == "true",
        None => false,
    }
}

/// Whether an argument was given an empty value.
pub(crate) fn is_empty(matches: &ArgMatches<'_>, id: &str) -> bool
    ensures { result ≡ is_empty_text id.now (rows_of (found_of matches.now)) }
{
    match value(matches, id) {
        Some(text) => text.is_empty(),
        None => false,
    }
}

/// The values of an argument, if it was given.
pub(crate) fn every_value<'b, 'a>(matches: &'b ArgMatches<'a>, id: &str) -> Option<&'b [&'a str]>
    ensures { option_map (λ ts. map (λ t. t.now) ts.now) result
        ≡ all_of id.now (rows_of (found_of matches.now)) }
{
    matches.get_strs(id)
}

/// The values of an argument in their order, none if it was not given.
pub(crate) fn texts<'a>(
    alloc: Global,
    matches: &ArgMatches<'a>,
    id: &str,
) -> Result<Vec<&'a str>, AllocError>
    ensures { IfOk result (λ texts. map (λ t. t.now) texts.items
        ≡ texts_of id.now (rows_of (found_of matches.now))) }
{
    match every_value(matches, id) {
        Some(texts) => Vec::from_slice(alloc, texts),
        None => Ok(Vec::new(alloc)),
    }
}

/// Whether an argument has a value.
pub(crate) fn has_value(matches: &ArgMatches<'_>, id: &str) -> bool
    ensures { result ≡ has_value id.now (rows_of (found_of matches.now)) }
{
    match every_value(matches, id) {
        Some(texts) => !texts.is_empty(),
        None => false,
    }
}
