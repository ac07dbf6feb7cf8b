//! Words with those of a file of options.
ghost use Rattle.std.specs.List.{list_any};
ghost use Rattle.std.specs.Option.{option_map_or};
ghost use Rattle.std.specs.Prelude.{◌≡◌, ◌↔◌, IfOk, IsTrue, [], codes, map, option_map, string_bytes};
ghost use Rattle.clap.specs.Words.{first_of, found_of, rows_of, subcommand_rows_of};
ghost use Rattle.devdry_words.specs.Options.{added_to, behind_first, has_flag, has_given, has_option, options_in, with_options};

use crate::commands::devdry_command;
use crate::values::{is_given, value};
use clap::ArgMatches;
use clap::error::ErrorKind;
use engine_sessions::{flag_names, has_value_of, is_flag, valued_names};
use std::alloc::{AllocError, Global};

/// The file of options that matches name.
fn named_options<'a>(matches: &ArgMatches<'a>) -> Option<&'a str>
    ensures { option_map (λ p. p.now) result
        ≡ first_of (codes "options") (option_map_or (λ p. p.1) (subcommand_rows_of matches.now) []) }
{
    match matches.subcommand() {
        Some((_, inner)) => value(inner, "options"),
        None => None,
    }
}

/// Whether memory ran out.
fn is_out_of_memory(kind: ErrorKind) -> bool
    ensures { IsTrue result ↔ (kind ≡ ErrorKind.OutOfMemory) }
{
    matches!(kind, ErrorKind::OutOfMemory)
}

/// The file of options that words name, if `clap` takes them.
pub fn options_in<'a>(alloc: Global, words: &'a [String]) -> Result<Option<&'a str>, AllocError>
    ensures { IfOk result (λ path. option_map (λ p. p.now) path ≡ options_in (map string_bytes words.now)) }
{
    let command = devdry_command(alloc)?;
    match command.try_get_matches_from(words) {
        Ok(matches) => Ok(named_options(&matches)),
        Err(error) => {
            if is_out_of_memory(error.kind()) {
                Err(AllocError)
            } else {
                Ok(None)
            }
        }
    }
}

/// Whether matches have a flag, and a word is it.
fn has_flag(matches: &ArgMatches<'_>, word: &str, name: &str) -> bool
    ensures { result ≡ has_flag (rows_of (found_of matches.now)) word.now name.now }
{
    is_flag(word.as_bytes(), name) && is_given(matches, name)
}

/// Whether matches have a value of an option, and a word gives it one.
fn has_option(matches: &ArgMatches<'_>, word: &str, name: &str) -> bool
    ensures { result ≡ has_option (rows_of (found_of matches.now)) word.now name.now }
{
    has_value_of(word.as_bytes(), name) && value(matches, name).is_some()
}

/// Whether matches have a flag that a word is, by the names as they are seen.
fn has_flag_of(matches: &ArgMatches<'_>, word: &str, names: &[&str]) -> bool
    ensures { result ≡ list_any (λ n. has_flag (rows_of (found_of matches.now)) word.now n.now) names.now }
{
    names.iter().any(|name| has_flag(matches, word, name))
}

/// Whether matches have a value of an option that a word gives, by the names as they are seen.
fn has_option_of(matches: &ArgMatches<'_>, word: &str, names: &[&str]) -> bool
    ensures { result ≡ list_any (λ n. has_option (rows_of (found_of matches.now)) word.now n.now) names.now }
{
    names.iter().any(|name| has_option(matches, word, name))
}

/// Whether matches have a flag that a word is.
fn has_one_flag(matches: &ArgMatches<'_>, word: &str, names: &[&str]) -> bool
    ensures { result ≡ list_any (has_flag (rows_of (found_of matches.now)) word.now) (map (λ n. n.now) names.now) }
{
    has_flag_of(matches, word, names)
}

/// Whether matches have a value of an option that a word gives.
fn has_one_option(matches: &ArgMatches<'_>, word: &str, names: &[&str]) -> bool
    ensures { result ≡ list_any (has_option (rows_of (found_of matches.now)) word.now) (map (λ n. n.now) names.now) }
{
    has_option_of(matches, word, names)
}

/// Whether matches have what a word gives, and it can be given once.
fn has_given(matches: &ArgMatches<'_>, word: &str) -> bool
    ensures { result ≡ has_given (rows_of (found_of matches.now)) word.now }
{
    has_one_flag(matches, word, flag_names()) || has_one_option(matches, word, valued_names())
}

/// Copies of words.
fn copies_of(alloc: Global, words: &[String]) -> Result<Vec<String>, AllocError>
    ensures { IfOk result (λ copies. map string_bytes copies.items ≡ map string_bytes words.now) }
{
    let mut copies = Vec::with_capacity(alloc, words.len())?;
    for word in words {
        copies.push(word.clone()?)?;
    }
    Ok(copies)
}

/// What a file adds to words with these matches: its words, without those whose option the matches have, if it can be
/// given once.
fn added_to(
    alloc: Global,
    matches: &ArgMatches<'_>,
    added: &[&str],
) -> Result<Vec<String>, AllocError>
    ensures { IfOk result (λ kept. map string_bytes kept.items ≡ added_to (rows_of (found_of matches.now)) (map (λ w. w.now) added.now)) }
{
    let mut kept = Vec::new(alloc);
    for word in added {
        if !has_given(matches, word) {
            kept.push(String::from_str(alloc, word)?)?;
        }
    }
    Ok(kept)
}

/// Words with those that a file adds to them, by their matches.
fn words_with(
    alloc: Global,
    words: &[String],
    matches: &ArgMatches<'_>,
    added: &[&str],
) -> Result<Vec<String>, AllocError>
    ensures { IfOk result (λ all. map string_bytes all.items
        ≡ behind_first (added_to (rows_of (found_of matches.now)) (map (λ w. w.now) added.now)) (map string_bytes words.now)) }
{
    let mut all = Vec::new(alloc);
    if let Some((name, others)) = words.split_first() {
        all.push(name.clone()?)?;
        all.append(&mut added_to(alloc, matches, added)?)?;
        all.append(&mut copies_of(alloc, others)?)?;
    }
    Ok(all)
}

/// Words with those that a file adds to them, by all matches: `clap` names a subcommand in words that it takes.
fn words_by(
    alloc: Global,
    words: &[String],
    matches: &ArgMatches<'_>,
    added: &[&str],
) -> Result<Vec<String>, AllocError>
    ensures { IfOk result (λ all. map string_bytes all.items
        ≡ behind_first (added_to (option_map_or (λ p. p.1) (subcommand_rows_of matches.now) []) (map (λ w. w.now) added.now)) (map string_bytes words.now)) }
{
    match matches.subcommand() {
        Some((_, inner)) => words_with(alloc, words, inner, added),
        None => Err(AllocError),
    }
}

/// Words with those that a file adds: these follow the first one, which names the subcommand. One whose option the
/// others give is left out if it can be given once, so that the command line counts.
///
/// The words are those of which `options_in` gave a file. An error means that memory ran out.
pub fn with_options(
    alloc: Global,
    words: &[String],
    added: &[&str],
) -> Result<Vec<String>, AllocError>
    ensures { IfOk result (λ all. map string_bytes all.items ≡ with_options (map (λ w. w.now) added.now) (map string_bytes words.now)) }
{
    let command = devdry_command(alloc)?;
    match command.try_get_matches_from(words) {
        Ok(matches) => words_by(alloc, words, &matches, added),
        Err(_) => Err(AllocError),
    }
}
