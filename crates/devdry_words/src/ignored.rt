//! What `--ignore` names.
ghost use Rattle.std.specs.Prelude.{◌≡◌, IfOk, codes, map, option_map, unwrap_or, []};
ghost use Rattle.clap.specs.Words.{found_of, rows_of};
ghost use Rattle.devdry_words.specs.Refusals.{unknown_part};
ghost use Rattle.devdry_words.specs.Values.{texts_of};
ghost use Rattle.file_catalogue.specs.Ignored.{ignored_codes};

use crate::values::{every_value, texts};
use clap::ArgMatches;
use file_catalogue::{ignored_codes as ignored_codes_of, unknown_ignored};
use std::alloc::{AllocError, Global};

/// What the values of `--ignore` name, in their order.
pub(crate) fn ignored_codes<'a>(
    alloc: Global,
    matches: &ArgMatches<'a>,
) -> Result<Vec<&'a str>, AllocError>
    ensures { IfOk result (λ named. map (λ c. c.now) named.items
        ≡ ignored_codes (texts_of (codes "ignore") (rows_of (found_of matches.now)))) }
{
    let values = texts(alloc, matches, "ignore")?;
    ignored_codes_of(alloc, &values)
}

/// The first part of `--ignore` that may not be ignored, if there is one.
pub(crate) fn unknown_part<'a>(matches: &ArgMatches<'a>) -> Option<&'a str>
    ensures { option_map (λ p. p.now) result ≡ unknown_part (rows_of (found_of matches.now)) }
{
    match every_value(matches, "ignore") {
        Some(values) => unknown_ignored(values),
        None => None,
    }
}

/// The same, as a text that is empty if there is none.
pub(crate) fn unknown_text<'a>(matches: &ArgMatches<'a>) -> &'a str
    ensures { result.now ≡ unwrap_or (unknown_part (rows_of (found_of matches.now))) [] }
{
    match unknown_part(matches) {
        Some(part) => part,
        None => "",
    }
}
