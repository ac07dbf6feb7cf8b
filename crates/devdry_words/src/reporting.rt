//! The faults that `devdry` itself reports, each with its text.
ghost use Rattle.std.specs.Prelude.{◌≡◌, ◌++◌, IfOk, string_bytes};
ghost use Rattle.devdry_words.specs.Named.{Explains, IsHelpWith, IsUsageOf};
ghost use Rattle.devdry_words.specs.Refusals.{invalid_value};
ghost use Rattle.file_catalogue.specs.Catalogue.{known_codes};

use engine_sessions::LineFault;
use file_catalogue::{explanation, known_codes};
use std::alloc::{AllocError, Global};

/// Help with this text.
fn help(alloc: Global, text: &str) -> LineFault
    ensures { IsHelpWith (λ said. said ≡ text.now) result }
{
    match String::from_str(alloc, text) {
        Ok(text) => LineFault::Help(text),
        Err(_) => LineFault::Memory,
    }
}

/// Usage with this text.
pub(crate) fn usage(alloc: Global, text: &str) -> LineFault
    ensures { IsUsageOf text.now result }
{
    match String::from_str(alloc, text) {
        Ok(text) => LineFault::Usage(text),
        Err(_) => LineFault::Memory,
    }
}

/// The text on a value that its argument does not take.
fn invalid_value(alloc: Global, value: &str, following: &str) -> Result<String, AllocError>
    ensures { IfOk result (λ text. string_bytes text ≡ invalid_value value.now following.now) }
{
    let mut text = String::from_str(alloc, "error: invalid value '")?;
    text.push_str(value)?;
    text.push_str(following)?;
    Ok(text)
}

/// Usage on a value that its argument does not take, with what follows the value.
pub(crate) fn usage_on_value(alloc: Global, value: &str, following: &str) -> LineFault
    ensures { IsUsageOf (invalid_value value.now following.now) result }
{
    match invalid_value(alloc, value, following) {
        Ok(text) => LineFault::Usage(text),
        Err(_) => LineFault::Memory,
    }
}

/// The codes of all remarks between two texts.
fn codes_between(alloc: Global, before: &str, after: &str) -> Result<String, AllocError>
    ensures { IfOk result (λ text. string_bytes text ≡ before.now ++ known_codes ++ after.now) }
{
    let mut text = String::from_str(alloc, before)?;
    text.push_str(known_codes(alloc)?.as_str())?;
    text.push_str(after)?;
    Ok(text)
}

/// Usage on a value that is not a code, with all codes between the texts that follow the value.
pub(crate) fn usage_on_code(alloc: Global, value: &str, before: &str, after: &str) -> LineFault
    ensures { IsUsageOf (invalid_value value.now (before.now ++ known_codes ++ after.now)) result }
{
    match codes_between(alloc, before, after) {
        Ok(following) => usage_on_value(alloc, value, following.as_str()),
        Err(_) => LineFault::Memory,
    }
}

/// The section on the message of a code, as help, or usage that lists the codes.
pub(crate) fn explained(alloc: Global, code: &str) -> LineFault
    ensures { Explains code.now result }
{
    match explanation(code.as_bytes()) {
        Some(section) => help(alloc, section),
        None => usage_on_code(
            alloc,
            code,
            "' for '<CODE>'\n  [possible values: ",
            "]\n\nFor more information, try '--help'.\n",
        ),
    }
}
