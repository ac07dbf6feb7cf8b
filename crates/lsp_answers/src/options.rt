//! The settings that words of options ask for.
ghost use Rattle.std.specs.Prelude.{◌≡◌, ◌++◌, IfErr, IfOk, Ok, map, option_map};
ghost use Rattle.engine_sessions.specs.Places.{word_part};
ghost use Rattle.lsp_answers.specs.Faults.{AnswersWords};
ghost use Rattle.lsp_answers.specs.Options.{asked_for, first_other, ignore_value, ignore_values, settings_by, settings_of};
ghost use Rattle.lsp_answers.specs.declared.options.SettingsFault.TheVariants.{Memory, Words};

use crate::settings::Settings;
use engine_sessions::{is_word, push_word};
use file_catalogue::{ignored_codes, unknown_ignored};
use std::alloc::{AllocError, Global};
use text_bytes::{Bytes, Profile};
use text_tables::is_name_among;

/// Why words give no settings.
#[derive(Drop)]
pub enum SettingsFault {
    /// A word is no option, or names an unknown code. This is said about the first such word.
    Words(Bytes),
    /// Memory ran out.
    Memory,
}

impl From<AllocError> for SettingsFault {
    ghost from_gives = { λ _ fault. fault ≡ Memory };

    fn from(_error: AllocError) -> SettingsFault {
        SettingsFault::Memory
    }
}

/// The first word that is no option, if there is one.
fn first_other<'a>(words: &[&'a str]) -> Option<&'a str>
    ensures { option_map (λ w. w.now) result ≡ first_other (map (λ w. w.now) words.now) }
{
    for word in words {
        if !is_word(word.as_bytes()) {
            return Some(word);
        }
    }
    None
}

/// The value of a word that is `--ignore`.
fn ignore_value(word: &str) -> Option<&str>
    ensures { option_map (λ v. v.now) result ≡ ignore_value word.now }
{
    word.strip_prefix("--ignore=")
}

/// The values of `--ignore` among words.
fn ignore_values<'a>(alloc: Global, words: &[&'a str]) -> Result<Vec<&'a str>, AllocError>
    ensures { IfOk result (λ values. map (λ v. v.now) values.items ≡ ignore_values (map (λ w. w.now) words.now)) }
{
    let mut values = Vec::new(alloc);
    for word in words {
        if let Some(value) = ignore_value(word) {
            values.push(value)?;
        }
    }
    Ok(values)
}

/// Codes that are held.
fn held(alloc: Global, codes: &[&str]) -> Result<Vec<Bytes>, AllocError>
    ensures { IfOk result (λ held. held.items ≡ map (λ c. c.now) codes.now) }
{
    let mut held = Vec::new(alloc);
    for code in codes {
        held.push(Bytes::copy_of(alloc, code.as_bytes())?)?;
    }
    Ok(held)
}

/// The settings that words ask for, with these values of `--ignore`.
fn settings_by(alloc: Global, words: &[&str], values: &[&str]) -> Result<Settings, AllocError>
    requires { map (λ v. v.now) values.now ≡ ignore_values (map (λ w. w.now) words.now) }
    ensures { IfOk result (λ settings. settings ≡ settings_by (map (λ w. w.now) words.now)) }
{
    let strict = is_name_among(words, "--strict");
    let udev = strict || is_name_among(words, "--udev");
    let codes = ignored_codes(alloc, values)?;
    Ok(Settings {
        profile: if udev { Profile::Udev } else { Profile::Manual },
        style: !is_name_among(words, "--no-style"),
        lint: strict || is_name_among(words, "--lint"),
        ignored: held(alloc, &codes)?,
    })
}

/// What is said about a word that there is not.
fn refusal(alloc: Global, what: &str, word: &str) -> Result<SettingsFault, AllocError>
    ensures { IfOk result (λ fault. fault ≡ Words (what.now ++ word_part word.now)) }
{
    let mut said = Vec::from_slice(alloc, what.as_bytes())?;
    push_word(alloc, &mut said, word.as_bytes())?;
    Ok(SettingsFault::Words(Bytes::new(said)))
}

/// The settings that words ask for, each of which is an option.
fn asked_for(alloc: Global, words: &[&str]) -> Result<Settings, SettingsFault>
    ensures settings { IfOk result (λ settings. asked_for (map (λ w. w.now) words.now) ≡ Ok settings) }
    ensures fault { IfErr result (AnswersWords (asked_for (map (λ w. w.now) words.now))) }
{
    let values = ignore_values(alloc, words)?;
    match unknown_ignored(&values) {
        Some(part) => Err(refusal(alloc, "no such code", part)?),
        None => Ok(settings_by(alloc, words, &values)?),
    }
}

/// The settings that words ask for: those that a file of options of `devdry verify` may have, one a line. Of them `--strict`,
/// `--udev`, `--lint`, `--no-style` and `--ignore` count; what is about files, folders and outputs asks for nothing here.
///
/// `SettingsFault::Words` comes if one of the words is no such option, or if `--ignore` names a code that there is not, with
/// what is said about the first of these.
#[tactic(auto, unfolding(crate::specs::Options::settings_of))]
pub fn settings_of(alloc: Global, words: &[&str]) -> Result<Settings, SettingsFault>
    ensures settings { IfOk result (λ settings. settings_of (map (λ w. w.now) words.now) ≡ Ok settings) }
    ensures fault { IfErr result (AnswersWords (settings_of (map (λ w. w.now) words.now))) }
{
    match first_other(words) {
        Some(word) => Err(refusal(alloc, "no such option", word)?),
        None => asked_for(alloc, words),
    }
}
