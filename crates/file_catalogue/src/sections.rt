//! The section on each code.
ghost use Rattle.std.specs.Prelude.{◌≡◌, find, map, option_map};
ghost use Rattle.file_catalogue.specs.Sections.{explanation, is_on, lint_sections, message_sections};

use crate::texts::{LINT_SECTIONS, MESSAGE_SECTIONS};
use text_bytes::up_to;

/// The section on each code of a message.
#[tactic(auto, unfolding(crate::specs::Sections::message_sections))]
fn message_sections() -> &'static [&'static str]
    ensures { map (λ section. section.now) result.now ≡ message_sections }
{
    &MESSAGE_SECTIONS
}

/// The section on each other code.
#[tactic(auto, unfolding(crate::specs::Sections::lint_sections))]
fn lint_sections() -> &'static [&'static str]
    ensures { map (λ section. section.now) result.now ≡ lint_sections }
{
    &LINT_SECTIONS
}

/// Whether a section is that on a code, which may be written with a lower case letter.
fn is_on(section: &str, code: &[u8]) -> bool
    ensures { result ≡ is_on section.now code.now }
{
    up_to(b' ', section.as_bytes()).eq_ignore_ascii_case(code)
}

/// The section on a code among these, if there is one.
fn section_among(sections: &'static [&'static str], code: &[u8]) -> Option<&'static str>
    ensures { result ≡ find (λ section. is_on section.now code.now) sections.now }
{
    sections
        .iter()
        .copied()
        .find(|section| is_on(section, code))
}

/// The section on a code, which may be written with a lower case letter: `V6` or `v6`. Its first line is the code and what it
/// says, and after an empty line come how to fix the file, a file that causes it, and the corrected file. `None` for a text that
/// is not a code.
pub fn explanation(code: &[u8]) -> Option<&'static str>
    ensures { option_map (λ section. section.now) result ≡ explanation code.now }
{
    match section_among(message_sections(), code) {
        Some(section) => Some(section),
        None => section_among(lint_sections(), code),
    }
}
