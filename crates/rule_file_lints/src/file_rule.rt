//! A rule of a file.
ghost use Rattle.std.specs.Prelude.{◌≡◌, option_map};
ghost use Rattle.rule_file_lints.specs.Steps.{rule_in};

use rule_core::{Draft, LandedReading};
use rule_types::Landing;
use std::marker::Model;

/// A rule of a file, as its line was read. Where it is in the file does not matter to what is said of it here.
#[derive(Drop)]
pub(crate) struct FileRule<'r, 'a> {
    /// What its line says.
    pub draft: &'r Draft<'a>,
    /// What becomes of its jump and of its label.
    pub landing: Landing,
}

impl<'r, 'a> Model for FileRule<'r, 'a> {
    ghost use Rattle.rule_file_lints.specs.FileRules as rules;

    ghost Value = { rules.FileRule };

    ghost view = { λ r. record { number = 0; start = 0; draft = r.draft.now; landing = r.landing } };
}

impl<'r, 'a> FileRule<'r, 'a> {
    /// The rule of a line, if it was read as one.
    pub(crate) fn of(line: &'r LandedReading<'a>) -> Option<FileRule<'r, 'a>>
        ensures { result ≡ rule_in line.now.0.read line.now.1 }
    {
        let reading = &line.reading;
        match &reading.read {
            Ok(draft) => Some(FileRule {
                draft,
                landing: line.landing,
            }),
            Err(_) => None,
        }
    }
}
