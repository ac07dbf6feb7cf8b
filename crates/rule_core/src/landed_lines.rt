//! The joined lines of a file that are read as rules one by one.
ghost use Rattle.std.specs.Prelude.{◌≡◌, IfOk, drop, map, zip};
ghost use Rattle.rule_core.specs.Rules.{reading_of};
ghost use Rattle.text_bytes.specs.Texts.{first};

use crate::joined::JoinedLine;
use crate::readings::{LandedReading, read_line};
use rule_types::Landing;
use std::alloc::{AllocError, Global};
use std::marker::Model;
use text_bytes::Profile;

/// Joined lines, each of which is read when it is asked for, so that no other is held meanwhile.
#[derive(Drop)]
pub struct LandedLines<'a> {
    profile: Profile,
    lines: &'a [JoinedLine<'a>],
    landings: &'a [Landing],
}

impl<'a> Model for LandedLines<'a> {
    ghost use Rattle.std.specs.Prelude.{List, map, zip};
    ghost use Rattle.rule_types.specs.declared.jumps.Landing as jumps;
    ghost use Rattle.rule_core.specs.Rules as rules;

    ghost Value = { List (rules.Reading × jumps.Landing) };

    ghost view = { λ l. zip (map (rules.reading_of l.profile) l.lines.now) l.landings.now };
}

impl<'a> LandedLines<'a> {
    /// Joined lines, with what becomes of the jump and of the label of each.
    pub fn new(
        profile: Profile,
        lines: &'a [JoinedLine<'a>],
        landings: &'a [Landing],
    ) -> LandedLines<'a>
        ensures { result ≡ zip (map (reading_of profile) lines.now) landings.now }
    {
        LandedLines {
            profile,
            lines,
            landings,
        }
    }

    /// Reads the first line, if there is one.
    pub fn first(&self, alloc: Global) -> Result<Option<LandedReading<'a>>, AllocError>
        ensures { IfOk result (λ line. line ≡ first self.now) }
    {
        match self.lines.first() {
            None => Ok(None),
            Some(line) => match self.landings.first() {
                None => Ok(None),
                Some(landing) => Ok(Some(LandedReading {
                    reading: read_line(alloc, self.profile, line)?,
                    landing: *landing,
                })),
            },
        }
    }

    /// The same lines.
    pub fn copied(&self) -> LandedLines<'a>
        ensures { result ≡ self.now }
    {
        LandedLines {
            profile: self.profile,
            lines: self.lines,
            landings: self.landings,
        }
    }

    /// The lines after the first.
    pub fn others(&self) -> LandedLines<'a>
        ensures { result ≡ drop 1 self.now }
    {
        LandedLines {
            profile: self.profile,
            lines: &self.lines[self.lines.len().min(1)..],
            landings: &self.landings[self.landings.len().min(1)..],
        }
    }
}
