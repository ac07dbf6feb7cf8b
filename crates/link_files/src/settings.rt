//! What `.link` files set.
ghost use Rattle.std.specs.Prelude.{◌≡◌, ◌∷◌, List, OnOk, fold, option_map};
ghost use Rattle.std.specs.List.{list_all};
ghost use Rattle.text_bytes.specs.Text.{Text};
ghost use Rattle.link_files.specs.Lines.{joined_from};
ghost use Rattle.link_files.specs.Settings.{is_section_byte, section_of, unmarked, with_file, with_line};
ghost use Rattle.link_files.specs.Settings.{with_section, with_setting};

use crate::lines::{bare, is_comment, is_continued, stripped};
use std::alloc::{AllocError, Global};
use std::marker::Model;
use text_bytes::{Bytes, begins_with, ends_in, first_line, is_utf8, split_once, without_last};

/// A setting: a value of a key in a section.
#[derive(Drop)]
pub struct Setting {
    /// The section; empty before the first.
    pub section: Bytes,
    /// The key.
    pub key: Bytes,
    /// The value, which may be empty.
    pub value: Bytes,
}

/// What was read of some files so far.
#[derive(Drop)]
pub(crate) struct Reading {
    /// Whether each line could be read.
    pub(crate) is_sound: bool,
    /// The section that has begun.
    pub(crate) section: Bytes,
    /// What was set.
    pub(crate) settings: Vec<Setting>,
}

impl Model for Reading {
    ghost use Rattle.link_files.specs.Settings.{ReadingValue};

    ghost Value = { ReadingValue };

    ghost view = { λ r. record { is_sound = r.is_sound; section = r.section; settings = r.settings.items } };
}

/// Whether all bytes of a text may be in the name of a section.
fn has_section_bytes(text: &[u8]) -> bool
    ensures { result ≡ list_all is_section_byte text.now }
{
    text.iter().all(|byte| {
        !(*byte < 0x20 || *byte == 0x7F || *byte == b'"' || *byte == b'\'' || *byte == b'\\')
    })
}

/// The section that a line begins which begins with `[`.
#[tactic(auto, unfolding(crate::specs::Settings::section_of))]
pub fn section_of(text: &[u8]) -> Option<&[u8]>
    ensures { option_map (λ t. t.now) result ≡ section_of text.now }
{
    let inner = text.get(1..).unwrap_or(b"");
    let name = inner.get(..text.len().saturating_sub(2)).unwrap_or(inner);
    if ends_in(b']', text) && has_section_bytes(name) {
        Some(name)
    } else {
        None
    }
}

/// A file without the mark of UTF-8 at its start.
pub fn unmarked(bytes: &[u8]) -> &[u8]
    ensures { result.now ≡ unmarked bytes.now }
{
    if bytes.starts_with(b"\xEF\xBB\xBF") {
        bytes.split_at(3).1
    } else {
        bytes
    }
}

impl Reading {
    /// Begins a section.
    fn take_section(&mut self, alloc: Global, name: Option<&[u8]>) -> Result<(), AllocError>
        ensures { OnOk result (self.new ≡ with_section self.old (option_map (λ t. t.now) name.entry)) }
    {
        match name {
            Some(name) => {
                self.section = Bytes::copy_of(alloc, name)?;
            }
            None => {
                self.is_sound = false;
            }
        }
        Ok(())
    }

    /// Adds a setting of the section that has begun.
    fn add_setting(&mut self, alloc: Global, key: &[u8], value: &[u8]) -> Result<(), AllocError>
        ensures { OnOk result (self.new ≡ with_setting self.old key.now value.now) }
    {
        let setting = Setting {
            section: Bytes::copy_of(alloc, self.section.as_slice())?,
            key: Bytes::copy_of(alloc, key)?,
            value: Bytes::copy_of(alloc, value)?,
        };
        Ok(self.settings.push(setting)?)
    }

    /// Takes a line that was put together.
    #[tactic(auto, unfolding(crate::specs::Settings::with_line))]
    fn take_line(&mut self, alloc: Global, line: &[u8]) -> Result<(), AllocError>
        ensures { OnOk result (self.new ≡ with_line self.old line.now) }
    {
        let text = stripped(line);
        if text.is_empty() {
            return Ok(());
        }
        if !is_utf8(text) {
            self.is_sound = false;
            return Ok(());
        }
        if begins_with(b'[', text) {
            return self.take_section(alloc, section_of(text));
        }
        match split_once(b'=', text) {
            Some((key, value)) => self.add_setting(alloc, stripped(key), stripped(value)),
            None => Ok(()),
        }
    }
}

/// Takes a line of a file, after what is held of the lines that it continues.
#[tactic(auto, unfolding(crate::specs::Lines::joined_from))]
fn take_part(
    alloc: Global,
    reading: &mut Reading,
    held: &mut Vec<u8>,
    line: &[u8],
) -> Result<(), AllocError>
    ensures { OnOk result ((following : List Text)
        → fold with_line reading.new (joined_from held.new.items following)
        ≡ fold with_line reading.old (joined_from held.old.items (line.now ∷ following))) }
{
    if is_comment(line) {
        return Ok(());
    }
    let line = bare(line);
    if is_continued(line) {
        held.extend_from_slice(without_last(line))?;
        held.push(b' ')?;
        return Ok(());
    }
    held.extend_from_slice(line)?;
    reading.take_line(alloc, held)?;
    held.clear();
    Ok(())
}

/// Takes a file after those before it.
#[tactic(auto, unfolding(crate::specs::Settings::with_file, crate::specs::Lines::joined_from))]
pub(crate) fn take_file(
    alloc: Global,
    reading: &mut Reading,
    bytes: &[u8],
) -> Result<(), AllocError>
    ensures { OnOk result (reading.new ≡ with_file reading.old bytes.now) }
{
    reading.section = Bytes::new(Vec::new(alloc));
    let mut held = Vec::new(alloc);
    let mut rest = unmarked(bytes);
    'lines: while !rest.is_empty() {
        let (line, following) = first_line(rest);
        rest = following;
        take_part(alloc, reading, &mut held, line)?;
    }
    reading.take_line(alloc, &held)
}
