//! The words after `hwdb` as udev takes them: options as getopt_long(3) reads them, and a modalias.
//!
//! An option is `--NAME=VALUE`, or `--NAME` with the value in the next word, where NAME may be the beginning of a
//! name; or a letter after `-`, with the value in the rest of the word or in the next one. Unknown options are
//! skipped, and so is each word after the modalias.
ghost use Rattle.std.specs.Prelude.{◌≡◌, option_map, IfOk, OnOk};
ghost use Rattle.eval_commands.specs.UdevHwdb.{letters_given, long_given, named_given};
ghost use Rattle.eval_commands.specs.UdevHwdb.{option_letter, option_lettered, option_name, option_named, took, udev_hwdb_of, with_option, with_word};

use crate::hwdb::{Hwdb, pattern_of};
use std::alloc::{AllocError, Global};
use text_bytes::{Bytes, split_once};

/// An option of `hwdb`.
#[derive(Clone, Copy, PartialEq, Eq)]
pub(crate) enum HwdbOption {
    /// `--filter`, `-f`: which keys count.
    Filter,
    /// `--device`, `-d`: the device to look at instead of the event's, unless there is a modalias.
    Device,
    /// `--subsystem`, `-s`: the subsystem of the devices that are looked up.
    Subsystem,
    /// `--lookup-prefix`, `-p`: what comes before each modalias.
    Prefix,
}

/// All options, no two of which begin alike.
const OPTIONS: [HwdbOption; 4] = [
    HwdbOption::Filter,
    HwdbOption::Device,
    HwdbOption::Subsystem,
    HwdbOption::Prefix,
];

/// What the words so far give.
#[derive(Drop)]
pub(crate) struct Given {
    /// The option that waits for its value.
    pub wanted: Option<HwdbOption>,
    /// Whether no option comes any more.
    pub is_ended: bool,
    /// The last value of each option.
    pub filter: Option<Bytes>,
    pub device: Option<Bytes>,
    pub subsystem: Option<Bytes>,
    pub prefix: Option<Bytes>,
    /// The first word that is not an option.
    pub modalias: Option<Bytes>,
}

impl HwdbOption {
    /// Its name, which follows `--`.
    fn name(self) -> &'static [u8]
        ensures { result.now ≡ option_name self }
    {
        match self {
            HwdbOption::Filter => b"filter",
            HwdbOption::Device => b"device",
            HwdbOption::Subsystem => b"subsystem",
            HwdbOption::Prefix => b"lookup-prefix",
        }
    }

    /// Its letter, which follows `-`.
    fn letter(self) -> u8
        ensures { result ≡ option_letter self }
    {
        match self {
            HwdbOption::Filter => b'f',
            HwdbOption::Device => b'd',
            HwdbOption::Subsystem => b's',
            HwdbOption::Prefix => b'p',
        }
    }

    /// The option whose name begins with a text, if the text is not empty.
    fn named(text: &[u8]) -> Option<HwdbOption>
        ensures { result ≡ option_named text.now }
    {
        if text.is_empty() {
            return None;
        }
        OPTIONS
            .iter()
            .copied()
            .find(|known| known.name().starts_with(text))
    }

    /// The option with a letter.
    fn lettered(letter: u8) -> Option<HwdbOption>
        ensures { result ≡ option_lettered letter }
    {
        OPTIONS
            .iter()
            .copied()
            .find(|known| known.letter() == letter)
    }
}

impl Given {
    /// Gives an option a value.
    fn give(&mut self, alloc: Global, option: HwdbOption, value: &[u8]) -> Result<(), AllocError>
        ensures { OnOk result (self.new ≡ with_option option value.now self.old) }
    {
        let value = Bytes::copy_of(alloc, value)?;
        self.wanted = None;
        match option {
            HwdbOption::Filter => self.filter = Some(value),
            HwdbOption::Device => self.device = Some(value),
            HwdbOption::Subsystem => self.subsystem = Some(value),
            HwdbOption::Prefix => self.prefix = Some(value),
        }
        Ok(())
    }

    /// Takes a word that is not an option.
    fn take_word(&mut self, alloc: Global, word: &[u8]) -> Result<(), AllocError>
        ensures { OnOk result (self.new ≡ with_word word.now self.old) }
    {
        if self.modalias.is_none() {
            self.modalias = Some(Bytes::copy_of(alloc, word)?);
        }
        Ok(())
    }

    /// Takes an option, if there is one by its name, with the value after its `=`, if there is a `=`.
    fn take_named(
        &mut self,
        alloc: Global,
        option: Option<HwdbOption>,
        value: Option<&[u8]>,
    ) -> Result<(), AllocError>
        ensures { OnOk result (self.new ≡ named_given option (option_map (λ t. t.now) value.entry) self.old) }
    {
        let Some(option) = option else {
            return Ok(());
        };
        match value {
            Some(value) => self.give(alloc, option, value),
            None => {
                self.wanted = Some(option);
                Ok(())
            }
        }
    }

    /// Takes what follows `--` in a word.
    fn take_long(&mut self, alloc: Global, text: &[u8]) -> Result<(), AllocError>
        ensures { OnOk result (self.new ≡ long_given text.now self.old) }
    {
        if text.is_empty() {
            self.is_ended = true;
            return Ok(());
        }
        match split_once(b'=', text) {
            Some((name, value)) => self.take_named(alloc, HwdbOption::named(name), Some(value)),
            None => self.take_named(alloc, HwdbOption::named(text), None),
        }
    }

    /// Takes the letters after `-` in a word, up to the first one that is an option.
    fn take_letters(&mut self, alloc: Global, letters: &[u8]) -> Result<(), AllocError>
        ensures { OnOk result (self.new ≡ letters_given letters.now self.old) }
    {
        let mut left = letters;
        while let Some((letter, rest)) = left.split_first() {
            if let Some(option) = HwdbOption::lettered(*letter) {
                let value = if rest.is_empty() { None } else { Some(rest) };
                return self.take_named(alloc, Some(option), value);
            }
            left = rest;
        }
        Ok(())
    }

    /// Takes the next word.
    fn take(&mut self, alloc: Global, word: &[u8]) -> Result<(), AllocError>
        ensures { OnOk result (self.new ≡ took self.old word.now) }
    {
        if let Some(option) = self.wanted {
            return self.give(alloc, option, word);
        }
        if self.is_ended {
            return self.take_word(alloc, word);
        }
        match word.split_first() {
            Some((b'-', rest)) => match rest.split_first() {
                None => self.take_word(alloc, word),
                Some((b'-', name)) => self.take_long(alloc, name),
                Some(_) => self.take_letters(alloc, rest),
            },
            _ => self.take_word(alloc, word),
        }
    }
}

/// The options that the words after `hwdb` mean for udev, if they are valid.
#[tactic(auto, unfolding(crate::specs::UdevHwdb::udev_hwdb_of))]
pub(crate) fn udev_hwdb_of(alloc: Global, words: &[Bytes]) -> Result<Option<Hwdb>, AllocError>
    ensures { IfOk result (λ hwdb. hwdb ≡ udev_hwdb_of words.now) }
{
    let mut given = Given {
        wanted: None,
        is_ended: false,
        filter: None,
        device: None,
        subsystem: None,
        prefix: None,
        modalias: None,
    };
    for word in words {
        given.take(alloc, word.as_slice())?;
    }
    if given.device.is_some() && given.modalias.is_none() {
        return Ok(None);
    }
    let pattern = pattern_of(alloc, given.filter.as_ref().map(Bytes::as_slice))?;
    let Some(filter) = pattern else {
        return Ok(None);
    };
    let Given {
        subsystem,
        prefix,
        modalias,
        ..
    } = given;
    Ok(Some(Hwdb {
        subsystem,
        prefix: prefix.unwrap_or(Bytes::new(Vec::new(alloc))),
        filter,
        modalias,
    }))
}
