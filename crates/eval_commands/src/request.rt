//! What a command of `hwdb` without quotes asks for, as it stands in the command.
//!
//! Most commands have no quotes and no filter, and are read here without a copy. All others are left to
//! [`Builtin::read`](crate::builtin::Builtin::read).
ghost use Rattle.std.specs.Prelude.{◌≡◌, option_map};
ghost use Rattle.eval_commands.specs.Unquoted.{asked_of, no_request, other_name, request_from, spaced_words, with_word};

use crate::hwdb::{Hwdb, PREFIX, SUBSYSTEM};
use crate::unquoted::{cut_word, has_quote};
use std::marker::Model;
use text_bytes::{Bytes, Profile, begins_with, split_once};
use text_core::Pattern;

/// What the builtin `hwdb` is asked for, borrowed.
#[derive(Drop)]
pub struct Request<'a> {
    /// The subsystem of the devices that are looked up.
    pub subsystem: Option<&'a [u8]>,
    /// What comes before each modalias.
    pub prefix: &'a [u8],
    /// Which keys count.
    pub filter: Option<&'a Pattern>,
    /// The modalias that is looked up instead of those of devices.
    pub modalias: Option<&'a [u8]>,
}

impl<'a> Model for Request<'a> {
    ghost use Rattle.std.specs.Prelude.{option_map};
    ghost use Rattle.eval_commands.specs.declared.hwdb.Hwdb.{Hwdb};

    ghost Value = { Hwdb };

    ghost view = { λ r. record {
      subsystem = option_map (λ t. t.now) r.subsystem;
      prefix = r.prefix.now;
      filter = option_map (λ p. p.now) r.filter;
      modalias = option_map (λ t. t.now) r.modalias;
    } };
}

impl<'a> Request<'a> {
    /// What these options ask for.
    pub fn of(hwdb: &'a Hwdb) -> Request<'a>
        ensures { result ≡ hwdb.now }
    {
        Request {
            subsystem: hwdb.subsystem.as_ref().map(Bytes::as_slice),
            prefix: hwdb.prefix.as_slice(),
            filter: hwdb.filter.as_ref(),
            modalias: hwdb.modalias.as_ref().map(Bytes::as_slice),
        }
    }

    /// The same with one more word; `None` if it is a second modalias, a filter or an unknown option.
    fn with_word(self, word: &'a [u8]) -> Option<Request<'a>>
        ensures { result ≡ with_word word.now self.entry }
    {
        if !begins_with(b'-', word) {
            return match self.modalias {
                Some(_) => None,
                None => Some(Request {
                    modalias: Some(word),
                    ..self
                }),
            };
        }
        let (name, value) = split_once(b'=', word)?;
        if name == SUBSYSTEM {
            return Some(Request {
                subsystem: Some(value),
                ..self
            });
        }
        if name == PREFIX {
            return Some(Request {
                prefix: value,
                ..self
            });
        }
        None
    }

    /// What the words of a text ask for that spaces split.
    fn read(text: &'a [u8]) -> Option<Request<'a>>
        ensures { result ≡ request_from no_request (spaced_words text.now) }
    {
        let mut request = Request {
            subsystem: None,
            prefix: b"",
            filter: None,
            modalias: None,
        };
        let mut rest = text;
        while let Some((word, after)) = cut_word(rest) {
            request = request.with_word(word)?;
            rest = after;
        }
        Some(request)
    }
}

/// The name of another builtin than `hwdb`, as it stands in a command by the manual without quotes.
pub fn other_name(profile: Profile, command: &[u8]) -> Option<&[u8]>
    ensures { option_map (λ name. name.now) result ≡ other_name profile command.now }
{
    let (name, _) = cut_word(command)?;
    match profile {
        Profile::Manual if name != b"hwdb".as_slice() && !has_quote(command) => Some(name),
        _ => None,
    }
}

/// What a command of `hwdb` by the manual without quotes asks for, unless it has a filter or bad arguments.
pub fn request_of(profile: Profile, command: &[u8]) -> Option<Request<'_>>
    ensures { result ≡ asked_of profile command.now }
{
    let (name, words) = cut_word(command)?;
    match profile {
        Profile::Manual if name == b"hwdb".as_slice() && !has_quote(command) => Request::read(
            words,
        ),
        _ => None,
    }
}
