//! What a builtin's command asks for.
ghost use Rattle.std.specs.Prelude.{◌≡◌, IfOk};
ghost use Rattle.rule_types.specs.Builtins as udev;
ghost use Rattle.eval_commands.specs.Builtins.{builtin, builtin_meant, builtin_of, builtin_question, hwdb_asked};
ghost use Rattle.eval_commands.specs.Words.{command_words};

use crate::hwdb::{Hwdb, hwdb_of};
use crate::udev_hwdb::udev_hwdb_of;
use crate::words::{command_words, udev_words};
use rule_types::builtin_of;
use std::alloc::{AllocError, Global};
use text_bytes::{Bytes, Profile};

/// What the command of an IMPORT{builtin} asks for, as udev(7) has it.
#[derive(Drop)]
pub enum Builtin {
    /// The hardware database is looked up.
    Hwdb(Hwdb),
    /// For udev only: `input_id`.
    InputId,
    /// For udev only: `net_id`.
    NetId,
    /// For udev only: `net_setup_link` without an argument.
    NetSetupLink,
    /// For udev only: `path_id`.
    PathId,
    /// For udev only: `usb_id`.
    UsbId,
    /// For udev only: `keyboard`, `kmod` or `uaccess`, which set nothing.
    SetsNothing,
    /// For udev only: `net_setup_link` with an argument, with which it fails.
    Fails,
    /// For udev only: another builtin, which is not run but answered by a block: its whole name, or the command if it
    /// means none.
    Answered(Bytes),
    /// By the manual: another builtin, which is not run: the first word of the command, empty if it has none.
    Other(Bytes),
    /// A quote stays open, whatever the builtin; or the words after `hwdb` are not its arguments.
    BadArguments,
}

/// What the options of `hwdb` ask for, if they are valid.
fn hwdb_asked(hwdb: Option<Hwdb>) -> Builtin
    ensures { result ≡ hwdb_asked hwdb }
{
    match hwdb {
        Some(hwdb) => Builtin::Hwdb(hwdb),
        None => Builtin::BadArguments,
    }
}

/// What a command asks for by the manual.
fn read_as_manual(alloc: Global, command: &[u8]) -> Result<Builtin, AllocError>
    ensures { IfOk result (λ b. b ≡ builtin_of (command_words command.now)) }
{
    let Some(words) = command_words(alloc, command)? else {
        return Ok(Builtin::BadArguments);
    };
    let Some((name, arguments)) = words.split_first() else {
        return Ok(Builtin::Other(Bytes::new(Vec::new(alloc))));
    };
    if name.as_slice() != b"hwdb".as_slice() {
        return Ok(Builtin::Other(Bytes::copy_of(alloc, name.as_slice())?));
    }
    Ok(hwdb_asked(hwdb_of(alloc, arguments)?))
}

/// What a command asks for as udev has it.
fn read_as_udev(alloc: Global, command: &[u8]) -> Result<Builtin, AllocError>
    ensures { IfOk result (λ b. b ≡ builtin_meant (udev.builtin_of command.now) command.now) }
{
    match builtin_of(command) {
        Some(rule_types::Builtin::Hwdb) => {
            let words = udev_words(alloc, command)?;
            let arguments = words.get(1..).unwrap_or(&[]);
            Ok(hwdb_asked(udev_hwdb_of(alloc, arguments)?))
        }
        Some(rule_types::Builtin::InputId) => Ok(Builtin::InputId),
        Some(rule_types::Builtin::NetId) => Ok(Builtin::NetId),
        Some(rule_types::Builtin::NetSetupLink) => {
            let words = udev_words(alloc, command)?;
            Ok(if words.len() > 1 {
                Builtin::Fails
            } else {
                Builtin::NetSetupLink
            })
        }
        Some(rule_types::Builtin::PathId) => Ok(Builtin::PathId),
        Some(rule_types::Builtin::UsbId) => Ok(Builtin::UsbId),
        Some(
            rule_types::Builtin::Keyboard
            | rule_types::Builtin::Kmod
            | rule_types::Builtin::Uaccess,
        ) => Ok(Builtin::SetsNothing),
        Some(other) => Ok(Builtin::Answered(Bytes::copy_of(alloc, other.name())?)),
        None => Ok(Builtin::Answered(Bytes::copy_of(alloc, command)?)),
    }
}

/// The question by which a block answers the command of a builtin that is not computed: `builtin COMMAND`.
pub fn builtin_question(alloc: Global, command: &[u8]) -> Result<Bytes, AllocError>
    ensures { IfOk result (λ question. question ≡ builtin_question command.now) }
{
    let mut question = Vec::from_slice(alloc, b"builtin ")?;
    question.extend_from_slice(command)?;
    Ok(Bytes::new(question))
}

impl Builtin {
    /// Reads a command as udev(7) splits it into words: at spaces, where `'` or `"` at any place of a word groups
    /// everything up to the same quote, both quotes dropped, so that `''` is an empty word.
    ///
    /// The first word is the builtin's name. `hwdb` takes `--subsystem=NAME`, `--lookup-prefix=TEXT` and
    /// `--filter=PATTERN`, of each the last, and at most one modalias; a word that begins with `-` and is not such
    /// an option, a second modalias and a last filter that is not a pattern are bad arguments. For udev (systemd
    /// 257) the first word is the beginning of a name, that of the first builtin with this beginning; `keyboard`,
    /// `kmod` and `uaccess` set nothing, and another builtin that is not computed has its whole name. The command
    /// of `hwdb` is then split at spaces, tabs, newlines and carriage returns, and a quote that stays open ends with
    /// it. Its options are read as getopt_long(3) does: `--NAME VALUE`, the beginning of a name, and the letters
    /// `-s`, `-p` and `-f` are options too; unknown options and words after the modalias are skipped. Bad arguments
    /// are then `--device` without a modalias, and a last filter that is not a pattern.
    pub fn read(alloc: Global, profile: Profile, command: &[u8]) -> Result<Builtin, AllocError>
        ensures { IfOk result (λ b. b ≡ builtin profile command.now) }
    {
        match profile {
            Profile::Manual => read_as_manual(alloc, command),
            Profile::Udev => read_as_udev(alloc, command),
        }
    }
}
