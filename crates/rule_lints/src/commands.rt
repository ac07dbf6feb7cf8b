//! W2 and W3: the commands of a rule, and what in them is meant for a shell.
ghost use Rattle.std.specs.Prelude.{◌≡◌, ◌≤◌, length, not, option_map};
ghost use Rattle.std.specs.List.{prefix_len};
ghost use Rattle.text_bytes.specs.Names.{is_blank};
ghost use Rattle.rule_lints.specs.Commands.{command_of, first_word, forbidden_command, has_shell_sign, is_bare_script, is_shell_sign, is_word_end};
ghost use Rattle.rule_lints.specs.Commands.{open_after, program_name, relative_program, run_command, shell_command};

use crate::parts::change_of;
use crate::texts::{has_byte, rest_after_last};
use rule_types::{ActKind, Change, Import, Part, RunType};
use text_bytes::{begins_with, is_blank, unindented, up_to};
use text_tables::is_among;

/// The shells, by the names of their programs.
const SHELLS: [&[u8]; 6] = [b"sh", b"ash", b"bash", b"dash", b"ksh", b"zsh"];

/// Commands that are in /usr/bin or /usr/sbin, and not in /usr/lib/udev, where udev looks for a program
/// without a path.
const COMMANDS: [&[u8]; 35] = [
    b"bash",
    b"chgrp",
    b"chmod",
    b"chown",
    b"cp",
    b"date",
    b"echo",
    b"ethtool",
    b"ifconfig",
    b"ip",
    b"iw",
    b"kill",
    b"ln",
    b"logger",
    b"mkdir",
    b"modprobe",
    b"mount",
    b"mv",
    b"nmcli",
    b"python",
    b"python3",
    b"rm",
    b"rmmod",
    b"setfacl",
    b"sh",
    b"sleep",
    b"su",
    b"sudo",
    b"systemctl",
    b"systemd-run",
    b"sysctl",
    b"tee",
    b"touch",
    b"udevadm",
    b"umount",
];

/// Programs that mount and unmount, or use the network: udev(7), "RUN".
const FORBIDDEN: [&[u8]; 12] = [
    b"curl",
    b"fusermount",
    b"fusermount3",
    b"mount",
    b"ntfs-3g",
    b"ping",
    b"rsync",
    b"scp",
    b"ssh",
    b"sshfs",
    b"umount",
    b"wget",
];

/// The value with which W2 is reported: a command that is written for a shell, and that no shell runs. Only a shell reads a
/// first word as a home folder, or as a variable that is set.
pub(crate) fn shell_command(part: &Part) -> Option<&[u8]>
    ensures { option_map (λ text. text.now) result ≡ shell_command part.now }
{
    let command = command_of(part)?;
    let word = first_word(command);
    let needs_shell = has_shell_sign(command)
        || begins_with(b'~', word)
        || has_byte(b'=', up_to(b'/', word));
    (needs_shell && !is_among(&SHELLS, program_name(command))).then_some(command)
}

/// The name of the program of a command.
fn program_name(command: &[u8]) -> &[u8]
    ensures { result.now ≡ program_name command.now }
{
    rest_after_last(b'/', first_word(command))
}

/// The value with which W24 is reported: a command whose program can't do its work where udev runs it.
pub(crate) fn forbidden_command(part: &Part) -> Option<&[u8]>
    ensures { option_map (λ text. text.now) result ≡ forbidden_command part.now }
{
    let command = command_of(part)?;
    is_among(&FORBIDDEN, program_name(command)).then_some(command)
}

/// The value with which W3 is reported: a command of RUN whose program is not where udev looks for one without a
/// path, or the name of a script.
pub(crate) fn relative_program(part: &Part) -> Option<&[u8]>
    ensures { option_map (λ text. text.now) result ≡ relative_program part.now }
{
    let command = run_command(change_of(part)?)?;
    let word = first_word(command);
    (is_among(&COMMANDS, word) || is_bare_script(word)).then_some(command)
}

/// Whether a word is the name of a script, without a path.
fn is_bare_script(word: &[u8]) -> bool
    ensures { result ≡ is_bare_script word.now }
{
    !has_byte(b'/', word) && (word.ends_with(b".sh") || word.ends_with(b".py"))
}

/// The program that a part of a rule runs, with its words.
fn command_of(part: &Part) -> Option<&[u8]>
    ensures { option_map (λ text. text.now) result ≡ command_of part.now }
{
    match part {
        Part::Set(assignment) => run_command(&assignment.change),
        Part::Act(act) => match &act.kind {
            ActKind::Program(template) => Some(template.written()),
            ActKind::Import(Import::Program(template)) => Some(template.written()),
            _ => None,
        },
        _ => None,
    }
}

/// The program that RUN runs in the end, with its words.
fn run_command(change: &Change) -> Option<&[u8]>
    ensures { option_map (λ text. text.now) result ≡ run_command change.now }
{
    match change {
        Change::Run(None, template) => Some(template.written()),
        Change::Run(Some(RunType::Program), template) => Some(template.written()),
        _ => None,
    }
}

/// Whether a command has a sign of the shell outside of quotes.
fn has_shell_sign(command: &[u8]) -> bool
    ensures { result ≡ has_shell_sign command.now }
{
    let mut opened = None;
    let mut rest = command;
    while let Some((byte, following)) = rest.split_first() {
        if opened.is_none() && is_shell_sign(*byte, following) {
            return true;
        }
        opened = open_after(opened, *byte);
        rest = following;
    }
    false
}

/// The quote that is open after a byte, given the one that is open before it.
fn open_after(opened: Option<u8>, byte: u8) -> Option<u8>
    ensures { result ≡ open_after opened byte }
{
    match opened {
        None if byte == b'\'' || byte == b'"' => Some(byte),
        None => None,
        Some(quote) if byte == quote => None,
        Some(quote) => Some(quote),
    }
}

/// Whether a byte is a sign of the shell before this text.
fn is_shell_sign(byte: u8, following: &[u8]) -> bool
    ensures { result ≡ is_shell_sign byte following.now }
{
    ((byte == b'|' || byte == b';' || byte == b'&') && is_word_end(following))
        || (byte == b'>'
            && (is_word_end(following)
                || begins_with(b'/', following)
                || begins_with(b'&', following)
                || begins_with(b'>', following)))
        || (byte == b'&' && begins_with(b'&', following))
}

/// Whether a word ends before this text.
fn is_word_end(following: &[u8]) -> bool
    ensures { result ≡ is_word_end following.now }
{
    match following.first() {
        None => true,
        Some(byte) => is_blank(*byte),
    }
}

/// The first word of a command.
pub fn first_word(command: &[u8]) -> &[u8]
    ensures { result.now ≡ first_word command.now }
{
    let words = unindented(command);
    let (word, _) = words.split_at(word_length(words));
    word
}

/// How many bytes that are not blanks a text begins with.
fn word_length(text: &[u8]) -> usize
    ensures value { result ≡ prefix_len (λ b. not (is_blank b)) text.now }
    ensures within { result ≤ length text.now }
{
    text.iter().take_while(|byte| !is_blank(**byte)).count()
}
