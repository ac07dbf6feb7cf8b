//! What a token is about, besides its key: what is in its braces, and what its value names.
ghost use Rattle.std.specs.Prelude.{◌≡◌, option_map};
ghost use Rattle.std.specs.Option.{option_and_then};
ghost use Rattle.rule_types.specs.Names.{import_type_of, run_type_of};
ghost use Rattle.rule_types.specs.Builtins.{builtin_of};
ghost use Rattle.text_bytes.specs.declared.profile.Profile.TheVariants.{Udev};
ghost use Rattle.rule_parts.specs.Options.{option_of};
ghost use Rattle.rule_remarks.specs.Accounts.{given_in};
ghost use Rattle.rule_remarks.specs.Matters.{matter_of, mode_in, of_account, of_builtin, of_import, of_mode, of_option};
ghost use Rattle.rule_remarks.specs.Matters.{of_run, other_option, with_number, with_text};

use crate::accounts::{AccountKind, Accounts, Given, given_in};
use rule_parts::{level_of, option_of};
use rule_types::{
    ImportType, Key, RuleOption, RunType, builtin_of, import_type_of, mode_of, run_type_of,
};
use std::marker::Model;
use text_bytes::Profile;

/// What a token is about, besides its key.
#[derive(Drop)]
pub(crate) struct Matter<'a> {
    /// The type of IMPORT or RUN, or the option; empty if the key has only one kind.
    pub(crate) kind: &'static [u8],
    /// The attribute or the builtin; empty if there is none.
    pub(crate) name: &'a [u8],
    /// The number of the value, or of the mode of TEST, if it has one.
    pub(crate) number: Option<i64>,
    /// The text that is compared with or assigned; `None` if the value says no more.
    pub(crate) text: Option<&'a [u8]>,
}

impl<'a> Model for Matter<'a> {
    ghost use Rattle.std.specs.Prelude.{option_map};
    ghost use Rattle.rule_remarks.specs.Matters as matters;

    ghost Value = { matters.Matter };

    ghost view = { λ m. record { kind = m.kind.now; name = m.name.now; number = m.number; text = option_map (λ text. text.now) m.text } };
}

/// What a token of a key with an attribute and a value is about. `None` for LABEL, for GOTO and for what is not an
/// option, which are not compared with others.
#[tactic(auto, unfolding(crate::specs::Matters::matter_of))]
pub(crate) fn matter_of<'a>(
    accounts: &Accounts,
    key: Key,
    attribute: Option<&'a [u8]>,
    text: &'a [u8],
) -> Option<Matter<'a>>
    ensures { result ≡ matter_of accounts.now key (option_map (λ a. a.now) attribute.entry) text.now }
{
    match key {
        Key::Owner => Some(of_account(accounts, AccountKind::User, text)),
        Key::Group => Some(of_account(accounts, AccountKind::Group, text)),
        Key::Mode => Some(of_mode(text, mode_in(Some(text)))),
        Key::Test => Some(Matter {
            kind: b"",
            name: b"",
            number: mode_in(attribute),
            text: Some(text),
        }),
        Key::Import => Some(of_import(attribute, text)),
        Key::Run => Some(of_run(attribute, text)),
        Key::Options => of_option(text),
        Key::Env | Key::Const | Key::Attr | Key::Attrs | Key::Sysctl | Key::Seclabel => {
            Some(Matter {
                kind: b"",
                name: attribute.unwrap_or(b""),
                number: None,
                text: Some(text),
            })
        }
        Key::Label | Key::Goto => None,
        _ => Some(with_text(b"", text)),
    }
}

/// A kind, if it is not empty, with a text.
fn with_text<'a>(kind: &'static [u8], text: &'a [u8]) -> Matter<'a>
    ensures { result ≡ with_text kind.now text.now }
{
    Matter {
        kind,
        name: b"",
        number: None,
        text: Some(text),
    }
}

/// A kind, if it is not empty, with a number, if there is one.
fn with_number<'a>(kind: &'static [u8], number: Option<i64>) -> Matter<'a>
    ensures { result ≡ with_number kind.now number }
{
    Matter {
        kind,
        name: b"",
        number,
        text: None,
    }
}

/// What a value of OWNER or GROUP is about; an unknown user or group is -1.
fn of_account<'a>(accounts: &Accounts, kind: AccountKind, text: &'a [u8]) -> Matter<'a>
    ensures { result ≡ of_account text.now (given_in accounts.now kind text.now) }
{
    match given_in(accounts, kind, text) {
        Given::Number(number) => with_number(b"", Some(i64::from(number))),
        Given::Unknown => with_number(b"", Some(-1)),
        Given::Text => with_text(b"", text),
    }
}

/// A mode of a file, or the text that gives none.
fn of_mode(text: &[u8], mode: Option<i64>) -> Matter<'_>
    ensures { result ≡ of_mode text.now mode }
{
    match mode {
        Some(mode) => with_number(b"", Some(mode)),
        None => with_text(b"", text),
    }
}

/// The mode that a text gives, if there is one and it does.
fn mode_in(text: Option<&[u8]>) -> Option<i64>
    ensures { result ≡ mode_in (option_map (λ text. text.now) text.entry) }
{
    let mode = mode_of(text?)?;
    Some(i64::from(mode))
}

/// What IMPORT with these braces takes; a program that is a builtin is of that type.
fn of_import<'a>(braces: Option<&[u8]>, text: &'a [u8]) -> Matter<'a>
    ensures { result ≡ of_import (option_and_then import_type_of (option_map (λ b. b.now) braces.entry)) text.now }
{
    let Some(name) = braces else {
        return with_text(b"", text);
    };
    match import_type_of(name) {
        Some(ImportType::Program) => of_builtin(ImportType::Program.name(), text),
        Some(ImportType::Builtin) => of_builtin(ImportType::Builtin.name(), text),
        Some(other) => with_text(other.name(), text),
        None => with_text(b"", text),
    }
}

/// What RUN runs: a program unless its braces say otherwise.
fn of_run<'a>(braces: Option<&[u8]>, text: &'a [u8]) -> Matter<'a>
    ensures { result ≡ of_run (option_and_then run_type_of (option_map (λ b. b.now) braces.entry)) text.now }
{
    let Some(name) = braces else {
        return with_text(RunType::Program.name(), text);
    };
    match run_type_of(name) {
        Some(RunType::Builtin) => of_builtin(RunType::Builtin.name(), text),
        _ => with_text(RunType::Program.name(), text),
    }
}

/// A text that is taken as a builtin if it is one, and otherwise is of a kind.
fn of_builtin<'a>(kind: &'static [u8], text: &'a [u8]) -> Matter<'a>
    ensures { result ≡ of_builtin kind.now text.now (builtin_of text.now) }
{
    match builtin_of(text) {
        Some(known) => Matter {
            kind: RunType::Builtin.name(),
            name: known.name(),
            number: None,
            text: Some(text),
        },
        None => with_text(kind, text),
    }
}

/// An option; watch and nowatch are one kind.
fn of_option(text: &[u8]) -> Option<Matter<'_>>
    ensures { result ≡ of_option text.now (option_of Udev text.now) }
{
    match option_of(Profile::Udev, text)? {
        RuleOption::LinkPriority(number) => {
            Some(with_number(b"link_priority", Some(i64::from(number))))
        }
        RuleOption::KeepEscapes => Some(with_number(b"string_escape=none", None)),
        RuleOption::ReplaceEscapes => Some(with_number(b"string_escape=replace", None)),
        RuleOption::Watch => Some(with_number(b"watch", Some(1))),
        RuleOption::NoWatch => Some(with_number(b"watch", Some(0))),
        RuleOption::DbPersist => Some(with_number(b"db_persist", None)),
        RuleOption::LogLevel | RuleOption::Ignored => other_option(text),
    }
}

/// An option that changes nothing here: a static node, or a level of the log.
fn other_option(text: &[u8]) -> Option<Matter<'_>>
    ensures { result ≡ other_option text.now }
{
    if let Some(node) = text.strip_prefix(b"static_node=") {
        return Some(with_text(b"static_node", node));
    }
    let level = level_of(text.strip_prefix(b"log_level=")?)?;
    Some(with_number(b"log_level", Some(i64::from(level))))
}
