//! Whether a `.link` file is for an interface, and what a block would have to report to tell.
ghost use Rattle.std.specs.Prelude.{◌≡◌, IfOk, OnOk, codes, option_map};
ghost use Rattle.std.specs.List.{list_all, list_any};
ghost use Rattle.text_tables.specs.Texts.{with_texts};
ghost use Rattle.link_files.specs.Lists.{list_of};
ghost use Rattle.link_files.specs.declared.words.WordKind.TheVariants.{Glob, Plain, Property};
ghost use Rattle.builtin_link.specs.Checks.{address_check, check_of, is_failing, is_for, is_given, is_met, kind_check, known_check};
ghost use Rattle.builtin_link.specs.Checks.{lacked_word, lacked_words, property_check, text_check, word_of};

use crate::addresses::{are_addresses, has_address};
use crate::globs::{are_true_of, passes_if};
use builtin_devices::some_text;
use link_files::{Setting, WordKind, list_of};
use std::alloc::{AllocError, Global};
use text_tables::{CowPairs, OwnedTexts};

/// What a block may lack to tell whether a file is for an interface.
#[derive(Clone, Copy)]
pub(crate) enum Need {
    /// The driver.
    Driver,
    /// The kind of a virtual interface.
    Kind,
    /// The hardware.
    Hardware,
    /// The address.
    Address,
    /// The address of the hardware.
    PermanentAddress,
    /// An address in a form that is not read.
    MacAddress,
    /// The name of the machine.
    Host,
    /// Whether the machine is virtual.
    Virtualization,
    /// The kernel's command line.
    KernelCommandLine,
    /// The kernel's version.
    KernelVersion,
    /// The credentials of the service.
    Credential,
    /// The machine's architecture.
    Architecture,
    /// The machine's firmware.
    Firmware,
}

/// What a key of `[Match]` says.
#[derive(Clone, Copy)]
pub(crate) enum Check {
    /// It is not given.
    Absent,
    /// The file may be for the interface.
    Holds,
    /// The file is not for the interface.
    Fails,
    /// The block does not tell.
    Lacks(Need),
}

impl Need {
    /// The word for it.
    pub(crate) fn word(self) -> &'static [u8]
        ensures { result.now ≡ word_of self }
    {
        match self {
            Need::Driver => b"ID_NET_DRIVER",
            Need::Kind => b"Kind",
            Need::Hardware => b"type",
            Need::Address => b"address",
            Need::PermanentAddress => b"permaddr",
            Need::MacAddress => b"MACAddress",
            Need::Host => b"Host",
            Need::Virtualization => b"Virtualization",
            Need::KernelCommandLine => b"cmdline",
            Need::KernelVersion => b"KernelVersion",
            Need::Credential => b"Credential",
            Need::Architecture => b"Architecture",
            Need::Firmware => b"Firmware",
        }
    }
}

impl Check {
    /// The check of a key that is given.
    pub(crate) fn of(holds: bool) -> Check
        ensures { result ≡ check_of holds }
    {
        if holds { Check::Holds } else { Check::Fails }
    }

    /// Whether the key is given.
    fn is_given(self) -> bool
        ensures { result ≡ is_given self }
    {
        match self {
            Check::Absent => false,
            Check::Holds | Check::Fails | Check::Lacks(_) => true,
        }
    }

    /// Whether the key says nothing against the interface.
    fn is_met(self) -> bool
        ensures { result ≡ is_met self }
    {
        match self {
            Check::Absent | Check::Holds => true,
            Check::Fails | Check::Lacks(_) => false,
        }
    }

    /// Whether the key says that the file is not for the interface.
    fn is_failing(self) -> bool
        ensures { result ≡ is_failing self }
    {
        match self {
            Check::Fails => true,
            Check::Absent | Check::Holds | Check::Lacks(_) => false,
        }
    }

    /// The word for what is not known.
    fn lacked_word(self) -> Option<&'static [u8]>
        ensures { option_map (λ t. t.now) result ≡ lacked_word self }
    {
        match self {
            Check::Lacks(need) => Some(need.word()),
            Check::Absent | Check::Holds | Check::Fails => None,
        }
    }
}

/// Whether a text fits the words that are given for it by a key.
#[tactic(auto, unfolding(crate::specs::Checks::text_check))]
pub(crate) fn text_check(
    alloc: Global,
    kind: WordKind,
    key: &[u8],
    settings: &[Setting],
    text: Option<&[u8]>,
) -> Result<Check, AllocError>
    ensures { IfOk result (λ check. check ≡ text_check (list_of kind key.now settings.now) (option_map (λ t. t.now) text.entry)) }
{
    let words = list_of(alloc, kind, key, settings)?;
    if words.is_empty() {
        return Ok(Check::Absent);
    }
    Ok(Check::of(passes_if(alloc, &words, text)?))
}

/// The same for what each interface has, by a key with patterns.
#[tactic(auto, unfolding(crate::specs::Checks::known_check))]
pub(crate) fn known_check(
    alloc: Global,
    need: Need,
    key: &[u8],
    settings: &[Setting],
    text: Option<&[u8]>,
) -> Result<Check, AllocError>
    ensures { IfOk result (λ check. check ≡ known_check need (list_of Glob key.now settings.now) (option_map (λ t. t.now) text.entry)) }
{
    if let Some(text) = text {
        return text_check(alloc, WordKind::Glob, key, settings, Some(text));
    }
    let words = list_of(alloc, WordKind::Glob, key, settings)?;
    if words.is_empty() {
        return Ok(Check::Absent);
    }
    Ok(Check::Lacks(need))
}

/// Whether the kind of an interface fits the words of Kind: an empty kind is none.
#[tactic(auto, unfolding(crate::specs::Checks::kind_check))]
pub(crate) fn kind_check(
    alloc: Global,
    settings: &[Setting],
    kind: Option<&[u8]>,
) -> Result<Check, AllocError>
    ensures { IfOk result (λ check. check ≡ kind_check (list_of Glob (codes "Kind") settings.now) (option_map (λ t. t.now) kind.entry)) }
{
    match kind {
        Some(kind) => text_check(
            alloc,
            WordKind::Glob,
            b"Kind",
            settings,
            some_text(Some(kind)),
        ),
        None => known_check(alloc, Need::Kind, b"Kind", settings, None),
    }
}

/// Whether an address, which the block may lack, is one of the words that are given for it by a key.
#[tactic(auto, unfolding(crate::specs::Checks::address_check))]
pub(crate) fn address_check(
    alloc: Global,
    need: Need,
    key: &[u8],
    settings: &[Setting],
    text: Option<&[u8]>,
) -> Result<Check, AllocError>
    ensures { IfOk result (λ check. check ≡ address_check need (list_of Plain key.now settings.now) (option_map (λ t. t.now) text.entry)) }
{
    let words = list_of(alloc, WordKind::Plain, key, settings)?;
    if words.is_empty() {
        return Ok(Check::Absent);
    }
    let Some(text) = text else {
        return Ok(Check::Lacks(need));
    };
    if has_address(alloc, &words, text)? {
        return Ok(Check::Holds);
    }
    if are_addresses(alloc, &words)? {
        return Ok(Check::Fails);
    }
    Ok(Check::Lacks(Need::MacAddress))
}

/// Whether the words of Property are true of the properties.
#[tactic(auto, unfolding(crate::specs::Checks::property_check))]
pub(crate) fn property_check(
    alloc: Global,
    env: &CowPairs<'_>,
    settings: &[Setting],
) -> Result<Check, AllocError>
    ensures { IfOk result (λ check. check ≡ property_check env.now (list_of Property (codes "Property") settings.now)) }
{
    let words = list_of(alloc, WordKind::Property, b"Property", settings)?;
    if words.is_empty() {
        return Ok(Check::Absent);
    }
    Ok(Check::of(are_true_of(alloc, env, &words)?))
}

/// Whether a file is for an interface: a key is given, and each that is given says so.
pub(crate) fn is_for(checks: &[Check]) -> bool
    ensures { result ≡ is_for checks.now }
{
    has_given(checks) && are_met(checks)
}

/// Whether a key is given.
fn has_given(checks: &[Check]) -> bool
    ensures { result ≡ list_any is_given checks.now }
{
    checks.iter().any(|check| check.is_given())
}

/// Whether no key says anything against the interface.
fn are_met(checks: &[Check]) -> bool
    ensures { result ≡ list_all is_met checks.now }
{
    checks.iter().all(|check| check.is_met())
}

/// Whether a key says that the file is not for the interface.
fn has_failing(checks: &[Check]) -> bool
    ensures { result ≡ list_any is_failing checks.now }
{
    checks.iter().any(|check| check.is_failing())
}

/// Adds what would tell whether a file is for an interface, if no key says that it is not.
pub(crate) fn add_lacked(
    alloc: Global,
    checks: &[Check],
    needs: &mut OwnedTexts,
) -> Result<(), AllocError>
    ensures { OnOk result (needs.new ≡ with_texts needs.old (lacked_words checks.now)) }
{
    if has_failing(checks) {
        return Ok(());
    }
    for check in checks {
        if let Some(word) = check.lacked_word() {
            needs.add(alloc, word)?;
        }
    }
    Ok(())
}
