//! Reading the value of a token after its escapes.
ghost use Rattle.std.specs.Prelude.{◌≡◌};
ghost use Rattle.text_core.specs.Choices.{choice, choice_blind};
ghost use Rattle.text_core.specs.Fnmatch.{fnmatch_choice};
ghost use Rattle.rule_parts.specs.Inner.{Gives, ReportsOf};
ghost use Rattle.rule_parts.specs.Values.{as_choice, manual_choice, read_choice, read_name, read_option, read_template, reading_of, some_name};

use crate::finding::{PartFault, wrong};
use crate::options::option_of;
use file_messages::MessageKind;
use rule_tokens::{Template, TemplateFault};
use rule_types::RuleOption;
use std::alloc::Global;
use text_bytes::{Bytes, Profile};
use text_core::{Choice, GlobFault, Reading};

/// Reads patterns between bars by a profile. `blind` says that case is ignored.
#[tactic(auto, unfolding(crate::specs::Values::read_choice))]
pub(crate) fn read_choice(
    alloc: Global,
    profile: Profile,
    blind: bool,
    text: &[u8],
) -> Result<Choice, PartFault>
    ensures { Gives result (read_choice profile blind text.now) }
{
    match profile {
        Profile::Manual => manual_choice(alloc, blind, text),
        Profile::Udev => udev_choice(alloc, blind, text),
    }
}

/// Reads patterns as udev does.
fn udev_choice(alloc: Global, blind: bool, text: &[u8]) -> Result<Choice, PartFault>
    ensures { Gives result (as_choice text.now (fnmatch_choice (reading_of blind) text.now)) }
{
    match Choice::read_fnmatch(alloc, reading_of(blind), text) {
        Ok(choice) => Ok(choice),
        Err(fault) => Err(choice_fault(alloc, fault, text)),
    }
}

/// How patterns are read.
fn reading_of(blind: bool) -> Reading
    ensures { result ≡ reading_of blind }
{
    if blind {
        Reading::Blind
    } else {
        Reading::Exact
    }
}

/// Reads patterns as the manual has them.
fn manual_choice(alloc: Global, blind: bool, text: &[u8]) -> Result<Choice, PartFault>
    ensures { Gives result (manual_choice blind text.now) }
{
    if blind {
        blind_choice(alloc, text)
    } else {
        exact_choice(alloc, text)
    }
}

/// Reads patterns in which case counts.
fn exact_choice(alloc: Global, text: &[u8]) -> Result<Choice, PartFault>
    ensures { Gives result (as_choice text.now (choice text.now)) }
{
    match Choice::read(alloc, text) {
        Ok(choice) => Ok(choice),
        Err(fault) => Err(choice_fault(alloc, fault, text)),
    }
}

/// Reads patterns in which case is ignored.
fn blind_choice(alloc: Global, text: &[u8]) -> Result<Choice, PartFault>
    ensures { Gives result (as_choice text.now (choice_blind text.now)) }
{
    match Choice::read_blind(alloc, text) {
        Ok(choice) => Ok(choice),
        Err(fault) => Err(choice_fault(alloc, fault, text)),
    }
}

/// Why a text is not a choice.
fn choice_fault(alloc: Global, fault: GlobFault, text: &[u8]) -> PartFault
    ensures { ReportsOf fault text.now result }
{
    match fault {
        GlobFault::Class { .. } => wrong(alloc, MessageKind::SetNotSupported, text),
        GlobFault::TooLong => wrong(alloc, MessageKind::BadValue, text),
        GlobFault::Memory => PartFault::Memory,
    }
}

/// Reads a text with substitutions.
#[tactic(auto, unfolding(crate::specs::Values::read_template))]
pub(crate) fn read_template(
    alloc: Global,
    profile: Profile,
    text: &[u8],
) -> Result<Template, PartFault>
    ensures { Gives result (read_template profile text.now) }
{
    match Template::read_as(alloc, profile, text) {
        Ok(template) => Ok(template),
        Err(TemplateFault::Memory) => Err(PartFault::Memory),
        Err(_) => Err(wrong(alloc, MessageKind::BadSubstitution, text)),
    }
}

/// Reads a text as an option of OPTIONS.
#[tactic(auto, unfolding(crate::specs::Values::read_option))]
pub(crate) fn read_option(
    alloc: Global,
    profile: Profile,
    text: &[u8],
) -> Result<RuleOption, PartFault>
    ensures { Gives result (read_option profile text.now) }
{
    match option_of(profile, text) {
        Some(known) => Ok(known),
        None => Err(wrong(alloc, MessageKind::BadValue, text)),
    }
}

/// Takes a text as a name to jump to; by the manual it is not empty.
#[tactic(auto, unfolding(crate::specs::Values::read_name))]
pub(crate) fn read_name(alloc: Global, profile: Profile, text: Vec<u8>) -> Result<Bytes, PartFault>
    ensures { Gives result (read_name profile text.items) }
{
    match profile {
        Profile::Manual => some_name(alloc, text),
        Profile::Udev => Ok(Bytes::new(text)),
    }
}

/// Takes a text as a name, unless it is empty.
fn some_name(alloc: Global, text: Vec<u8>) -> Result<Bytes, PartFault>
    ensures { Gives result (some_name text.items) }
{
    if text.is_empty() {
        Err(wrong(alloc, MessageKind::BadValue, &text))
    } else {
        Ok(Bytes::new(text))
    }
}
