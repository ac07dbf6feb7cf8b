//! The names that a rule gives for jumps.
//!
//! Of several labels of a rule the first counts, and for udev the last; of several jumps the first. The others are
//! reported, and the rule stays.
ghost use Rattle.std.specs.Prelude.{◌≡◌, ◌++◌, if◌then◌else◌, None, IfOk, OnOk};
ghost use Rattle.rule_core.specs.Drafts.{given_twice, name_place};
ghost use Rattle.rule_core.specs.Rules.{name_of};
ghost use Rattle.rule_core.specs.Taking.{again, first_given, label_given, label_said, names_given, with_name};

use file_messages::MessageKind;
use rule_tokens::Token;
use rule_types::{Part, Spot, WrittenPart};
use std::alloc::{AllocError, Global};
use std::marker::Model;
use text_bytes::{Bytes, Profile};

/// A name, with the place of the value that gives it.
#[derive(Drop)]
pub struct NamePlace {
    /// The name.
    pub name: Bytes,
    /// The place of the value's first byte, in bytes from the line's start.
    pub start: usize,
    /// How many bytes the value has between its quotes.
    pub size: usize,
}

/// The names of a rule, and the findings about those that don't count.
#[derive(Drop)]
pub(crate) struct RuleNames {
    /// The name of its LABEL that counts: the first, for udev the last.
    pub label: Option<NamePlace>,
    /// The name of its first GOTO.
    pub goto: Option<NamePlace>,
    /// The findings about the others.
    pub findings: Vec<Spot<MessageKind>>,
}

impl Model for RuleNames {
    ghost use Rattle.rule_core.specs.Taking as taking;

    ghost Value = { taking.RuleNames };

    ghost view = { λ n. record { label = n.label; goto = n.goto; findings = n.findings.items } };
}

impl RuleNames {
    /// The names that the tokens of a rule give.
    #[tactic(auto, using(crate::proofs::Taking::no_names))]
    pub fn of(
        alloc: Global,
        profile: Profile,
        parts: &[WrittenPart<'_>],
    ) -> Result<RuleNames, AllocError>
        ensures { IfOk result (λ names. names ≡ names_given profile parts.now) }
    {
        let mut names = RuleNames {
            label: None,
            goto: None,
            findings: Vec::new(alloc),
        };
        for written in parts {
            names.take(alloc, profile, written)?;
        }
        Ok(names)
    }

    /// Takes one more token.
    fn take(
        &mut self,
        alloc: Global,
        profile: Profile,
        written: &WrittenPart<'_>,
    ) -> Result<(), AllocError>
        ensures { OnOk result (self.new ≡ with_name profile self.old written.now.token written.now.part) }
    {
        match &written.part {
            Part::Label(name) => {
                let given = name_place(alloc, &written.token, name)?;
                give_label(profile, &mut self.label, &mut self.findings, given)?;
            }
            Part::Goto(name) => {
                let given = name_place(alloc, &written.token, name)?;
                give(&mut self.goto, &mut self.findings, given)?;
            }
            _ => {}
        }
        Ok(())
    }
}

/// A name at the value of its token.
fn name_place(alloc: Global, token: &Token<'_>, name: &Bytes) -> Result<NamePlace, AllocError>
    ensures { IfOk result (λ place. place ≡ name_place token.now name.now) }
{
    let size = token.value().len();
    Ok(NamePlace {
        name: Bytes::copy_of(alloc, name.as_slice())?,
        start: token.span().end.saturating_sub(1).saturating_sub(size),
        size,
    })
}

/// Sets the label, and reports the one that does not count if one was given before.
fn give_label(
    profile: Profile,
    given: &mut Option<NamePlace>,
    findings: &mut Vec<Spot<MessageKind>>,
    name: NamePlace,
) -> Result<(), AllocError>
    ensures given { OnOk result (given.new ≡ label_given profile given.old name) }
    ensures findings { OnOk result (findings.new.items ≡ findings.old.items ++ label_said profile given.old name) }
{
    match profile {
        Profile::Manual => give(given, findings, name),
        Profile::Udev => {
            if let Some(lost) = given.replace(name) {
                findings.push(given_twice(lost))?;
            }
            Ok(())
        }
    }
}

/// Sets a name, or reports it if one was given before.
fn give(
    given: &mut Option<NamePlace>,
    findings: &mut Vec<Spot<MessageKind>>,
    name: NamePlace,
) -> Result<(), AllocError>
    ensures given { OnOk result (given.new ≡ first_given given.old name) }
    ensures findings { OnOk result (findings.new.items ≡ findings.old.items ++ again given.old name) }
{
    match given {
        Some(_) => findings.push(given_twice(name))?,
        None => *given = Some(name),
    }
    Ok(())
}

/// The finding about a name that does not count.
fn given_twice(name: NamePlace) -> Spot<MessageKind>
    ensures { result ≡ given_twice name }
{
    let NamePlace { name, start, size } = name;
    Spot {
        kind: MessageKind::GivenTwice,
        word: name,
        start,
        size,
    }
}

/// A name without its place, if there is one and it is not lost.
pub(crate) fn name_unless(lost: bool, given: Option<NamePlace>) -> Option<Bytes>
    ensures { result ≡ (if lost then None else name_of given) }
{
    if lost {
        return None;
    }
    match given {
        None => None,
        Some(NamePlace { name, .. }) => Some(name),
    }
}
