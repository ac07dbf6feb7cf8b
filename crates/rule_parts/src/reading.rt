//! Reading a token as a part of a rule.
ghost use Rattle.std.specs.Prelude.{◌≡◌, Ok, IfOk, MatchResult, Some, option_map};
ghost use Rattle.rule_types.specs.Names.{key_of};
ghost use Rattle.rule_types.specs.Written.{attribute_of_role, key_of_role};
ghost use Rattle.rule_parts.specs.Faults.{FaultOf};
ghost use Rattle.rule_parts.specs.Inner.{Gives};
ghost use Rattle.rule_types.specs.WrittenParts.{attribute_of_part, key_of_part, type_of};
ghost use Rattle.rule_parts.specs.Parts.{IsWritten, comparison, ignores_case, import_by, is_match, is_read_as_assign, is_something};
ghost use Rattle.rule_parts.specs.Parts.{operator_as, opposite, part_by, part_of, role_as, type_as, udev_role, value_part};

use crate::finding::{PartFault, wrong};
use crate::refusals::refusal_by;
use crate::values::{read_choice, read_name, read_option, read_template};
use file_messages::MessageKind;
use rule_tokens::{Quote, Token, unquote};
use rule_types::{
    Act, ActKind, Assignment, Change, Comparison, Import, ImportType, MatchOperator, Part,
    PlainMatch, Role, UpMatch, builtin_of, is_add_or_final, key_of, read_as, role_of, topic_of,
};
use std::alloc::{AllocError, Global};
use text_bytes::{Bytes, Profile};

/// Reads a token as a part of a rule, by the tables of udev(7).
///
/// What is wrong is the first of: an unknown key; an attribute that the key lacks or does not take; an operator
/// that it does not take; a value that is not valid for it. udev takes every value with substitutions or patterns,
/// every name of a jump and every option that it does not know; it refuses a property that it sets by itself, a
/// name without effect and a builtin that it does not have; and the value `?*` reverses the operator of TEST, PROGRAM
/// and IMPORT. `Memory` comes only if an allocation fails.
#[tactic(auto, unfolding(crate::specs::Parts::part_of))]
pub fn read_part(alloc: Global, profile: Profile, token: &Token<'_>) -> Result<Part, PartFault>
    ensures part { MatchResult result (λ p. part_of profile token.now ≡ Ok p) (λ f. FaultOf f (part_of profile token.now)) }
    ensures written { IfOk result (λ p. (key_of token.now.parts.head.key ≡ Some (key_of_part p)) × IsWritten profile token.now.parts.head.attribute p) }
{
    let Some(key) = key_of(token.key()) else {
        return Err(wrong(alloc, MessageKind::UnknownKey, token.key()));
    };
    let attribute = copied(alloc, token.attribute())?;
    let Some(topic) = topic_of(profile, key, attribute) else {
        return Err(wrong(alloc, MessageKind::WrongAttribute, token.key()));
    };
    let Some(role) = role_of(topic, read_as(key, token.operator())) else {
        return Err(wrong(alloc, MessageKind::OperatorNotAllowed, token.key()));
    };
    let text = unquote(alloc, token)?;
    value_part(alloc, profile, role, ignores_case(token.quote()), text)
}

/// A copy of an attribute, if there is one.
fn copied(alloc: Global, attribute: Option<&[u8]>) -> Result<Option<Bytes>, AllocError>
    ensures { IfOk result (λ copy. copy ≡ option_map (λ text. text.now) attribute.entry) }
{
    match attribute {
        None => Ok(None),
        Some(text) => Ok(Some(Bytes::copy_of(alloc, text)?)),
    }
}

/// Whether a value asks for its case to be ignored.
fn ignores_case(quote: Quote) -> bool
    ensures { result ≡ ignores_case quote }
{
    match quote {
        Quote::Plain | Quote::Escaped => false,
        Quote::Blind | Quote::BlindEscaped => true,
    }
}

/// The part of a role with this value, unless it is refused. `blind` says that the value asks for its case to be
/// ignored, which only matches take.
#[tactic(auto, unfolding(crate::specs::Parts::value_part))]
fn value_part(
    alloc: Global,
    profile: Profile,
    role: Role,
    blind: bool,
    text: Vec<u8>,
) -> Result<Part, PartFault>
    ensures part { Gives result (value_part profile role blind text.items) }
    ensures written { IfOk result (λ p. (key_of_part p ≡ key_of_role role) × (attribute_of_part p ≡ attribute_of_role (role_as profile role text.items))) }
{
    if blind && !is_match(&role) {
        return Err(wrong(alloc, MessageKind::BadValue, &text));
    }
    match refusal_by(profile, &role, &text) {
        Some((kind, word)) => Err(wrong(alloc, kind, word)),
        None => {
            let role = role_as(profile, role, &text);
            part_by(alloc, profile, role, blind, text)
        }
    }
}

/// The role as which a role is read: for udev an IMPORT{program} of a builtin is an IMPORT{builtin}, and the value
/// `?*` reverses the operator of TEST, PROGRAM and IMPORT.
fn role_as(profile: Profile, role: Role, text: &[u8]) -> Role
    ensures role { result ≡ role_as profile role text.now }
    ensures key { key_of_role result ≡ key_of_role role }
{
    match profile {
        Profile::Manual => role,
        Profile::Udev => udev_role(role, text),
    }
}

/// The role as which udev reads a role.
fn udev_role(role: Role, text: &[u8]) -> Role
    ensures role { result ≡ udev_role role text.now }
    ensures key { key_of_role result ≡ key_of_role role }
{
    match role {
        Role::Test(mask, operator) => Role::Test(mask, operator_as(operator, text)),
        Role::Program(operator) => Role::Program(operator_as(operator, text)),
        Role::Import(known, operator) => {
            Role::Import(type_as(known, text), operator_as(operator, text))
        }
        other => other,
    }
}

/// The operator as which udev reads that of TEST, PROGRAM and IMPORT.
fn operator_as(operator: MatchOperator, text: &[u8]) -> MatchOperator
    ensures { result ≡ operator_as operator text.now }
{
    if is_something(text) {
        opposite(operator)
    } else {
        operator
    }
}

/// The other of `==` and `!=`.
fn opposite(operator: MatchOperator) -> MatchOperator
    ensures { result ≡ opposite operator }
{
    match operator {
        MatchOperator::Equal => MatchOperator::NotEqual,
        MatchOperator::NotEqual => MatchOperator::Equal,
    }
}

/// Whether a value is the pattern that every text but the empty one fits.
pub fn is_something(text: &[u8]) -> bool
    ensures { result ≡ is_something text.now }
{
    text == b"?*".as_slice()
}

/// The type as which udev reads an IMPORT of a type.
fn type_as(known: ImportType, text: &[u8]) -> ImportType
    ensures { result ≡ type_as known text.now }
{
    match known {
        ImportType::Program if builtin_of(text).is_some() => ImportType::Builtin,
        other => other,
    }
}

/// Whether a role is a match.
fn is_match(role: &Role) -> bool
    ensures { result ≡ is_match role.now }
{
    matches!(role, Role::Plain(_, _) | Role::Up(_, _) | Role::Result(_))
}

/// Reads the value of a role, and makes the part of it.
#[tactic(auto, unfolding(crate::specs::Parts::part_by))]
fn part_by(
    alloc: Global,
    profile: Profile,
    role: Role,
    blind: bool,
    text: Vec<u8>,
) -> Result<Part, PartFault>
    ensures part { Gives result (part_by profile role blind text.items) }
    ensures written { IfOk result (λ p. (key_of_part p ≡ key_of_role role) × (attribute_of_part p ≡ attribute_of_role role)) }
{
    match role {
        Role::Plain(key, operator) => {
            let wanted = comparison(alloc, profile, operator, blind, text)?;
            Ok(Part::Plain(PlainMatch { key, wanted }))
        }
        Role::Up(key, operator) => {
            let wanted = comparison(alloc, profile, operator, blind, text)?;
            Ok(Part::Up(UpMatch { key, wanted }))
        }
        Role::Result(operator) => Ok(Part::Result(comparison(
            alloc, profile, operator, blind, text,
        )?)),
        Role::Test(mask, operator) => {
            let act_kind = ActKind::Test(mask, read_template(alloc, profile, &text)?);
            Ok(Part::Act(Act {
                operator,
                kind: act_kind,
            }))
        }
        Role::Program(operator) => {
            let act_kind = ActKind::Program(read_template(alloc, profile, &text)?);
            Ok(Part::Act(Act {
                operator,
                kind: act_kind,
            }))
        }
        Role::Import(known, operator) => {
            let act_kind = ActKind::Import(import_by(alloc, profile, known, text)?);
            Ok(Part::Act(Act {
                operator,
                kind: act_kind,
            }))
        }
        Role::Set(target, operator) => {
            let change = Change::Text(target, read_template(alloc, profile, &text)?);
            Ok(Part::Set(Assignment { operator, change }))
        }
        Role::Run(known, operator) => {
            let change = Change::Run(known, read_template(alloc, profile, &text)?);
            Ok(Part::Set(Assignment { operator, change }))
        }
        Role::Option(operator) => {
            let change = Change::Option(read_option(alloc, profile, &text)?);
            Ok(Part::Set(Assignment { operator, change }))
        }
        Role::Label => Ok(Part::Label(read_name(alloc, profile, text)?)),
        Role::Goto => Ok(Part::Goto(read_name(alloc, profile, text)?)),
    }
}

/// Reads patterns that something is compared with.
#[tactic(auto, unfolding(crate::specs::Parts::comparison))]
fn comparison(
    alloc: Global,
    profile: Profile,
    operator: MatchOperator,
    blind: bool,
    text: Vec<u8>,
) -> Result<Comparison, PartFault>
    ensures { Gives result (comparison profile operator blind text.items) }
{
    let choice = read_choice(alloc, profile, blind, &text)?;
    Ok(Comparison {
        operator,
        blind,
        written: Bytes::new(text),
        choice,
    })
}

/// Reads the value of an IMPORT of a type.
#[tactic(auto, unfolding(crate::specs::Parts::import_by))]
fn import_by(
    alloc: Global,
    profile: Profile,
    known: ImportType,
    text: Vec<u8>,
) -> Result<Import, PartFault>
    ensures import { Gives result (import_by profile known text.items) }
    ensures written { IfOk result (λ i. type_of i ≡ known) }
{
    match known {
        ImportType::Program => Ok(Import::Program(read_template(alloc, profile, &text)?)),
        ImportType::Builtin => Ok(Import::Builtin(read_template(alloc, profile, &text)?)),
        ImportType::File => Ok(Import::File(read_template(alloc, profile, &text)?)),
        ImportType::Parent => {
            let names = read_choice(alloc, profile, false, &text)?;
            Ok(Import::Parent(names, Bytes::new(text)))
        }
        ImportType::Cmdline => Ok(Import::Cmdline(Bytes::new(text))),
        ImportType::Db => Ok(Import::Db(Bytes::new(text))),
    }
}

/// Whether a token's operator is read as `=`, which should have been written.
#[tactic(auto, using(crate::proofs::Misread::never_misread), unfolding(crate::specs::Parts::is_read_as_assign))]
pub fn is_read_as_assign(token: &Token<'_>) -> bool
    ensures { result ≡ is_read_as_assign token.now }
{
    if !is_add_or_final(token.operator()) {
        return false;
    }
    match key_of(token.key()) {
        None => false,
        Some(key) => rule_types::is_read_as_assign(key, token.operator()),
    }
}
