//! What a token is for its rule, before its value is looked at.
ghost use Rattle.std.specs.Prelude.{◌≡◌, IfSome};
ghost use Rattle.rule_types.specs.Written.{attribute_of_role, attribute_of_topic, key_of_role, key_of_topic};
ghost use Rattle.rule_types.specs.Roles.{assigned, compared, is_assign, is_assign_or_add, is_assign_or_final, is_not_final, is_not_remove, role_of, taken};

use crate::topics::Topic;
use crate::types::{ImportType, RunType};
use rule_tokens::Operator;
use text_bytes::Bytes;

/// An operator that compares.
#[derive(Clone, Copy, PartialEq, Eq)]
pub enum MatchOperator {
    /// `==`.
    Equal,
    /// `!=`.
    NotEqual,
}

/// An operator that assigns.
#[derive(Clone, Copy, PartialEq, Eq)]
pub enum AssignOperator {
    /// `=`: the value replaces what was there.
    Assign,
    /// `+=`: the value is added.
    Add,
    /// `-=`: the value is removed.
    Remove,
    /// `:=`: as `=`, and later changes are ignored.
    AssignFinal,
}

/// What a match of the event looks at.
#[derive(Drop)]
pub enum PlainKey {
    Action,
    Devpath,
    Kernel,
    Subsystem,
    Driver,
    Name,
    Symlink,
    Tag,
    /// The event device's attribute of this name.
    Attr(Bytes),
    /// The kernel parameter of this name.
    Sysctl(Bytes),
    /// The property of this name.
    Env(Bytes),
    /// The constant of this name.
    Const(Bytes),
}

/// What a match of one device of the chain looks at.
#[derive(Drop)]
pub enum UpKey {
    Kernels,
    Subsystems,
    Drivers,
    Tags,
    /// The device's attribute of this name.
    Attrs(Bytes),
}

/// What a text is assigned to.
#[derive(Drop)]
pub enum Target {
    Owner,
    Group,
    Mode,
    Tag,
    /// The label of this security module.
    Seclabel(Bytes),
    /// The property of this name.
    Env(Bytes),
    Name,
    Symlink,
    /// The event device's attribute of this name.
    Attr(Bytes),
    /// The kernel parameter of this name.
    Sysctl(Bytes),
}

/// What a token is for its rule.
#[derive(Drop)]
pub enum Role {
    /// A match of the event.
    Plain(PlainKey, MatchOperator),
    /// A match of one device of the chain.
    Up(UpKey, MatchOperator),
    /// A match of the result.
    Result(MatchOperator),
    /// A test of a file, with its mask.
    Test(Option<Bytes>, MatchOperator),
    /// A command whose output is the result.
    Program(MatchOperator),
    /// An import of properties.
    Import(ImportType, MatchOperator),
    /// An assignment of a text.
    Set(Target, AssignOperator),
    /// A command that is run in the end.
    Run(Option<RunType>, AssignOperator),
    /// An option.
    Option(AssignOperator),
    /// A name to jump to.
    Label,
    /// A jump.
    Goto,
}

/// What a token with this topic and this operator is. `None` if the key does not take the operator.
#[tactic(auto, unfolding(crate::specs::Roles::role_of))]
pub fn role_of(topic: Topic, operator: Operator) -> Option<Role>
    ensures role { result ≡ role_of topic operator }
    ensures written { IfSome result (λ role. (key_of_role role ≡ key_of_topic topic) × (attribute_of_role role ≡ attribute_of_topic topic)) }
{
    match operator {
        Operator::Equal => compared(topic, MatchOperator::Equal),
        Operator::NotEqual => compared(topic, MatchOperator::NotEqual),
        Operator::Assign => assigned(topic, AssignOperator::Assign),
        Operator::Add => assigned(topic, AssignOperator::Add),
        Operator::Remove => assigned(topic, AssignOperator::Remove),
        Operator::AssignFinal => assigned(topic, AssignOperator::AssignFinal),
    }
}

/// What a topic is when it is compared, if it can be.
#[tactic(auto, unfolding(crate::specs::Roles::compared))]
fn compared(topic: Topic, operator: MatchOperator) -> Option<Role>
    ensures role { result ≡ compared topic operator }
    ensures written { IfSome result (λ role. (key_of_role role ≡ key_of_topic topic) × (attribute_of_role role ≡ attribute_of_topic topic)) }
{
    match topic {
        Topic::Action => Some(Role::Plain(PlainKey::Action, operator)),
        Topic::Devpath => Some(Role::Plain(PlainKey::Devpath, operator)),
        Topic::Kernel => Some(Role::Plain(PlainKey::Kernel, operator)),
        Topic::Subsystem => Some(Role::Plain(PlainKey::Subsystem, operator)),
        Topic::Driver => Some(Role::Plain(PlainKey::Driver, operator)),
        Topic::Name => Some(Role::Plain(PlainKey::Name, operator)),
        Topic::Symlink => Some(Role::Plain(PlainKey::Symlink, operator)),
        Topic::Tag => Some(Role::Plain(PlainKey::Tag, operator)),
        Topic::Attr(name) => Some(Role::Plain(PlainKey::Attr(name), operator)),
        Topic::Sysctl(name) => Some(Role::Plain(PlainKey::Sysctl(name), operator)),
        Topic::Env(name) => Some(Role::Plain(PlainKey::Env(name), operator)),
        Topic::Const(name) => Some(Role::Plain(PlainKey::Const(name), operator)),
        Topic::Kernels => Some(Role::Up(UpKey::Kernels, operator)),
        Topic::Subsystems => Some(Role::Up(UpKey::Subsystems, operator)),
        Topic::Drivers => Some(Role::Up(UpKey::Drivers, operator)),
        Topic::Tags => Some(Role::Up(UpKey::Tags, operator)),
        Topic::Attrs(name) => Some(Role::Up(UpKey::Attrs(name), operator)),
        Topic::Result => Some(Role::Result(operator)),
        Topic::Test(mask) => Some(Role::Test(mask, operator)),
        Topic::Program => Some(Role::Program(operator)),
        Topic::Import(known) => Some(Role::Import(known, operator)),
        _ => None,
    }
}

/// What a topic is when it is assigned, if it can be by this operator. PROGRAM and IMPORT are then matches, as with
/// `==`.
#[tactic(auto, unfolding(crate::specs::Roles::assigned))]
fn assigned(topic: Topic, operator: AssignOperator) -> Option<Role>
    ensures role { result ≡ assigned topic operator }
    ensures written { IfSome result (λ role. (key_of_role role ≡ key_of_topic topic) × (attribute_of_role role ≡ attribute_of_topic topic)) }
{
    match topic {
        Topic::Program => taken(is_not_remove(operator), Role::Program(MatchOperator::Equal)),
        Topic::Import(known) => taken(
            is_not_remove(operator),
            Role::Import(known, MatchOperator::Equal),
        ),
        Topic::Name => taken(
            is_assign_or_final(operator),
            Role::Set(Target::Name, operator),
        ),
        Topic::Symlink => Some(Role::Set(Target::Symlink, operator)),
        Topic::Tag => taken(is_not_final(operator), Role::Set(Target::Tag, operator)),
        Topic::Attr(name) => taken(is_assign(operator), Role::Set(Target::Attr(name), operator)),
        Topic::Sysctl(name) => taken(
            is_assign(operator),
            Role::Set(Target::Sysctl(name), operator),
        ),
        Topic::Env(name) => taken(
            is_assign_or_add(operator),
            Role::Set(Target::Env(name), operator),
        ),
        Topic::Owner => taken(
            is_assign_or_final(operator),
            Role::Set(Target::Owner, operator),
        ),
        Topic::Group => taken(
            is_assign_or_final(operator),
            Role::Set(Target::Group, operator),
        ),
        Topic::Mode => taken(
            is_assign_or_final(operator),
            Role::Set(Target::Mode, operator),
        ),
        Topic::Seclabel(name) => taken(
            is_assign_or_add(operator),
            Role::Set(Target::Seclabel(name), operator),
        ),
        Topic::Run(known) => taken(is_not_remove(operator), Role::Run(known, operator)),
        Topic::Options => taken(is_not_remove(operator), Role::Option(operator)),
        Topic::Label => taken(is_assign(operator), Role::Label),
        Topic::Goto => taken(is_assign(operator), Role::Goto),
        _ => None,
    }
}

/// A role, if its operator is taken.
fn taken(is_taken: bool, role: Role) -> Option<Role>
    ensures { result ≡ taken is_taken role }
{
    if is_taken { Some(role) } else { None }
}

/// Whether an operator is `=`.
fn is_assign(operator: AssignOperator) -> bool
    ensures { result ≡ is_assign operator }
{
    matches!(operator, AssignOperator::Assign)
}

/// Whether an operator is `=` or `+=`.
fn is_assign_or_add(operator: AssignOperator) -> bool
    ensures { result ≡ is_assign_or_add operator }
{
    matches!(operator, AssignOperator::Assign | AssignOperator::Add)
}

/// Whether an operator is `=` or `:=`.
fn is_assign_or_final(operator: AssignOperator) -> bool
    ensures { result ≡ is_assign_or_final operator }
{
    matches!(
        operator,
        AssignOperator::Assign | AssignOperator::AssignFinal
    )
}

/// Whether an operator is not `-=`.
fn is_not_remove(operator: AssignOperator) -> bool
    ensures { result ≡ is_not_remove operator }
{
    !matches!(operator, AssignOperator::Remove)
}

/// Whether an operator is not `:=`.
fn is_not_final(operator: AssignOperator) -> bool
    ensures { result ≡ is_not_final operator }
{
    !matches!(operator, AssignOperator::AssignFinal)
}
