//! How severe a diagnostic is to an editor, and how it is to be shown.
ghost use Rattle.std.specs.Prelude.{◌≡◌};
ghost use Rattle.lsp_answers.specs.Severities.{severity_number, tag_of, tag_of_database, tag_of_lint, tag_of_message};

use file_catalogue::{Remark, Severity};
use file_messages::MessageKind;
use hwdb_core::DatabaseLint;
use rule_lints::Lint;

/// The number by which the protocol knows how severe something is: 1 for an error, 2 for a warning.
pub(crate) fn severity_number(severity: Severity) -> u32
    ensures { result ≡ severity_number severity }
{
    match severity {
        Severity::Error => 1,
        Severity::Warning => 2,
    }
}

/// The tag of a message: 1 on what has no effect, 2 on what is out of use.
fn tag_of_message(kind: MessageKind) -> Option<u32>
    ensures { result ≡ tag_of_message kind }
{
    match kind {
        MessageKind::OldSubsystemName => Some(2),
        MessageKind::GivenTwice
        | MessageKind::LabelUnused
        | MessageKind::MatchWithoutProperty
        | MessageKind::NameWithoutEffect
        | MessageKind::RuleWithoutEffect
        | MessageKind::SaidTwice => Some(1),
        _ => None,
    }
}

/// The tag of a lint of a rule.
fn tag_of_lint(lint: Lint) -> Option<u32>
    ensures { result ≡ tag_of_lint lint }
{
    match lint {
        Lint::AlwaysHolds | Lint::NeverReached => Some(1),
        _ => None,
    }
}

/// The tag of a lint of a database.
fn tag_of_database(lint: DatabaseLint) -> Option<u32>
    ensures { result ≡ tag_of_database lint }
{
    match lint {
        DatabaseLint::MatchTwice | DatabaseLint::PropertyTwice => Some(1),
        _ => None,
    }
}

/// The tag of a remark: 1 on what has no effect, which editors show faded, and 2 on what is out of use, which they strike out.
pub(crate) fn tag_of(remark: Remark) -> Option<u32>
    ensures { result ≡ tag_of remark }
{
    match remark {
        Remark::Message(kind) => tag_of_message(kind),
        Remark::Lint(lint) => tag_of_lint(lint),
        Remark::DatabaseLint(lint) => tag_of_database(lint),
        Remark::IdleIgnore => Some(1),
        _ => None,
    }
}
