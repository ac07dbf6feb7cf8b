//! The tables of the kinds of words.
ghost use Rattle.std.specs.Prelude.{◌≡◌};
ghost use Rattle.lsp_words.specs.Entries.{rows_in};
ghost use Rattle.lsp_words.specs.Tables.{entries_of};

use crate::actions::ACTIONS;
use crate::attributes::ATTRIBUTES;
use crate::braces::{CONSTANTS, IMPORT_TYPES, MODULES, RUN_TYPES};
use crate::builtins::BUILTINS;
use crate::database::DATABASE;
use crate::device_properties::DEVICE_PROPERTIES;
use crate::entries::Parts;
use crate::identity_properties::IDENTITY_PROPERTIES;
use crate::input_database::INPUT_DATABASE;
use crate::keys::KEYS;
use crate::kinds::WordKind;
use crate::matches::MATCHES;
use crate::operators::OPERATORS;
use crate::options::OPTIONS;
use crate::substitutions::{LETTERS, SUBSTITUTIONS};
use crate::subsystems::SUBSYSTEMS;
use crate::usb_attributes::USB_ATTRIBUTES;
use crate::use_properties::USE_PROPERTIES;

/// All words of a kind, each with what is told about it.
#[tactic(auto, using(crate::proofs::Finding::append_none), unfolding(crate::specs::Tables::entries_of))]
pub fn entries_of(kind: WordKind) -> Parts
    ensures { rows_in result ≡ entries_of kind }
{
    match kind {
        WordKind::Key => [&KEYS, &[], &[]],
        WordKind::Operator => [&OPERATORS, &[], &[]],
        WordKind::ImportType => [&IMPORT_TYPES, &[], &[]],
        WordKind::RunType => [&RUN_TYPES, &[], &[]],
        WordKind::Attribute => [&USB_ATTRIBUTES, &ATTRIBUTES, &[]],
        WordKind::Property => [&DEVICE_PROPERTIES, &IDENTITY_PROPERTIES, &USE_PROPERTIES],
        WordKind::Constant => [&CONSTANTS, &[], &[]],
        WordKind::Module => [&MODULES, &[], &[]],
        WordKind::Builtin => [&BUILTINS, &[], &[]],
        WordKind::RuleOption => [&OPTIONS, &[], &[]],
        WordKind::Action => [&ACTIONS, &[], &[]],
        WordKind::Subsystem => [&SUBSYSTEMS, &[], &[]],
        WordKind::Substitution => [&SUBSTITUTIONS, &[], &[]],
        WordKind::Letter => [&LETTERS, &[], &[]],
        WordKind::Match => [&MATCHES, &[], &[]],
        WordKind::DatabaseProperty => [&INPUT_DATABASE, &DATABASE, &[]],
    }
}
