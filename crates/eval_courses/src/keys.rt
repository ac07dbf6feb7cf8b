//! How a key of a rule is written.
ghost use Rattle.std.specs.Prelude.{◌≡◌, ◌++◌, OnOk};
ghost use Rattle.text_bytes.specs.Text.{Text};
ghost use Rattle.eval_courses.specs.Keys.{case_mark, comparison_text, operator_text, value_of_act_kind, wanted_text};

use eval_effects::{push_key, push_shortened};
use rule_types::{Act, ActKind, Comparison, Import, Key, MatchOperator, PlainMatch, UpMatch};
use std::alloc::{AllocError, Global};

/// A key of a rule, as it is written.
pub(crate) trait Written {
    // how it is written
    ghost written: { Self → Text };

    /// Appends it to a text.
    fn push_written(&self, alloc: Global, text: &mut Vec<u8>) -> Result<(), AllocError>
        ensures { OnOk result (text.new.items ≡ text.old.items ++ written self.now) };
}

/// The operator of a match.
fn operator_text(operator: MatchOperator) -> &'static [u8]
    ensures { result.now ≡ operator_text operator }
{
    match operator {
        MatchOperator::Equal => b"==",
        MatchOperator::NotEqual => b"!=",
    }
}

/// The letter before a value whose case is ignored.
fn case_mark(blind: bool) -> &'static [u8]
    ensures { result.now ≡ case_mark blind }
{
    if blind { b"i" } else { b"" }
}

/// Appends what a key is compared with to a text.
#[tactic(auto, unfolding(crate::specs::Keys::wanted_text))]
fn push_wanted(
    alloc: Global,
    text: &mut Vec<u8>,
    operator: MatchOperator,
    blind: bool,
    value: &[u8],
) -> Result<(), AllocError>
    ensures { OnOk result (text.new.items ≡ text.old.items ++ wanted_text operator blind value.now) }
{
    text.extend_from_slice(operator_text(operator))?;
    text.extend_from_slice(case_mark(blind))?;
    text.push(b'"')?;
    push_shortened(alloc, text, value)?;
    text.push(b'"')?;
    Ok(())
}

/// Appends a comparison to a text.
fn push_comparison(alloc: Global, text: &mut Vec<u8>, wanted: &Comparison) -> Result<(), AllocError>
    ensures { OnOk result (text.new.items ≡ text.old.items ++ comparison_text wanted.now) }
{
    push_wanted(
        alloc,
        text,
        wanted.operator,
        wanted.blind,
        wanted.written.as_slice(),
    )
}

/// A match of the event.
impl Written for PlainMatch {
    ghost use Rattle.eval_courses.specs.Keys.{plain_key};

    ghost written = { plain_key };

    fn push_written(&self, alloc: Global, text: &mut Vec<u8>) -> Result<(), AllocError> {
        push_key(alloc, text, self.key.key(), self.key.attribute())?;
        push_comparison(alloc, text, &self.wanted)
    }
}

/// A match of one device.
impl Written for UpMatch {
    ghost use Rattle.eval_courses.specs.Keys.{up_key};

    ghost written = { up_key };

    fn push_written(&self, alloc: Global, text: &mut Vec<u8>) -> Result<(), AllocError> {
        push_key(alloc, text, self.key.key(), self.key.attribute())?;
        push_comparison(alloc, text, &self.wanted)
    }
}

/// A match of the result.
impl Written for Comparison {
    ghost use Rattle.eval_courses.specs.Keys.{result_key};

    ghost written = { result_key };

    fn push_written(&self, alloc: Global, text: &mut Vec<u8>) -> Result<(), AllocError> {
        push_key(alloc, text, Key::Result, None)?;
        push_comparison(alloc, text, self)
    }
}

/// The value of an act as it was given.
fn value_of_act_kind(act_kind: &ActKind) -> &[u8]
    ensures { result.now ≡ value_of_act_kind act_kind.now }
{
    match act_kind {
        ActKind::Test(_, template) | ActKind::Program(template) => template.written(),
        ActKind::Import(
            Import::Program(template) | Import::Builtin(template) | Import::File(template),
        ) => template.written(),
        ActKind::Import(Import::Parent(_, value) | Import::Cmdline(value) | Import::Db(value)) =>
            value.as_slice(),
    }
}

/// What acts.
impl Written for Act {
    ghost use Rattle.eval_courses.specs.Keys.{act_key};

    ghost written = { act_key };

    fn push_written(&self, alloc: Global, text: &mut Vec<u8>) -> Result<(), AllocError> {
        push_key(alloc, text, self.kind.key(), self.kind.attribute())?;
        push_wanted(
            alloc,
            text,
            self.operator,
            false,
            value_of_act_kind(&self.kind),
        )
    }
}
