//! An act of a rule, by what it does.
ghost use Rattle.std.specs.Prelude.{◌≡◌, [], IfOk, OnOk, OnErr, option_copied};
ghost use Rattle.eval_rendering.specs.Bounds.{most_command_bytes, most_path_bytes};
ghost use Rattle.eval_state.specs.Scenes.{blank};
ghost use Rattle.eval_acts.specs.ActTexts.{import_text, names_text, program_text, test_text};
ghost use Rattle.eval_acts.specs.Acts.{act_step, from_parent_by, import_reached, imported, on_text, performed, proceeds, too_long_noted};
ghost use Rattle.eval_acts.specs.Imports.{from_program, run_builtin};
ghost use Rattle.eval_acts.specs.Questions.{answered_by_block, tested, with_result};
ghost use Rattle.eval_acts.specs.RootImports.{from_file};
ghost use Rattle.eval_acts.specs.Unread.{unread_noted};

use crate::act_texts::{import_text, names_text, plain_command, program_text, test_text};
use crate::imports::{
    import_cmdline, import_named, import_parent, import_printed, not_run, run_builtin,
};
use crate::questions::{ask, clear_result, look_for};
use crate::root_imports::import_file;
use crate::stored::import_stored;
use crate::unread::note_unread;
use builtin_devices::Knowledge;
use eval_rendering::{MAX_COMMAND_BYTES, MAX_PATH_BYTES, Rendered, agrees};
use eval_state::Scene;
use rule_tokens::Template;
use rule_types::{Act, ActKind, Import, MatchOperator, Rule};
use std::alloc::{AllocError, Global};
use text_bytes::{Bytes, Profile};

/// TEST.
fn test(
    alloc: Global,
    rule: &Rule,
    mask: Option<&Bytes>,
    template: &Template,
    scene: &mut Scene<'_>,
) -> Result<Option<bool>, AllocError>
    ensures scene { IfOk result (λ done. (scene.new, done)
        ≡ on_text (tested rule.now (option_copied mask.entry)) (test_text template.now scene.old.state) scene.old) }
    ensures refused { OnErr result (scene.new.state.event ≡ scene.old.state.event) }
{
    match test_text(alloc, template, &scene.state)? {
        Rendered::Text(path) => {
            let done = look_for(alloc, rule, mask, path.as_slice(), scene)?;
            Ok(Some(done))
        }
        Rendered::TooLong => Ok(None),
    }
}

/// PROGRAM.
fn program(
    alloc: Global,
    rule: &Rule,
    template: &Template,
    scene: &mut Scene<'_>,
) -> Result<Option<bool>, AllocError>
    ensures scene { IfOk result (λ done. (scene.new, done)
        ≡ on_text (answered_by_block rule.now) (program_text template.now scene.old.state) (with_result [] scene.old)) }
    ensures refused { OnErr result (scene.new.state.event ≡ scene.old.state.event) }
{
    let text = program_text(alloc, template, &mut scene.state)?;
    clear_result(alloc, scene);
    match text {
        Rendered::Text(command) => Ok(Some(ask(alloc, rule, command.as_slice(), scene)?)),
        Rendered::TooLong => Ok(None),
    }
}

/// IMPORT{builtin}.
fn builtin<K: Knowledge>(
    alloc: Global,
    rule: &Rule,
    template: &Template,
    knowledge: &K,
    scene: &mut Scene<'_>,
) -> Result<Option<bool>, AllocError>
    ensures scene { IfOk result (λ done. (scene.new, done)
        ≡ on_text (run_builtin (K.known knowledge.now) rule.now) (import_text most_command_bytes template.now scene.old.state) scene.old) }
    ensures refused { OnErr result (scene.new.state.event ≡ scene.old.state.event) }
{
    if let Some(command) = plain_command(template) {
        let done = run_builtin(alloc, rule, command, knowledge, scene)?;
        return Ok(Some(done));
    }
    match import_text(alloc, MAX_COMMAND_BYTES, template, &scene.state)? {
        Rendered::Text(command) => {
            let done = run_builtin(alloc, rule, command.as_slice(), knowledge, scene)?;
            Ok(Some(done))
        }
        Rendered::TooLong => Ok(None),
    }
}

/// IMPORT{builtin} for udev: an attribute that it would read for the command, and a dry run does not, leaves a note.
fn builtin_noted<K: Knowledge>(
    alloc: Global,
    rule: &Rule,
    template: &Template,
    knowledge: &K,
    scene: &mut Scene<'_>,
) -> Result<Option<bool>, AllocError>
    ensures scene { IfOk result (λ done. (scene.new, done)
        ≡ on_text (run_builtin (K.known knowledge.now) rule.now) (import_text most_command_bytes template.now scene.old.state)
        (unread_noted rule.now template.now scene.old)) }
    ensures refused { OnErr result (scene.new.state.event ≡ scene.old.state.event) }
{
    note_unread(alloc, rule, template, scene)?;
    builtin(alloc, rule, template, knowledge, scene)
}

/// IMPORT{parent} for udev.
fn parent_named(
    alloc: Global,
    text: &[u8],
    scene: &mut Scene<'_>,
) -> Result<Option<bool>, AllocError>
    ensures scene { IfOk result (λ done. (scene.new, done) ≡ on_text from_parent_by (names_text text.now scene.old.state) scene.old) }
    ensures refused { OnErr result (scene.new.state.event ≡ scene.old.state.event) }
{
    match names_text(alloc, text, &scene.state)? {
        Rendered::Text(names) => Ok(Some(import_named(alloc, names.as_slice(), scene)?)),
        Rendered::TooLong => Ok(None),
    }
}

/// IMPORT{program} for udev.
fn program_answered(
    alloc: Global,
    rule: &Rule,
    template: &Template,
    scene: &mut Scene<'_>,
) -> Result<Option<bool>, AllocError>
    ensures scene { IfOk result (λ done. (scene.new, done)
        ≡ on_text (from_program rule.now) (import_text most_command_bytes template.now scene.old.state) scene.old) }
    ensures refused { OnErr result (scene.new.state.event ≡ scene.old.state.event) }
{
    match import_text(alloc, MAX_COMMAND_BYTES, template, &scene.state)? {
        Rendered::Text(command) => {
            let done = import_printed(alloc, rule, command.as_slice(), scene)?;
            Ok(Some(done))
        }
        Rendered::TooLong => Ok(None),
    }
}

/// IMPORT{file} for udev.
fn file_named<K: Knowledge>(
    alloc: Global,
    rule: &Rule,
    template: &Template,
    knowledge: &K,
    scene: &mut Scene<'_>,
) -> Result<Option<bool>, AllocError>
    ensures scene { IfOk result (λ done. (scene.new, done)
        ≡ on_text (from_file (K.known knowledge.now) rule.now) (import_text most_path_bytes template.now scene.old.state) scene.old) }
    ensures refused { OnErr result (scene.new.state.event ≡ scene.old.state.event) }
{
    match import_text(alloc, MAX_PATH_BYTES, template, &scene.state)? {
        Rendered::Text(path) => {
            let done = import_file(alloc, rule, path.as_slice(), knowledge, scene)?;
            Ok(Some(done))
        }
        Rendered::TooLong => Ok(None),
    }
}

/// IMPORT by the manual, by where it takes properties from.
fn import_manual<K: Knowledge>(
    alloc: Global,
    rule: &Rule,
    from: &Import,
    knowledge: &K,
    scene: &mut Scene<'_>,
) -> Result<Option<bool>, AllocError>
    ensures scene { IfOk result (λ done. (scene.new, done) ≡ imported Profile.Manual (K.known knowledge.now) rule.now from.now scene.old) }
    ensures refused { OnErr result (scene.new.state.event ≡ scene.old.state.event) }
{
    match from {
        Import::Builtin(template) => builtin(alloc, rule, template, knowledge, scene),
        Import::Parent(names, _) => Ok(Some(import_parent(alloc, names, scene)?)),
        other => Ok(Some(not_run(alloc, rule, other.import_type(), scene)?)),
    }
}

/// IMPORT for udev, by where it takes properties from.
fn import_udev<K: Knowledge>(
    alloc: Global,
    rule: &Rule,
    from: &Import,
    knowledge: &K,
    scene: &mut Scene<'_>,
) -> Result<Option<bool>, AllocError>
    ensures scene { IfOk result (λ done. (scene.new, done)
        ≡ imported Profile.Udev (K.known knowledge.now) rule.now from.now (import_reached Profile.Udev rule.now from.now scene.old)) }
    ensures refused { OnErr result (scene.new.state.event ≡ scene.old.state.event) }
{
    match from {
        Import::Builtin(template) => builtin_noted(alloc, rule, template, knowledge, scene),
        Import::Parent(_, text) => parent_named(alloc, text.as_slice(), scene),
        Import::Program(template) => program_answered(alloc, rule, template, scene),
        Import::File(template) => file_named(alloc, rule, template, knowledge, scene),
        Import::Cmdline(name) => Ok(Some(import_cmdline(alloc, rule, name.as_slice(), scene)?)),
        Import::Db(name) => Ok(Some(import_stored(alloc, rule, name.as_slice(), scene)?)),
    }
}

/// IMPORT.
fn import<K: Knowledge>(
    alloc: Global,
    rule: &Rule,
    from: &Import,
    knowledge: &K,
    scene: &mut Scene<'_>,
) -> Result<Option<bool>, AllocError>
    ensures scene { IfOk result (λ done. (scene.new, done) ≡ imported scene.old.state.event.profile (K.known knowledge.now) rule.now from.now
        (import_reached scene.old.state.event.profile rule.now from.now scene.old)) }
    ensures refused { OnErr result (scene.new.state.event ≡ scene.old.state.event) }
{
    match scene.state.event.event().profile() {
        Profile::Manual => import_manual(alloc, rule, from, knowledge, scene),
        Profile::Udev => import_udev(alloc, rule, from, knowledge, scene),
    }
}

/// Does what an act asks for, and returns whether it was done; `None` if its text is too long.
fn perform<K: Knowledge>(
    alloc: Global,
    rule: &Rule,
    act_kind: &ActKind,
    knowledge: &K,
    scene: &mut Scene<'_>,
) -> Result<Option<bool>, AllocError>
    ensures scene { IfOk result (λ done. (scene.new, done) ≡ performed (K.known knowledge.now) rule.now act_kind.now scene.old) }
    ensures refused { OnErr result (scene.new.state.event ≡ scene.old.state.event) }
{
    match act_kind {
        ActKind::Test(mask, template) => test(alloc, rule, mask.as_ref(), template, scene),
        ActKind::Program(template) => program(alloc, rule, template, scene),
        ActKind::Import(from) => import(alloc, rule, from, knowledge, scene),
    }
}

/// Leaves a note on the text of an act, if it is too long.
fn note_too_long(
    alloc: Global,
    rule: &Rule,
    act_kind: &ActKind,
    done: Option<bool>,
    scene: &mut Scene<'_>,
) -> Result<(), AllocError>
    ensures scene { OnOk result (scene.new ≡ too_long_noted rule.now act_kind.now done scene.old) }
    ensures refused { OnErr result (scene.new.state.event ≡ scene.old.state.event) }
{
    match done {
        Some(_) => Ok(()),
        None => scene.note_too_long(alloc, rule, act_kind.key(), act_kind.attribute()),
    }
}

/// Whether a rule goes on: with `==` if its act was done, with `!=` if it was not. An act whose text is too long was not
/// done for the manual, and stops the rule for udev.
fn proceeds(done: Option<bool>, profile: Profile, operator: MatchOperator) -> bool
    ensures { result ≡ proceeds done profile operator }
{
    match (done, profile) {
        (Some(done), _) => agrees(operator, done),
        (None, Profile::Manual) => agrees(operator, false),
        (None, Profile::Udev) => false,
    }
}

/// Does what an act asks for, and returns whether it was done; if its text is too long, leaves a note and returns `None`.
fn act_noted<K: Knowledge>(
    alloc: Global,
    rule: &Rule,
    act_kind: &ActKind,
    knowledge: &K,
    scene: &mut Scene<'_>,
) -> Result<Option<bool>, AllocError>
    ensures scene { IfOk result (λ done. (scene.new
        ≡ too_long_noted rule.now act_kind.now done (performed (K.known knowledge.now) rule.now act_kind.now scene.old).0)
        × (done ≡ (performed (K.known knowledge.now) rule.now act_kind.now scene.old).1)) }
    ensures refused { OnErr result (scene.new.state.event ≡ scene.old.state.event) }
{
    let done = perform(alloc, rule, act_kind, knowledge, scene)?;
    note_too_long(alloc, rule, act_kind, done, scene)?;
    Ok(done)
}

/// Does what an act of a rule asks for, as udev(7) has it, and returns whether the rule goes on: with `==` if the act was
/// done, with `!=` if it was not. What was changed stays either way.
///
/// TEST is done if the event device has an attribute of the rendered path; for an absolute path or with a mask it leaves
/// the note `test not made` and is not done. PROGRAM is done if the event's block answers the rendered command with
/// status 0; the answer is then the result, and otherwise the result is empty; without an answer it leaves the note
/// `no answer for program`. IMPORT{parent} takes the properties of the second device of the chain whose names fit, and is
/// done if there is such a device. IMPORT{builtin} looks up what `hwdb` is asked for and takes what is found; it is done
/// if something is found, and leaves the notes `builtin not run` and `bad hwdb arguments`. Other types of IMPORT leave the
/// note `import not run` and are not done. A text over 16,384 bytes leaves the note `text too long`, and its act is not
/// done.
///
/// In an event of udev's (systemd 257) TEST is done if the name of an attribute is the path or begins with it and a
/// slash, and for the empty path; the first `*/` in it stands for a folder, and `[SUBSYSTEM/KERNEL]` in front for a
/// device of the chain, without which the test is not made. PROGRAM empties the result before its command is rendered,
/// and the result has `_` for bytes that do not belong in an attribute. The value of IMPORT{parent} is rendered, and is
/// one pattern of fnmatch(3). IMPORT{program} is done if the event's block answers the rendered command with status 0,
/// and sets the properties that the answer gives, one for each line; without an answer it leaves the note `no answer for
/// program`. IMPORT{file} is done if a file was found at the rendered path in the root, and sets the properties that its
/// lines give; if the path was not looked at, or the file has over 65,536 bytes, it leaves the note `import not run`.
/// The beginning of `hwdb` may be written for it; an empty value that it finds removes the property.
/// IMPORT{db} is done if the block says that udev had stored the property, which it sets, and fails on `remove`; if the
/// block says of no property that it was stored, it leaves the note `import not run`. An attribute in the command of a
/// builtin that udev would read, and a dry run does not, leaves the note `attribute not read`. A text over 1,023 bytes of
/// TEST, IMPORT{parent} and IMPORT{file}, or over 16,383 bytes of PROGRAM and other types of IMPORT, leaves the note `text
/// too long`, and stops the rule with either operator; so does a TEST whose path has over 1,023 bytes with `/sys`, the path
/// of the event device and a slash before it.
///
/// If memory runs out, nothing is left of the scene but its event.
#[tactic(auto, unfolding(crate::specs::Acts::act_step))]
pub fn act_step<K: Knowledge>(
    alloc: Global,
    rule: &Rule,
    act: &Act,
    knowledge: &K,
    scene: &mut Scene<'_>,
) -> Result<bool, AllocError>
    ensures scene { IfOk result (λ on. (scene.new, on) ≡ act_step (K.known knowledge.now) rule.now act.now scene.old) }
    ensures refused { OnErr result (scene.new ≡ blank scene.old.state.event) }
{
    let profile = scene.state.event.event().profile();
    match act_noted(alloc, rule, &act.kind, knowledge, scene) {
        Ok(done) => Ok(proceeds(done, profile, act.operator)),
        Err(refused) => {
            scene.clear(alloc);
            Err(refused)
        }
    }
}
