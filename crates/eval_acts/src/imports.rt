//! Properties that IMPORT takes from elsewhere.
ghost use Rattle.std.specs.Prelude.{◌≡◌, IfOk, OnErr, OnOk, option_map};
ghost use Rattle.std.specs.Option.{option_and_then};
ghost use Rattle.text_tables.specs.Pairs.{value_of, with_values};
ghost use Rattle.trie_nodes.specs.Query.{shown};
ghost use Rattle.eval_state.specs.Chains.{device_at};
ghost use Rattle.text_bytes.specs.declared.profile.Profile.TheVariants.{Udev};
ghost use Rattle.eval_state.specs.Properties.{given_properties, properties_set};
ghost use Rattle.eval_state.specs.declared.note_kind.NoteKind.TheVariants.{BuiltinNotRun};
ghost use Rattle.eval_commands.specs.Builtins.{builtin_question};
ghost use Rattle.eval_commands.specs.Cmdline.{cmdline_value};
ghost use Rattle.text_core.specs.Choices.{choice_fits};
ghost use Rattle.eval_acts.specs.Acts.{from_parent_by};
ghost use Rattle.eval_acts.specs.Imports.{from_answer, from_answer_or_noted, from_cmdline, from_parent, from_part, from_program, name_given};
ghost use Rattle.eval_acts.specs.Imports.{names_fitting, not_run, parent_properties, run_builtin, taken, with_found, words_for};

use crate::builtin_runs::{run_input_id, run_net_id, run_net_setup_link, run_path_id, run_usb_id};
use crate::hwdb_runs::run_hwdb;
use crate::printed::set_printed;
use builtin_devices::Knowledge;
use device_core::{Device, Event, ProgramAnswer};
use eval_commands::{Builtin, Request, builtin_question, cmdline_value, other_name, request_of};
use eval_state::{NoteKind, Scene, set_property};
use rule_types::{ImportType, Rule};
use std::alloc::{AllocError, Global};
use text_bytes::{Bytes, Profile};
use text_core::{Choice, Pattern, Reading};
use text_tables::{CowPairs, Pairs};

/// Sets each of these properties.
fn set_each(
    alloc: Global,
    env: &mut CowPairs<'_>,
    found: &[(&[u8], &[u8])],
) -> Result<(), AllocError>
    ensures { OnOk result (env.new ≡ with_values env.old (shown found.now)) }
{
    for (name, value) in found {
        env.set(alloc, name, value)?;
    }
    Ok(())
}

/// Sets each of these properties as udev does: an empty value removes its property.
pub(crate) fn set_as_udev(
    alloc: Global,
    env: &mut CowPairs<'_>,
    found: &[(&[u8], &[u8])],
) -> Result<(), AllocError>
    ensures { OnOk result (env.new ≡ properties_set env.old (shown found.now)) }
{
    for (name, value) in found {
        set_property(alloc, name, value, env)?;
    }
    Ok(())
}

/// Sets the properties that were found.
fn set_found(
    alloc: Global,
    profile: Profile,
    env: &mut CowPairs<'_>,
    found: &[(&[u8], &[u8])],
) -> Result<(), AllocError>
    ensures { OnOk result (env.new ≡ with_found profile env.old (shown found.now)) }
{
    match profile {
        Profile::Manual => set_each(alloc, env, found),
        Profile::Udev => set_as_udev(alloc, env, found),
    }
}

/// Takes the properties that were found, and returns whether there are any.
pub(crate) fn take(
    alloc: Global,
    found: &[(&[u8], &[u8])],
    scene: &mut Scene<'_>,
) -> Result<bool, AllocError>
    ensures scene { IfOk result (λ done. (scene.new, done) ≡ taken (shown found.now) scene.old) }
    ensures refused { OnErr result (scene.new.state.event ≡ scene.old.state.event) }
{
    let profile = scene.state.event.event().profile();
    set_found(alloc, profile, &mut scene.state.env, found)?;
    Ok(!found.is_empty())
}

/// Takes the properties of what was answered, if its status is 0.
fn take_printed(
    alloc: Global,
    answer: &ProgramAnswer<'_>,
    scene: &mut Scene<'_>,
) -> Result<bool, AllocError>
    ensures scene { IfOk result (λ done. (scene.new, done) ≡ from_answer answer.now scene.old) }
    ensures refused { OnErr result (scene.new.state.event ≡ scene.old.state.event) }
{
    if answer.status() != 0 {
        return Ok(false);
    }
    set_printed(alloc, answer.text(), &mut scene.state.env)?;
    Ok(true)
}

/// Takes the properties of what the event's block answers to a question, or leaves a note.
fn take_answer(
    alloc: Global,
    rule: &Rule,
    question: &[u8],
    kind: NoteKind,
    word: &[u8],
    scene: &mut Scene<'_>,
) -> Result<bool, AllocError>
    ensures scene { IfOk result (λ done. (scene.new, done)
        ≡ from_answer_or_noted rule.now kind word.now (value_of scene.old.state.event.programs question.now) scene.old) }
    ensures refused { OnErr result (scene.new.state.event ≡ scene.old.state.event) }
{
    match scene.state.event.event().programs().get(question) {
        Some(answer) => take_printed(alloc, answer, scene),
        None => {
            scene.note(alloc, rule, kind, word)?;
            Ok(false)
        }
    }
}

/// Takes what the event's block answers to the command of a builtin that is not computed.
fn import_answered(
    alloc: Global,
    rule: &Rule,
    command: &[u8],
    name: &[u8],
    scene: &mut Scene<'_>,
) -> Result<bool, AllocError>
    ensures scene { IfOk result (λ done. (scene.new, done)
        ≡ from_answer_or_noted rule.now BuiltinNotRun name.now (value_of scene.old.state.event.programs (builtin_question command.now)) scene.old) }
    ensures refused { OnErr result (scene.new.state.event ≡ scene.old.state.event) }
{
    let question = builtin_question(alloc, command)?;
    let kind = NoteKind::BuiltinNotRun;
    take_answer(alloc, rule, question.as_slice(), kind, name, scene)
}

/// Runs the builtin of a command, if it is one that is run.
pub(crate) fn run_builtin<K: Knowledge>(
    alloc: Global,
    rule: &Rule,
    command: &[u8],
    knowledge: &K,
    scene: &mut Scene<'_>,
) -> Result<bool, AllocError>
    ensures scene { IfOk result (λ done. (scene.new, done) ≡ run_builtin (K.known knowledge.now) rule.now command.now scene.old) }
    ensures refused { OnErr result (scene.new.state.event ≡ scene.old.state.event) }
{
    let profile = scene.state.event.event().profile();
    if let Some(name) = other_name(profile, command) {
        scene.note(alloc, rule, NoteKind::BuiltinNotRun, name)?;
        return Ok(false);
    }
    if let Some(request) = request_of(profile, command) {
        return run_hwdb(alloc, rule, &request, knowledge, scene);
    }
    match Builtin::read(alloc, profile, command)? {
        Builtin::Hwdb(hwdb) => run_hwdb(alloc, rule, &Request::of(&hwdb), knowledge, scene),
        Builtin::InputId => run_input_id(alloc, rule, knowledge, scene),
        Builtin::NetId => run_net_id(alloc, rule, knowledge, scene),
        Builtin::NetSetupLink => run_net_setup_link(alloc, rule, knowledge, scene),
        Builtin::PathId => run_path_id(alloc, rule, knowledge, scene),
        Builtin::UsbId => run_usb_id(alloc, rule, knowledge, scene),
        Builtin::SetsNothing => Ok(true),
        Builtin::Fails => Ok(false),
        Builtin::Answered(name) => import_answered(alloc, rule, command, name.as_slice(), scene),
        Builtin::Other(name) => {
            scene.note(alloc, rule, NoteKind::BuiltinNotRun, name.as_slice())?;
            Ok(false)
        }
        Builtin::BadArguments => {
            scene.note(alloc, rule, NoteKind::BadHwdbArguments, command)?;
            Ok(false)
        }
    }
}

/// Whether one of these patterns fits a name.
fn any_fits(patterns: &[Pattern], name: &[u8]) -> bool
    ensures { result ≡ choice_fits patterns.now name.now }
{
    patterns.iter().any(|pattern| pattern.fits(name))
}

/// Sets those of a device's properties whose names fit one of these patterns.
fn set_fitting(
    alloc: Global,
    env: &mut CowPairs<'_>,
    names: &[Pattern],
    properties: &Pairs<'_>,
) -> Result<(), AllocError>
    ensures { OnOk result (env.new ≡ with_values env.old (names_fitting names.now properties.now)) }
{
    for (name, value) in properties.as_map().iter() {
        if any_fits(names, name) {
            env.set(alloc, name, value)?;
        }
    }
    Ok(())
}

/// Sets those that are not empty.
fn set_filled_fitting(
    alloc: Global,
    env: &mut CowPairs<'_>,
    names: &[Pattern],
    properties: &Pairs<'_>,
) -> Result<(), AllocError>
    ensures { OnOk result (env.new ≡ with_values env.old (names_fitting names.now (given_properties Udev properties.now))) }
{
    for (name, value) in properties.as_map().iter() {
        if !value.is_empty() && any_fits(names, name) {
            env.set(alloc, name, value)?;
        }
    }
    Ok(())
}

/// Sets those that a device has by a profile.
fn set_given_fitting(
    alloc: Global,
    profile: Profile,
    env: &mut CowPairs<'_>,
    names: &[Pattern],
    parent: &Device<'_>,
) -> Result<(), AllocError>
    ensures { OnOk result (env.new ≡ with_values env.old (names_fitting names.now (parent_properties profile parent.now))) }
{
    match profile {
        Profile::Manual => set_fitting(alloc, env, names, parent.env()),
        Profile::Udev if parent.subsystem().is_none() => Ok(()),
        Profile::Udev => set_filled_fitting(alloc, env, names, parent.env()),
    }
}

/// Takes the properties of the second device of the chain whose names fit one of these patterns, if there is one.
fn import_fitting(
    alloc: Global,
    names: &[Pattern],
    scene: &mut Scene<'_>,
) -> Result<bool, AllocError>
    ensures scene { IfOk result (λ done. (scene.new, done) ≡ from_parent names.now (device_at scene.old.state.event 1) scene.old) }
    ensures refused { OnErr result (scene.new.state.event ≡ scene.old.state.event) }
{
    match scene.state.event.device_at(1) {
        Some(parent) => {
            let profile = scene.state.event.event().profile();
            set_given_fitting(alloc, profile, &mut scene.state.env, names, parent)?;
            Ok(true)
        }
        None => Ok(false),
    }
}

/// IMPORT{parent} by the manual.
pub(crate) fn import_parent(
    alloc: Global,
    names: &Choice,
    scene: &mut Scene<'_>,
) -> Result<bool, AllocError>
    ensures scene { IfOk result (λ done. (scene.new, done) ≡ from_parent names.now (device_at scene.old.state.event 1) scene.old) }
    ensures refused { OnErr result (scene.new.state.event ≡ scene.old.state.event) }
{
    import_fitting(alloc, names.parts(), scene)
}

/// IMPORT{parent} for udev, whose rendered value is one pattern of fnmatch(3).
pub(crate) fn import_named(
    alloc: Global,
    text: &[u8],
    scene: &mut Scene<'_>,
) -> Result<bool, AllocError>
    ensures scene { IfOk result (λ done. (scene.new, done) ≡ from_parent_by text.now scene.old) }
    ensures refused { OnErr result (scene.new.state.event ≡ scene.old.state.event) }
{
    let names = [Pattern::read_fnmatch(alloc, Reading::Exact, text)?];
    import_fitting(alloc, &names, scene)
}

/// Takes the properties of what the event's block answers to a command.
pub(crate) fn import_printed(
    alloc: Global,
    rule: &Rule,
    command: &[u8],
    scene: &mut Scene<'_>,
) -> Result<bool, AllocError>
    ensures scene { IfOk result (λ done. (scene.new, done) ≡ from_program rule.now command.now scene.old) }
    ensures refused { OnErr result (scene.new.state.event ≡ scene.old.state.event) }
{
    take_answer(alloc, rule, command, NoteKind::NoAnswer, command, scene)
}

/// Notes that an IMPORT of a type is never run.
pub(crate) fn not_run(
    alloc: Global,
    rule: &Rule,
    import_type: ImportType,
    scene: &mut Scene<'_>,
) -> Result<bool, AllocError>
    ensures scene { IfOk result (λ done. (scene.new, done) ≡ not_run rule.now import_type scene.old) }
    ensures refused { OnErr result (scene.new.state.event ≡ scene.old.state.event) }
{
    scene.note(alloc, rule, NoteKind::ImportNotRun, import_type.name())?;
    Ok(false)
}

/// The constant of an event in which a name is looked up; no empty name is.
fn words_for<'a>(constant: &[u8], name: &[u8], event: &Event<'a>) -> Option<&'a [u8]>
    ensures { option_map (λ words. words.now) result ≡ words_for constant.now name.now event.now }
{
    if name.is_empty() {
        None
    } else {
        event.constants().get(constant)
    }
}

/// Sets a name to what the kernel's command line gives it, and returns whether that gives anything.
fn set_given(
    alloc: Global,
    name: &[u8],
    given: Option<Bytes>,
    scene: &mut Scene<'_>,
) -> Result<bool, AllocError>
    ensures scene { IfOk result (λ done. (scene.new, done) ≡ name_given name.now given scene.old) }
    ensures refused { OnErr result (scene.new.state.event ≡ scene.old.state.event) }
{
    match given {
        Some(value) => {
            set_property(alloc, name, value.as_slice(), &mut scene.state.env)?;
            Ok(true)
        }
        None => Ok(false),
    }
}

/// What some of the words on the kernel's command line give a name.
fn given_by_part(
    alloc: Global,
    name: &[u8],
    part: Option<&[u8]>,
) -> Result<Option<Bytes>, AllocError>
    ensures { IfOk result (λ given. given ≡ option_and_then (cmdline_value name.now) (option_map (λ t. t.now) part.entry)) }
{
    match part {
        Some(words) => cmdline_value(alloc, name, words),
        None => Ok(None),
    }
}

/// IMPORT{cmdline} for udev, by what some of the words on the kernel's command line give the name.
fn import_part(
    alloc: Global,
    rule: &Rule,
    name: &[u8],
    given: Option<Bytes>,
    scene: &mut Scene<'_>,
) -> Result<bool, AllocError>
    ensures scene { IfOk result (λ done. (scene.new, done) ≡ from_part rule.now name.now given scene.old) }
    ensures refused { OnErr result (scene.new.state.event ≡ scene.old.state.event) }
{
    match given {
        Some(value) => set_given(alloc, name, Some(value), scene),
        None => not_run(alloc, rule, ImportType::Cmdline, scene),
    }
}

/// IMPORT{cmdline} for udev, by the kernel's command line that the event's block gives, or by some of its words.
pub(crate) fn import_cmdline(
    alloc: Global,
    rule: &Rule,
    name: &[u8],
    scene: &mut Scene<'_>,
) -> Result<bool, AllocError>
    ensures scene { IfOk result (λ done. (scene.new, done) ≡ from_cmdline rule.now name.now scene.old) }
    ensures refused { OnErr result (scene.new.state.event ≡ scene.old.state.event) }
{
    let event = scene.state.event.event();
    match words_for(b"cmdline", name, event) {
        Some(line) => set_given(alloc, name, cmdline_value(alloc, name, line)?, scene),
        None => {
            let given = given_by_part(alloc, name, words_for(b"cmdline.part", name, event))?;
            import_part(alloc, rule, name, given, scene)
        }
    }
}
