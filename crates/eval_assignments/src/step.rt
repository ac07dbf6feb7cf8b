//! The assignments of a rule, one by one.
ghost use Rattle.std.specs.Prelude.{◌≡◌, OnOk, OnErr, option_copied, fold};
ghost use Rattle.eval_state.specs.Scenes.{blank};
ghost use Rattle.eval_assignments.specs.Escapes.{escape_of};
ghost use Rattle.eval_assignments.specs.Steps.{emptied, finally_too_long, is_ignored, is_of_node, lacks_number, run_step, set_step};
ghost use Rattle.eval_assignments.specs.Steps.{step_by, text_given, text_rendered, text_set, text_step, without_links};

use crate::assigning::assign;
use crate::bounds::most_bytes_of;
use crate::escapes::{Escape, escape_of, mode_of};
use crate::finals::{final_key, final_option, final_target, finish, is_settled};
use crate::givens::Given;
use crate::names::has_name;
use crate::options::set_option;
use crate::runs::{keep_run, render_run};
use device_core::DeviceNumber;
use eval_rendering::{Rendered, render};
use eval_state::{NoteKind, Scene};
use rule_tokens::Template;
use rule_types::{AssignOperator, Assignment, Change, Rule, RunType, Target};
use std::alloc::{AllocError, Global};
use text_bytes::{Bytes, Profile};

/// Whether an assignment is ignored: NAME if the device has no name to assign.
fn is_ignored(profile: Profile, target: &Target, scene: &Scene<'_>) -> bool
    ensures { result ≡ is_ignored profile target.now scene.now }
{
    match target {
        Target::Name => !has_name(profile, scene.state.event.device()),
        _ => false,
    }
}

/// An assignment of a text that is not too long; one that is ignored leaves a note.
fn set_given(
    alloc: Global,
    profile: Profile,
    given: &Given<'_>,
    text: Bytes,
    scene: &mut Scene<'_>,
) -> Result<(), AllocError>
    ensures scene { OnOk result (scene.new ≡ text_given profile given.now text scene.old) }
    ensures refused { OnErr result (scene.new.state.event ≡ scene.old.state.event) }
{
    if is_ignored(profile, given.target, scene) {
        return scene.note(alloc, given.rule, NoteKind::NameIgnored, text.as_slice());
    }
    assign(alloc, profile, given, text, scene)?;
    finish(given.operator, final_target(given.target), scene);
    Ok(())
}

/// What follows an assignment of a text that is too long: for udev `:=` nevertheless makes its key final.
fn finish_too_long(
    profile: Profile,
    operator: AssignOperator,
    target: &Target,
    scene: &mut Scene<'_>,
)
    ensures { scene.new ≡ finally_too_long profile operator target.now scene.old }
{
    match profile {
        Profile::Manual => {}
        Profile::Udev => finish(operator, final_target(target), scene),
    }
}

/// An assignment of a text once it is rendered; one that is too long leaves a note.
fn set_text(
    alloc: Global,
    profile: Profile,
    given: &Given<'_>,
    rendered: Rendered,
    scene: &mut Scene<'_>,
) -> Result<(), AllocError>
    ensures scene { OnOk result (scene.new ≡ text_set profile given.now rendered scene.old) }
    ensures refused { OnErr result (scene.new.state.event ≡ scene.old.state.event) }
{
    let target = given.target;
    match rendered {
        Rendered::Text(text) => set_given(alloc, profile, given, text, scene),
        Rendered::TooLong => {
            scene.note_too_long(alloc, given.rule, target.key(), target.attribute())?;
            finish_too_long(profile, given.operator, target, scene);
            Ok(())
        }
    }
}

/// Whether udev does nothing with a text if the device has no number.
fn is_of_node(target: &Target) -> bool
    ensures { result ≡ is_of_node target.now }
{
    match target {
        Target::Owner | Target::Group | Target::Mode => true,
        Target::Seclabel(_) | Target::Symlink => true,
        _ => false,
    }
}

/// Whether udev skips an assignment since the device has no number.
pub fn lacks_number(target: &Target, number: Option<&DeviceNumber<'_>>) -> bool
    ensures { result ≡ lacks_number target.now (option_copied number.entry) }
{
    match number {
        Some(_) => false,
        None => is_of_node(target),
    }
}

/// Removes all links.
fn clear_links(scene: &mut Scene<'_>)
    ensures { scene.new ≡ without_links scene.old }
{
    scene.state.links.clear();
}

/// Removes what udev removes before a text is rendered.
fn empty(operator: AssignOperator, target: &Target, scene: &mut Scene<'_>)
    ensures { scene.new ≡ emptied operator target.now scene.old }
{
    match target {
        Target::Symlink => match operator {
            AssignOperator::Assign | AssignOperator::AssignFinal => clear_links(scene),
            _ => {}
        },
        _ => {}
    }
}

/// Renders a text and assigns it, as the manual has it.
fn render_manual(
    alloc: Global,
    given: &Given<'_>,
    template: &Template,
    scene: &mut Scene<'_>,
) -> Result<(), AllocError>
    ensures scene { OnOk result (scene.new ≡ text_rendered Profile.Manual given.now template.now scene.old) }
    ensures refused { OnErr result (scene.new.state.event ≡ scene.old.state.event) }
{
    let profile = Profile::Manual;
    let mode = mode_of(profile, given.target, given.escape);
    let rendered = render(alloc, template, &scene.state, mode)?;
    set_text(alloc, profile, given, rendered, scene)
}

/// Renders a text and assigns it, as udev does: it has at most as many bytes as udev has room for.
fn render_udev(
    alloc: Global,
    given: &Given<'_>,
    template: &Template,
    scene: &mut Scene<'_>,
) -> Result<(), AllocError>
    ensures scene { OnOk result (scene.new ≡ text_rendered Profile.Udev given.now template.now scene.old) }
    ensures refused { OnErr result (scene.new.state.event ≡ scene.old.state.event) }
{
    let profile = Profile::Udev;
    let mode = mode_of(profile, given.target, given.escape);
    let rendered = render(alloc, template, &scene.state, mode)?;
    let short = rendered.within(most_bytes_of(given.target));
    set_text(alloc, profile, given, short, scene)
}

/// An assignment of a text, as udev makes it.
fn step_udev(
    alloc: Global,
    given: &Given<'_>,
    template: &Template,
    scene: &mut Scene<'_>,
) -> Result<(), AllocError>
    ensures scene { OnOk result (scene.new ≡ text_step Profile.Udev given.now template.now scene.old) }
    ensures refused { OnErr result (scene.new.state.event ≡ scene.old.state.event) }
{
    let target = given.target;
    if lacks_number(target, scene.state.event.device().number()) {
        let (key, attribute) = (target.key(), target.attribute());
        return scene.note_key(alloc, given.rule, NoteKind::NoDeviceNumber, key, attribute);
    }
    empty(given.operator, target, scene);
    render_udev(alloc, given, template, scene)
}

/// An assignment of a text.
fn step_text(
    alloc: Global,
    profile: Profile,
    given: &Given<'_>,
    template: &Template,
    scene: &mut Scene<'_>,
) -> Result<(), AllocError>
    ensures scene { OnOk result (scene.new ≡ text_step profile given.now template.now scene.old) }
    ensures refused { OnErr result (scene.new.state.event ≡ scene.old.state.event) }
{
    match profile {
        Profile::Manual => render_manual(alloc, given, template, scene),
        Profile::Udev => step_udev(alloc, given, template, scene),
    }
}

/// Adds a RUN: as it is written, or as udev renders it.
fn step_run<'a>(
    alloc: Global,
    profile: Profile,
    rule: &'a Rule,
    operator: AssignOperator,
    braces: Option<RunType>,
    template: &'a Template,
    scene: &mut Scene<'a>,
) -> Result<(), AllocError>
    ensures scene { OnOk result (scene.new ≡ run_step profile rule.now operator braces template.now scene.old) }
    ensures refused { OnErr result (scene.new.state.event ≡ scene.old.state.event) }
{
    match profile {
        Profile::Manual => keep_run(alloc, rule, operator, braces, template, scene),
        Profile::Udev => render_run(alloc, rule, operator, braces, template, scene),
    }
}

/// Makes an assignment, by what it changes and by how its rule treats bytes.
fn step_by<'a>(
    alloc: Global,
    profile: Profile,
    rule: &'a Rule,
    escape: Escape,
    assignment: &'a Assignment,
    scene: &mut Scene<'a>,
) -> Result<(), AllocError>
    requires { escape ≡ escape_of rule.now.sets }
    ensures scene { OnOk result (scene.new ≡ step_by profile rule.now assignment.now.operator assignment.now.change scene.old) }
    ensures refused { OnErr result (scene.new.state.event ≡ scene.old.state.event) }
{
    let operator = assignment.operator;
    match &assignment.change {
        Change::Option(option) => {
            set_option(*option, scene);
            finish(operator, final_option(profile, *option), scene);
            Ok(())
        }
        Change::Text(target, template) => {
            let given = Given {
                rule,
                escape,
                operator,
                target,
                written: template.written(),
            };
            step_text(alloc, profile, &given, template, scene)
        }
        Change::Run(braces, template) => {
            step_run(alloc, profile, rule, operator, *braces, template, scene)
        }
    }
}

/// Makes an assignment, unless its key is final.
#[tactic(auto, unfolding(crate::specs::Steps::set_step))]
fn set_open<'a>(
    alloc: Global,
    rule: &'a Rule,
    escape: Escape,
    assignment: &'a Assignment,
    scene: &mut Scene<'a>,
) -> Result<(), AllocError>
    requires { escape ≡ escape_of rule.now.sets }
    ensures scene { OnOk result (scene.new ≡ set_step rule.now scene.old assignment.now) }
    ensures refused { OnErr result (scene.new.state.event ≡ scene.old.state.event) }
{
    let profile = scene.state.event.event().profile();
    if is_settled(final_key(profile, &assignment.change), scene.finals) {
        return Ok(());
    }
    step_by(alloc, profile, rule, escape, assignment, scene)
}

/// Makes the assignments of a rule, one after another. How the rule treats bytes is determined once.
fn set_each<'a>(alloc: Global, rule: &'a Rule, scene: &mut Scene<'a>) -> Result<(), AllocError>
    ensures scene { OnOk result (scene.new ≡ fold (set_step rule.now) scene.old rule.now.sets) }
    ensures refused { OnErr result (scene.new.state.event ≡ scene.old.state.event) }
{
    let escape = escape_of(&rule.sets);
    for assignment in &rule.sets {
        set_open(alloc, rule, escape, assignment, scene)?;
    }
    Ok(())
}

/// Makes the assignments of a rule, one after another, each unless its key is final: udev(7), "assign
/// keys".
///
/// A text is rendered first. One of more than 16,384 bytes leaves a note and changes nothing, and so does a NAME
/// for what is not a network device. A RUN is kept as it is written, with the device that is selected now. After a
/// `:=` that was made, its key is final.
///
/// For udev they are made as udev makes them (systemd 257). A text has at most 511, 1,023 or 16,383 bytes, by its
/// key; a longer one nevertheless makes its key final with `:=`, and SYMLINK and RUN with `=` or `:=` have removed
/// what was there. Links, modes, tags, names and the names of attributes and parameters are as udev keeps them;
/// what it refuses leaves a note, and so does an assignment to the node of a device without a number, or to links
/// to it. A RUN is rendered at its rule.
///
/// If memory runs out, nothing is left of the scene but its event.
pub fn set_all<'a>(alloc: Global, rule: &'a Rule, scene: &mut Scene<'a>) -> Result<(), AllocError>
    ensures scene { OnOk result (scene.new ≡ fold (set_step rule.now) scene.old rule.now.sets) }
    ensures refused { OnErr result (scene.new ≡ blank scene.old.state.event) }
{
    let made = set_each(alloc, rule, scene);
    if made.is_err() {
        scene.clear(alloc);
    }
    made
}

/// Makes one assignment of a rule, unless its key is final, as `set_all` makes each of them. How the rule treats
/// bytes is determined anew.
///
/// If memory runs out, nothing is left of the scene but its event.
pub fn set_one<'a>(
    alloc: Global,
    rule: &'a Rule,
    assignment: &'a Assignment,
    scene: &mut Scene<'a>,
) -> Result<(), AllocError>
    ensures scene { OnOk result (scene.new ≡ set_step rule.now scene.old assignment.now) }
    ensures refused { OnErr result (scene.new ≡ blank scene.old.state.event) }
{
    let made = set_open(alloc, rule, escape_of(&rule.sets), assignment, scene);
    if made.is_err() {
        scene.clear(alloc);
    }
    made
}
