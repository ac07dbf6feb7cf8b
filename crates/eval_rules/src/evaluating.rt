//! An event, from its start to its outcome.
ghost use Rattle.std.specs.Prelude.{◌≡◌, ◌++◌, OnOk, IfOk, map, option_map};
ghost use Rattle.rule_types.specs.Names.{run_name};
ghost use Rattle.eval_state.specs.Texts.{filled};
ghost use Rattle.eval_rules.specs.Steps.{with_selected};
ghost use Rattle.eval_rules.specs.Outcomes.{command, commands, late_note, late_notes, made_command, outcome, outcome_of, run_text};
ghost use Rattle.eval_assignments.specs.Lists.{without_texts};
ghost use Rattle.eval_rules.specs.Inner.{made_from, unselected, with_notes};

use crate::outcome::{Command, Commands, Outcome};
use crate::rules::run;
use builtin_devices::Knowledge;
use device_core::Event;
use eval_rendering::{Mode, Rendered, render};
use eval_state::{MadeRun, Run, Runs, Scene, State};
use rule_types::{Key, RuleSet};
use std::alloc::{AllocError, Global};
use std::mem;
use text_bytes::Bytes;
use text_tables::{CowPairs, OwnedTexts, SortedPairs};

/// Renders a RUN with the device that its rule had selected, which is selected from then on.
pub fn run_text(
    alloc: Global,
    kept: &Run<'_>,
    state: &mut State<'_>,
) -> Result<Rendered, AllocError>
    ensures text { IfOk result (λ text. text ≡ run_text state.old kept.now) }
    ensures selects { OnOk result (state.new ≡ with_selected kept.now.selected state.old) }
{
    state.selected = kept.selected();
    render(alloc, kept.template(), state, Mode::Plain)
}

/// What is in the braces of a RUN, if it has any.
fn braces(kept: &Run<'_>) -> Option<&'static [u8]>
    ensures { option_map (λ text. text.now) result ≡ option_map run_name kept.now.braces }
{
    Some(kept.braces()?.name())
}

/// Takes a RUN that was rendered: as a command, or with a note if it is too long.
fn take_run(
    alloc: Global,
    kept: &Run<'_>,
    rendered: Rendered,
    commands: &mut Commands,
    scene: &mut Scene<'_>,
) -> Result<(), AllocError>
    ensures commands { OnOk result (commands.new ≡ commands.old ++ command kept.now rendered) }
    ensures scene { OnOk result (scene.new ≡ with_notes (late_note kept.now rendered) scene.old) }
{
    match rendered {
        Rendered::Text(text) => commands.push(Command {
            kind: kept.kind(),
            text,
        }),
        Rendered::TooLong => scene.note_too_long(alloc, kept.rule(), Key::Run, braces(kept)),
    }
}

/// Renders what is to be run, one after another.
fn render_runs(
    alloc: Global,
    runs: &[Run<'_>],
    scene: &mut Scene<'_>,
) -> Result<Commands, AllocError>
    ensures commands { IfOk result (λ done. done ≡ commands scene.old.state runs.now) }
    ensures scene { OnOk result (unselected scene.new ≡ with_notes (late_notes scene.old.state runs.now) (unselected scene.old)) }
{
    let mut commands = Commands::new(alloc);
    for kept in runs {
        let rendered = run_text(alloc, kept, &mut scene.state)?;
        take_run(alloc, kept, rendered, &mut commands, scene)?;
    }
    Ok(commands)
}

/// A RUN that was rendered at its rule, as a command.
pub fn made_command(alloc: Global, made: &MadeRun<'_>) -> Result<Command, AllocError>
    ensures { IfOk result (λ command. command ≡ made_command made.now) }
{
    Ok(Command {
        kind: made.run.kind(),
        text: Bytes::copy_of(alloc, made.text.as_slice())?,
    })
}

/// Adds what was rendered at its rule to other commands.
fn add_made(alloc: Global, made: &[MadeRun<'_>], commands: &mut Commands) -> Result<(), AllocError>
    ensures { OnOk result (commands.new ≡ commands.old ++ map made_command made.now) }
{
    for run in made {
        commands.push(made_command(alloc, run)?)?;
    }
    Ok(())
}

/// All commands: what is to be run, rendered, and then what was rendered at its rule.
fn all_commands(
    alloc: Global,
    runs: &[Run<'_>],
    scene: &mut Scene<'_>,
) -> Result<Commands, AllocError>
    ensures commands { IfOk result (λ done. done ≡ commands scene.old.state runs.now ++ map made_command scene.new.made) }
    ensures scene { OnOk result (unselected scene.new ≡ with_notes (late_notes scene.old.state runs.now) (unselected scene.old)) }
{
    let mut commands = render_runs(alloc, runs, scene)?;
    add_made(alloc, scene.made.as_slice(), &mut commands)?;
    Ok(commands)
}

/// What is to be run, rendered, and the properties, sorted, once no rule is left.
fn rendered<'a>(
    alloc: Global,
    scene: &mut Scene<'a>,
) -> Result<(Commands, SortedPairs<'a>), AllocError>
    ensures { IfOk result (λ done. made_from scene.new done.1 done.0 ≡ outcome_of scene.old) }
{
    let runs = mem::replace(&mut scene.runs, Runs::new(alloc));
    let commands = all_commands(alloc, runs.as_slice(), scene)?;
    let env = mem::replace(&mut scene.state.env, CowPairs::new(alloc));
    let sorted = SortedPairs::new(alloc, env)?;
    Ok((commands, sorted))
}

/// Tags without those that were removed.
fn present_tags(mut tags: OwnedTexts, gone: &OwnedTexts) -> OwnedTexts
    ensures { result ≡ without_texts tags gone.now }
{
    for text in gone.as_slice() {
        tags.remove(text);
    }
    tags
}

/// A text that is there and has a byte.
fn filled(text: Option<Bytes>) -> Option<Bytes>
    ensures { result ≡ filled text }
{
    match text {
        Some(text) => {
            if text.as_slice().is_empty() {
                None
            } else {
                Some(text)
            }
        }
        None => None,
    }
}

/// The outcome that is made of a scene, of commands and of properties.
fn outcome_with<'a>(scene: Scene<'a>, commands: Commands, env: SortedPairs<'a>) -> Outcome<'a>
    ensures { result ≡ made_from scene.entry env.entry commands }
{
    let Scene {
        state,
        owner,
        group,
        mode,
        priority,
        watch,
        persist,
        gone,
        labels,
        attrs,
        sysctls,
        runs: _,
        made: _,
        notes,
        finals: _,
        ran: _,
    } = scene;
    let State {
        name,
        links,
        tags,
        event: _,
        selected: _,
        result: _,
        env: _,
    } = state;
    Outcome {
        name: filled(name),
        owner,
        group,
        mode,
        priority,
        watch,
        persist,
        labels,
        links,
        tags: present_tags(tags, &gone),
        env,
        attrs,
        sysctls,
        runs: commands,
        notes,
    }
}

/// The outcome of a scene when no rule is left: what is to be run is rendered, and properties are sorted.
pub fn finish(alloc: Global, mut scene: Scene<'_>) -> Result<Outcome<'_>, AllocError>
    ensures { IfOk result (λ outcome. outcome ≡ outcome_of scene.entry) }
{
    match rendered(alloc, &mut scene) {
        Ok((commands, env)) => Ok(outcome_with(scene, commands, env)),
        Err(refused) => {
            drop(scene);
            Err(refused)
        }
    }
}

/// The outcome of an event, with the rules and the event borrowed for the same lifetime.
fn evaluate<'a, K: Knowledge>(
    alloc: Global,
    rules: &'a RuleSet,
    event: &'a Event<'_>,
    knowledge: &K,
) -> Result<Outcome<'a>, AllocError>
    ensures { IfOk result (λ answer. answer ≡ outcome rules.now (K.known knowledge.now) event.now) }
{
    let mut scene = Scene::new(alloc, event)?;
    match run(alloc, rules.rules(), knowledge, &mut scene) {
        Ok(()) => finish(alloc, scene),
        Err(refused) => {
            drop(scene);
            Err(refused)
        }
    }
}

/// The outcome of an event by the rules as they are read, as udev(7) has it: each rule in turn over what the rules
/// before it left, with its jumps, the database asked if a rule imports from it; then each RUN rendered with what
/// is known at the end. Programs, builtins other than `hwdb` and files are not run or read, and leave notes unless
/// the event's block has their answer. For udev, the event is evaluated as udev of systemd 257 does it.
pub fn evaluate_plain<'a, K: Knowledge>(
    alloc: Global,
    rules: &'a RuleSet,
    event: &'a Event<'_>,
    knowledge: &K,
) -> Result<Outcome<'a>, AllocError>
    ensures { IfOk result (λ answer. answer ≡ outcome rules.now (K.known knowledge.now) event.now) }
{
    evaluate(alloc, rules, event, knowledge)
}
