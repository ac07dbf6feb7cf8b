//! RUN: what is to be run, as it is written, and as udev renders it at its rule.
ghost use Rattle.std.specs.Prelude.{◌≡◌, map, OnOk, OnErr, option_map};
ghost use Rattle.rule_types.specs.Names.{run_name};
ghost use Rattle.eval_state.specs.Scenes.{noted_key};
ghost use Rattle.eval_state.specs.declared.scene.Scene.{Scene};
ghost use Rattle.eval_assignments.specs.Runs.{command_made, made_before, run_kept, run_made, run_rendered};
ghost use Rattle.eval_assignments.specs.Links.{words};

use crate::finals::finish;
use crate::links::words;
use eval_rendering::{MAX_COMMAND_BYTES, Mode, Rendered, render};
use eval_state::{FinalKey, MadeRun, NoteKind, Run, Scene};
use rule_tokens::Template;
use rule_types::{AssignOperator, Key, Rule, RunType};
use std::alloc::{AllocError, Global};
use text_bytes::Bytes;

/// Adds a RUN as it is written.
pub(crate) fn keep_run<'a>(
    alloc: Global,
    rule: &'a Rule,
    operator: AssignOperator,
    braces: Option<RunType>,
    template: &'a Template,
    scene: &mut Scene<'a>,
) -> Result<(), AllocError>
    ensures scene { OnOk result (scene.new ≡ run_kept rule.now operator braces template.now scene.old) }
    ensures refused { OnErr result (scene.new.state.event ≡ scene.old.state.event) }
{
    let run = Run::new(rule, braces, template, scene.state.selected);
    scene.runs.change(alloc, operator, run)?;
    finish(operator, Some(FinalKey::Run), scene);
    Ok(())
}

/// Leaves a note about a RUN, which names its type if that is in braces.
fn note_run(
    alloc: Global,
    rule: &Rule,
    kind: NoteKind,
    braces: Option<RunType>,
    scene: &mut Scene<'_>,
) -> Result<(), AllocError>
    ensures scene { OnOk result (scene.new ≡ noted_key rule.now kind Key.Run (option_map run_name braces) scene.old) }
    ensures refused { OnErr result (scene.new ≡ scene.old) }
{
    match braces {
        Some(braces) => scene.note_key(alloc, rule, kind, Key::Run, Some(braces.name())),
        None => scene.note_key(alloc, rule, kind, Key::Run, None),
    }
}

/// Adds a command to the others; one without a word leaves a note.
fn make_command<'a>(
    alloc: Global,
    rule: &'a Rule,
    braces: Option<RunType>,
    template: &'a Template,
    text: Bytes,
    scene: &mut Scene<'a>,
) -> Result<(), AllocError>
    ensures scene { OnOk result (scene.new ≡ command_made rule.now braces template.now text (words text) scene.old) }
    ensures refused { OnErr result (scene.new.state.event ≡ scene.old.state.event) }
{
    if words(alloc, text.as_slice())?.is_empty() {
        return note_run(alloc, rule, NoteKind::NoValue, braces, scene);
    }
    let run = Run::new(rule, braces, template, scene.state.selected);
    scene.made.push(MadeRun { run, text })
}

/// Adds a RUN to the others once it is rendered; one that is too long leaves a note.
fn make_run<'a>(
    alloc: Global,
    rule: &'a Rule,
    braces: Option<RunType>,
    template: &'a Template,
    rendered: Rendered,
    scene: &mut Scene<'a>,
) -> Result<(), AllocError>
    ensures scene { OnOk result (scene.new ≡ run_made rule.now braces template.now rendered scene.old) }
    ensures refused { OnErr result (scene.new.state.event ≡ scene.old.state.event) }
{
    match rendered {
        Rendered::Text(text) => make_command(alloc, rule, braces, template, text, scene),
        Rendered::TooLong => note_run(alloc, rule, NoteKind::TextTooLong, braces, scene),
    }
}

/// Removes all commands, unless one is to be added to them.
fn begin_anew(operator: AssignOperator, scene: &mut Scene<'_>)
    ensures { scene.new ≡ record scene.old { made = made_before operator scene.old.made } }
{
    match operator {
        AssignOperator::Add => {}
        _ => scene.made.clear(),
    }
}

/// Renders a RUN and adds it as udev does (systemd 257), with the properties, links, tags, name, result and
/// selected device that are known now, and as often as it is given. `=` and `:=` remove all others and `:=` makes
/// RUN final, whatever the text: over 16,383 bytes it leaves a note, and so does one without a word.
pub(crate) fn render_run<'a>(
    alloc: Global,
    rule: &'a Rule,
    operator: AssignOperator,
    braces: Option<RunType>,
    template: &'a Template,
    scene: &mut Scene<'a>,
) -> Result<(), AllocError>
    ensures scene { OnOk result (scene.new ≡ run_rendered rule.now operator braces template.now scene.old) }
    ensures refused { OnErr result (scene.new.state.event ≡ scene.old.state.event) }
{
    let rendered = render(alloc, template, &scene.state, Mode::Plain)?;
    begin_anew(operator, scene);
    make_run(
        alloc,
        rule,
        braces,
        template,
        rendered.within(MAX_COMMAND_BYTES),
        scene,
    )?;
    finish(operator, Some(FinalKey::Run), scene);
    Ok(())
}
