//! IMPORT{file}, by what was found at its path in the root before the first event.
ghost use Rattle.std.specs.Prelude.{◌≡◌, IfOk, OnErr, OnOk, Some, map, option_copied};
ghost use Rattle.std.specs.List.{slice_split};
ghost use Rattle.builtin_devices.specs.declared.root_files.RootFile.TheVariants.{Read};
ghost use Rattle.eval_state.specs.Properties.{properties_set};
ghost use Rattle.eval_acts.specs.RootImports.{ends_file_line, file_properties, from_file, from_found};

use crate::builtin_runs::MAX_SET;
use crate::imports::not_run;
use crate::printed::set_lines;
use builtin_devices::{Knowledge, RootFile};
use eval_rendering::ends_line;
use eval_state::Scene;
use rule_types::{ImportType, Rule};
use std::alloc::{AllocError, Global};
use text_tables::CowPairs;

/// Whether a byte ends a line of a file.
fn ends_file_line(byte: u8) -> bool
    ensures { result ≡ ends_file_line byte }
{
    ends_line(byte) || byte == 0
}

/// The lines of a file.
fn file_lines(alloc: Global, text: &[u8]) -> Result<Vec<&[u8]>, AllocError>
    ensures { IfOk result (λ lines. map (λ line. line.now) lines.items ≡ slice_split ends_file_line text.now) }
{
    text.split(|byte| ends_file_line(*byte)).collect(alloc)
}

/// Sets the properties that a file gives, in the order of its lines.
#[tactic(auto, unfolding(crate::specs::RootImports::file_properties))]
fn set_from_file(alloc: Global, text: &[u8], env: &mut CowPairs<'_>) -> Result<(), AllocError>
    ensures { OnOk result (env.new ≡ properties_set env.old (file_properties text.now)) }
{
    let lines = file_lines(alloc, text)?;
    set_lines(alloc, &lines, env)
}

/// Takes the bytes of a file, or leaves a note if they are too many.
fn take_bytes(
    alloc: Global,
    rule: &Rule,
    bytes: &[u8],
    scene: &mut Scene<'_>,
) -> Result<bool, AllocError>
    ensures scene { IfOk result (λ done. (scene.new, done) ≡ from_found rule.now (Some (Read bytes.now)) scene.old) }
    ensures refused { OnErr result (scene.new.state.event ≡ scene.old.state.event) }
{
    if bytes.len() <= MAX_SET {
        set_from_file(alloc, bytes, &mut scene.state.env)?;
        Ok(true)
    } else {
        not_run(alloc, rule, ImportType::File, scene)
    }
}

/// Takes what was found at a path, or leaves a note.
fn take_found(
    alloc: Global,
    rule: &Rule,
    found: Option<&RootFile>,
    scene: &mut Scene<'_>,
) -> Result<bool, AllocError>
    ensures scene { IfOk result (λ done. (scene.new, done) ≡ from_found rule.now (option_copied found.entry) scene.old) }
    ensures refused { OnErr result (scene.new.state.event ≡ scene.old.state.event) }
{
    let Some(file) = found else {
        return not_run(alloc, rule, ImportType::File, scene);
    };
    match file {
        RootFile::Read(bytes) => take_bytes(alloc, rule, bytes.as_slice(), scene),
        RootFile::Absent => Ok(false),
    }
}

/// IMPORT{file} for udev.
pub(crate) fn import_file<K: Knowledge>(
    alloc: Global,
    rule: &Rule,
    path: &[u8],
    knowledge: &K,
    scene: &mut Scene<'_>,
) -> Result<bool, AllocError>
    ensures scene { IfOk result (λ done. (scene.new, done) ≡ from_file (K.known knowledge.now) rule.now path.now scene.old) }
    ensures refused { OnErr result (scene.new.state.event ≡ scene.old.state.event) }
{
    take_found(alloc, rule, knowledge.file(path), scene)
}
