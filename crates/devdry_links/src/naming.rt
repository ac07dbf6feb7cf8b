//! The paths of the files that rules import.
ghost use Rattle.std.specs.Prelude.{◌≡◌, ◌++◌, ◌∷◌, [], IfOk, OnOk, flat_map, option_map};
ghost use Rattle.std.specs.Option.{option_to_list};
ghost use Rattle.text_bytes.specs.declared.profile.Profile.TheVariants.{Udev};
ghost use Rattle.rule_core.specs.Ends.{file_as_read};
ghost use Rattle.rule_core.specs.Rules.{set_of_as};
ghost use Rattle.devdry_links.specs.Naming.{mentions, path_of_kind, path_of_piece, path_of_pieces};
ghost use Rattle.devdry_links.specs.Naming.{paths_in, paths_named, paths_of, paths_within};

use engine_sessions::same_kind;
use rule_core::{RulesFault, files_as_read, read_rules_as};
use rule_tokens::Piece;
use rule_types::{Act, ActKind, Import, Rule};
use std::alloc::{AllocError, Global};
use text_bytes::{Bytes, FileKind, Profile, SourceFile, begins_with, following};

/// The key of an act that imports a file.
const KEY: &[u8] = b"IMPORT{file}";

/// The path that a piece is, if it begins with a slash and is not a substitution.
fn path_of_piece(piece: &Piece) -> Option<&[u8]>
    ensures { option_map (λ t. t.now) result ≡ path_of_piece piece.now }
{
    match piece {
        Piece::Plain(text) => {
            let text = text.as_slice();
            if begins_with(b'/', text) {
                Some(text)
            } else {
                None
            }
        }
        _ => None,
    }
}

/// The path that pieces are, if they are one text without substitutions.
fn path_of_pieces(pieces: &[Piece]) -> Option<&[u8]>
    ensures { option_map (λ t. t.now) result ≡ path_of_pieces pieces.now }
{
    let (piece, others) = pieces.split_first()?;
    if others.is_empty() {
        path_of_piece(piece)
    } else {
        None
    }
}

/// The path of the file that an act imports, if it is written in full.
fn path_of_kind(kind: &ActKind) -> Option<&[u8]>
    ensures { option_map (λ t. t.now) result ≡ path_of_kind kind.now }
{
    match kind {
        ActKind::Import(Import::File(template)) => path_of_pieces(template.pieces()),
        _ => None,
    }
}

/// Adds the paths that acts name in full.
fn push_paths_in(alloc: Global, acts: &[Act], paths: &mut Vec<Bytes>) -> Result<(), AllocError>
    ensures { OnOk result (paths.new.items ≡ paths.old.items ++ flat_map (λ act. option_to_list (path_of_kind act.kind)) acts.now) }
{
    for act in acts {
        if let Some(path) = path_of_kind(&act.kind) {
            paths.push(Bytes::copy_of(alloc, path)?)?;
        }
    }
    Ok(())
}

/// Adds the paths that rules name in full.
fn push_paths_of(alloc: Global, rules: &[Rule], paths: &mut Vec<Bytes>) -> Result<(), AllocError>
    ensures { OnOk result (paths.new.items ≡ paths.old.items ++ paths_of rules.now) }
{
    for rule in rules {
        push_paths_in(alloc, &rule.acts, paths)?;
    }
    Ok(())
}

/// Whether a text has the key of an act that imports a file.
fn mentions(text: &[u8]) -> bool
    ensures { result ≡ mentions text.now }
{
    let mut rest = text;
    while let Some((_, after)) = rest.split_first() {
        if following(KEY, rest).is_some() {
            return true;
        }
        rest = after;
    }
    false
}

/// One file, copied, as udev reads it.
fn as_read(alloc: Global, file: &SourceFile) -> Result<Vec<SourceFile>, AllocError>
    ensures { IfOk result (λ files. files.items ≡ file_as_read Udev file.now ∷ []) }
{
    let mut files = Vec::new(alloc);
    files.push(SourceFile {
        kind: file.kind,
        rank: file.rank,
        name: Bytes::copy_of(alloc, file.name.as_slice())?,
        bytes: Bytes::copy_of(alloc, file.bytes.as_slice())?,
    })?;
    files_as_read(alloc, Profile::Udev, files)
}

/// Adds the paths that the rules of files name in full, if they hold no more than rules may.
fn push_paths_within(
    alloc: Global,
    files: &[SourceFile],
    paths: &mut Vec<Bytes>,
) -> Result<(), AllocError>
    ensures { OnOk result (paths.new.items ≡ paths.old.items ++ paths_within (set_of_as Udev files.now).rules) }
{
    match read_rules_as(alloc, Profile::Udev, files) {
        Ok(read) => push_paths_of(alloc, read.rules().rules(), paths),
        Err(RulesFault::TooMany) => Ok(()),
        Err(RulesFault::Memory) => Err(AllocError),
    }
}

/// Adds the paths that the rules of a file name in full.
#[tactic(auto, unfolding(crate::specs::Naming::paths_in))]
fn push_paths(alloc: Global, file: &SourceFile, paths: &mut Vec<Bytes>) -> Result<(), AllocError>
    ensures { OnOk result (paths.new.items ≡ paths.old.items ++ paths_in file.now) }
{
    if !same_kind(file.kind, FileKind::Rules) {
        return Ok(());
    }
    if !mentions(file.bytes.as_slice()) {
        return Ok(());
    }
    let files = as_read(alloc, file)?;
    push_paths_within(alloc, &files, paths)
}

/// The paths that the rules of files name in full, in the order of the files and rules.
pub(crate) fn paths_named(alloc: Global, files: &[SourceFile]) -> Result<Vec<Bytes>, AllocError>
    ensures { IfOk result (λ paths. paths.items ≡ paths_named files.now) }
{
    let mut paths = Vec::new(alloc);
    for file in files {
        push_paths(alloc, file, &mut paths)?;
    }
    Ok(paths)
}
