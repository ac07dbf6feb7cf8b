//! Drop-ins, which are found by the name of the file that they are for.
//!
//! There may be as many as there are files, so they are put together once, and no file looks at all of them.
ghost use Rattle.std.specs.Prelude.{◌≡◌, ◌++◌, ◌∷◌, [], IfOk, OnOk, filter, if◌then◌else◌, map};
ghost use Rattle.text_bytes.specs.Text.{Text};
ghost use Rattle.text_tables.specs.Texts.{same_text};
ghost use Rattle.link_files.specs.DropIns.{is_drop_in_name, is_for, own_of};
ghost use Rattle.link_files.specs.Files.{is_drop_in};

use indexmap::IndexMap;
use std::alloc::{AllocError, Global};
use std::marker::Model;
use text_bytes::{SourceFile, begins_with, following};

/// For each name of a file those that are drop-ins of it.
type Owners<'f> = IndexMap<&'f [u8], Vec<&'f SourceFile>>;

/// Files, some of which may be drop-ins.
#[derive(Drop)]
pub struct DropIns<'f> {
    files: &'f [SourceFile],
    owners: Owners<'f>,
    /// What a file without drop-ins has.
    none: Vec<&'f SourceFile>,
}

impl<'f> Model for DropIns<'f> {
    ghost use Rattle.std.specs.Prelude.{◌≡◌, List, [], filter};
    ghost use Rattle.text_bytes.specs.Text.{Text};
    ghost use Rattle.text_bytes.specs.declared.source_file.SourceFile as source;
    ghost use Rattle.link_files.specs.DropIns.{is_for, own_of};

    ghost Value = { List source.SourceFile };

    ghost view = { λ d. d.files.now };

    ghost invariant = { λ d. (d.none.items ≡ []) × ((name : Text) → own_of d.owners name ≡ filter (is_for name) d.files.now) };
}

/// Whether what follows the name of a file in another name makes that one a drop-in of it.
fn is_drop_in_name(rest: &[u8]) -> bool
    ensures { result ≡ is_drop_in_name rest.now }
{
    match following(b".d/", rest) {
        Some(name) => !begins_with(b'.', name),
        None => false,
    }
}

/// Adds a drop-in of the file with a name.
fn add_to<'f>(
    alloc: Global,
    name: &'f [u8],
    file: &'f SourceFile,
    owners: &mut Owners<'f>,
) -> Result<(), AllocError>
    ensures { OnOk result ((other : Text) → own_of owners.new other ≡ own_of owners.old other ++ (if same_text other name.now then file.now ∷ [] else [])) }
{
    if let Some(own) = owners.get_mut(name) {
        own.push(file)?;
        return Ok(());
    }
    let mut own = Vec::new(alloc);
    own.push(file)?;
    owners.insert(name, own)?;
    Ok(())
}

/// Adds a file to each name of which it is a drop-in.
fn add_file<'f>(
    alloc: Global,
    file: &'f SourceFile,
    owners: &mut Owners<'f>,
) -> Result<(), AllocError>
    ensures { OnOk result ((name : Text) → own_of owners.new name ≡ own_of owners.old name ++ (if is_for name file.now then file.now ∷ [] else [])) }
{
    let whole = file.name.as_slice();
    for place in 0..whole.len() {
        let (name, rest) = whole.split_at(place);
        if is_drop_in_name(rest) {
            add_to(alloc, name, file, owners)?;
        }
    }
    Ok(())
}

impl<'f> DropIns<'f> {
    /// These files.
    pub fn of(alloc: Global, files: &'f [SourceFile]) -> Result<DropIns<'f>, AllocError>
        ensures { IfOk result (λ drop_ins. drop_ins ≡ files.now) }
    {
        let mut owners = IndexMap::new(alloc);
        for file in files {
            add_file(alloc, file, &mut owners)?;
        }
        Ok(DropIns {
            files,
            owners,
            none: Vec::new(alloc),
        })
    }

    /// The drop-ins of a file, in their order.
    pub fn of_file(&self, file: &SourceFile) -> &[&'f SourceFile]
        ensures { map (λ f. f.now) result.now ≡ filter (is_drop_in file.now) self.now }
    {
        self.owners
            .get(file.name.as_slice())
            .unwrap_or(&self.none)
            .as_slice()
    }
}
