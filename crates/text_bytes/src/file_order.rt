//! Which of the files passed in are read, and in which order.
//!
//! Files come from several folders, and a file in a folder of lower rank hides those of its name in the others.
//! Files are put one by one into a map by their names, which keeps them sorted.
ghost use Rattle.std.specs.Prelude.{◌≡◌, IfOk, OnOk};
ghost use Rattle.std.specs.BTreeMap.{get_by, values};
ghost use Rattle.text_bytes.specs.ByName.{AreUnderTheirNames, hides};
ghost use Rattle.text_bytes.specs.FileOrder.{ordered, put};
ghost use Rattle.text_bytes.specs.Insertion.{text_order};
ghost use Rattle.text_bytes.specs.OrderLaws.{NamesRise};

use crate::source_file::SourceFile;
use std::alloc::{AllocError, Global};
use std::collections::BTreeMap;

/// The files whose names end in a suffix, sorted by name, byte by byte; of equal names the file of least rank
/// stays, and of equal ranks the one passed in first. This is what hwdb(7) says about files of one name in several
/// folders.
///
/// Fails if memory runs out; the files are dropped then.
pub fn order_files(
    alloc: Global,
    files: Vec<SourceFile>,
    suffix: &[u8],
) -> Result<Vec<SourceFile>, AllocError>
    ensures { IfOk result (λ kept. kept.items ≡ ordered suffix.now files.items) }
{
    let mut kept = BTreeMap::new(alloc);
    for file in files {
        if file.name.as_slice().ends_with(suffix) {
            put(alloc, &mut kept, file)?;
        }
    }
    kept.into_values().collect(alloc)
}

/// Puts a file among those kept, unless one of them hides it; one that it hides goes.
fn put(
    alloc: Global,
    kept: &mut BTreeMap<Vec<u8>, SourceFile>,
    file: SourceFile,
) -> Result<(), AllocError>
    requires names { AreUnderTheirNames (λ name. name.items) kept.old.entries }
    requires rise { NamesRise (values kept.old) }
    ensures files { OnOk result (values kept.new ≡ put (values kept.old) file) }
    ensures names { OnOk result (AreUnderTheirNames (λ name. name.items) kept.new.entries) }
{
    if !is_hidden(kept, &file) {
        let name = Vec::from_slice(alloc, file.name.as_slice())?;
        kept.insert(name, file)?;
    }
    Ok(())
}

/// Whether a file of this one's name is kept, of no greater rank.
fn is_hidden(kept: &BTreeMap<Vec<u8>, SourceFile>, file: &SourceFile) -> bool
    ensures { result ≡ hides (get_by (λ name. text_order file.now.name name.items) kept.now) file.now }
{
    match kept.get(file.name.as_slice()) {
        Some(held) => held.rank <= file.rank,
        None => false,
    }
}
