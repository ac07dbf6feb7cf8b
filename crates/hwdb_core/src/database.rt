//! All the database files of a run.

ghost use Rattle.std.specs.Prelude.{◌≡◌, ◌≤◌, ◌↔◌, IsTrue, IfOk, IfErr, sum_by, length};
ghost use Rattle.trie_nodes.specs.Bounds.{max_name_bytes};
ghost use Rattle.trie_nodes.specs.Orders.{Rising};
ghost use Rattle.trie_nodes.specs.Query.{fitting};
ghost use Rattle.hwdb_core.specs.Sources.{entries_of, messages_of, WithinBounds};
ghost use Rattle.hwdb_core.specs.Found.{Adds, counting, found_in};
ghost use Rattle.hwdb_core.specs.Parts.{file_found};
ghost use Rattle.hwdb_core.specs.declared.fault.HwdbFault.TheVariants.{TooMany};

use crate::fault::HwdbFault;
use crate::gathered::Gathered;
use crate::reading::read_file;
use file_messages::Message;
use std::alloc::Global;
use text_bytes::{Bytes, SourceFile};
use trie_nodes::{Entry, MAX_NAME_BYTES};

/// What database files hold, and what is wrong with them.
#[derive(Drop)]
pub struct Database {
    /// An entry for each match and property; the order of each is its place here.
    pub entries: Vec<Entry>,
    /// Sorted by file, by line, by code.
    pub messages: Vec<Message>,
}

/// Reads files of the hardware database as hwdb(7) writes them, in the order in which they are given.
///
/// The entries fit a database: their orders rise from 0, and no key is empty. A line that is wrong costs a message,
/// and is ignored. `TooMany` comes exactly if the files hold more than its bounds, and `Memory` only if an
/// allocation fails.
pub fn read_sources(alloc: Global, files: &[SourceFile]) -> Result<Database, HwdbFault>
    ensures entries { IfOk result (λ d. d.entries.items ≡ entries_of files.now) }
    ensures rising { IfOk result (λ d. Rising d.entries.items) }
    ensures messages { IfOk result (λ d. d.messages.items ≡ messages_of files.now) }
    ensures within { IfOk result (λ d. WithinBounds files.now) }
    ensures too_many { IfErr result (λ e. e ≡ TooMany → WithinBounds files.now → ⊥) }
{
    read_counting(alloc, files, None)
}

/// Reads files as `read_sources` does, with the same messages and the same faults, and keeps only those of their
/// entries whose pattern a modalias fits: what a query for it needs. Each keeps its order among all, and the others
/// take no memory.
pub fn read_fitting(
    alloc: Global,
    files: &[SourceFile],
    modalias: &[u8],
) -> Result<Database, HwdbFault>
    ensures entries { IfOk result (λ d. d.entries.items ≡ fitting (entries_of files.now) modalias.now) }
    ensures rising { IfOk result (λ d. Rising d.entries.items) }
    ensures messages { IfOk result (λ d. d.messages.items ≡ messages_of files.now) }
    ensures within { IfOk result (λ d. WithinBounds files.now) }
    ensures too_many { IfErr result (λ e. e ≡ TooMany → WithinBounds files.now → ⊥) }
{
    read_counting(alloc, files, Some(Bytes::copy_of(alloc, modalias)?))
}

/// Reads files, and keeps of their entries those that a modalias fits, or all.
fn read_counting(
    alloc: Global,
    files: &[SourceFile],
    wanted: Option<Bytes>,
) -> Result<Database, HwdbFault>
    ensures entries { IfOk result (λ d. d.entries.items ≡ counting wanted (entries_of files.now)) }
    ensures rising { IfOk result (λ d. Rising d.entries.items) }
    ensures messages { IfOk result (λ d. d.messages.items ≡ messages_of files.now) }
    ensures within { IfOk result (λ d. WithinBounds files.now) }
    ensures too_many { IfErr result (λ e. e ≡ TooMany → WithinBounds files.now → ⊥) }
{
    if !names_fit(files) {
        return Err(HwdbFault::TooMany);
    }
    let mut found = Gathered::new(alloc, wanted);
    read_files(alloc, &mut found, files)?;
    let (entries, messages) = found.into_lists();
    Ok(Database { entries, messages })
}

/// Reads files.
fn read_files(alloc: Global, found: &mut Gathered, files: &[SourceFile]) -> Result<(), HwdbFault>
    ensures { Adds found.old found.new (found_in file_found files.now) result }
{
    for file in files {
        read_file(alloc, found, file)?;
    }
    Ok(())
}

/// Whether the names of the files are short enough together.
fn names_fit(files: &[SourceFile]) -> bool
    ensures { IsTrue result ↔ (sum_by (λ f. length f.name) files.now ≤ max_name_bytes) }
{
    let mut room = MAX_NAME_BYTES;
    for file in files {
        let len = file.name.as_slice().len();
        if len > room {
            return false;
        }
        room -= len;
    }
    true
}
