//! What is reported for a `.link` file.
ghost use Rattle.std.specs.Prelude.{◌≡◌, IfOk};
ghost use Rattle.link_files.specs.Matching.{link_faults};

use crate::drop_ins::DropIns;
use crate::joined::joined_lines;
use crate::line_faults::{add_line_faults, section_after};
use crate::matching::add_whole_faults;
use crate::placed_fault::PlacedFault;
use crate::sections::Section;
use std::alloc::{AllocError, Global};
use text_bytes::SourceFile;

/// What is reported for a file among these: first that it is for no interface, if it is a `.link` file of which that is known
/// with those of these files that are its drop-ins; then the faults of its lines, by line.
///
/// Fails if memory runs out.
#[tactic(auto, unfolding(crate::specs::Matching::link_faults, crate::specs::Faults::file_faults))]
pub fn link_faults(
    alloc: Global,
    files: &DropIns<'_>,
    file: &SourceFile,
) -> Result<Vec<PlacedFault>, AllocError>
    ensures { IfOk result (λ faults. faults.items ≡ link_faults files.now file.now) }
{
    let mut found = Vec::new(alloc);
    add_whole_faults(alloc, &mut found, files, file)?;
    let mut section = Section::Before;
    for line in &joined_lines(alloc, file.bytes.as_slice())? {
        add_line_faults(alloc, &mut found, section, line)?;
        section = section_after(section, line);
    }
    Ok(found)
}
