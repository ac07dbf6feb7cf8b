//! The paths of `.link` files and of drop-ins.
ghost use Rattle.std.specs.Prelude.{◌≡◌, ◌++◌, IfOk};
ghost use Rattle.link_files.specs.Files as links;
ghost use Rattle.engine_checks.specs.Links.{link_path};

use engine_sessions::Line;
use link_files::path_of;
use std::alloc::{AllocError, Global};
use text_bytes::{FileKind, SourceFile};

/// The path of a file in its folder, after a root.
fn path_below(alloc: Global, root: &str, file: &SourceFile) -> Result<Vec<u8>, AllocError>
    ensures { IfOk result (λ path. path.items ≡ root.now ++ links.path_of file.now) }
{
    let mut path = Vec::from_slice(alloc, root.as_bytes())?;
    path.extend_from_slice(&path_of(alloc, file)?)?;
    Ok(path)
}

/// The path of a file: its name if the line names files, and else that in its folder.
pub(crate) fn link_path(
    alloc: Global,
    line: &Line<'_>,
    file: &SourceFile,
) -> Result<Vec<u8>, AllocError>
    ensures { IfOk result (λ path. path.items ≡ link_path line.now file.now) }
{
    if line.names_files_of(FileKind::Rules) {
        Vec::from_slice(alloc, file.name.as_slice())
    } else {
        path_below(alloc, line.root, file)
    }
}
