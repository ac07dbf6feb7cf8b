//! The paths by which files were opened.
ghost use Rattle.std.specs.Prelude.{◌≡◌, IfOk};
ghost use Rattle.engine_formats.specs.Paths.{path_in_folder, path_of};

use engine_sessions::{Line, folder_path};
use std::alloc::{AllocError, Global};
use text_bytes::SourceFile;

/// The path by which a file was opened: its name if the line names files of its kind, and else that of its folder
/// after the line's root, a `/` and its name.
pub fn path_of(alloc: Global, line: &Line<'_>, file: &SourceFile) -> Result<Vec<u8>, AllocError>
    ensures { IfOk result (λ path. path.items ≡ path_of line.now file.now) }
{
    if line.names_files_of(file.kind) {
        Vec::from_slice(alloc, file.name.as_slice())
    } else {
        path_in_folder(alloc, line.root.as_bytes(), file)
    }
}

/// The path of a file in its folder, after a root.
fn path_in_folder(alloc: Global, root: &[u8], file: &SourceFile) -> Result<Vec<u8>, AllocError>
    ensures { IfOk result (λ path. path.items ≡ path_in_folder root.now file.now) }
{
    let mut path = Vec::from_slice(alloc, root)?;
    path.extend_from_slice(folder_path(file.kind, file.rank).as_bytes())?;
    path.push(b'/')?;
    path.extend_from_slice(file.name.as_slice())?;
    Ok(path)
}
