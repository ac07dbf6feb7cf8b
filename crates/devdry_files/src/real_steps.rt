//! How the disk of the system steps to a name, and how it knows the file that a step showed: what it makes of the replies
//! of the system.
ghost use Rattle.std.specs.IoError.{error_kind};
ghost use Rattle.std.specs.Path.{path_buf_bytes};
ghost use Rattle.std.specs.Prelude.{◌≡◌, IfOk, MatchResult, alloc_error, ok_or};
ghost use Rattle.devdry_files.specs.Calls.{IsStep, is_link, is_own, step_of};
ghost use Rattle.devdry_files.specs.Errors.{step_unread};
ghost use Rattle.devdry_files.specs.Memory.{LinksTo};

use crate::look::Look;
use crate::real_looks::{NULL_DEVICE, failed_look};
use crate::step::{Identity, Step};
use crate::system::{Node, NodeKind, System};
use std::alloc::AllocError;
use std::io;
use std::path::PathBuf;

/// Whether something is a symlink.
fn is_link(kind: NodeKind) -> bool
    ensures { result ≡ is_link kind }
{
    matches!(kind, NodeKind::Link)
}

/// What a step shows where there is no symlink.
fn step_of(node: &Node) -> Step
    ensures { result ≡ step_of node.now }
{
    let identity = Identity {
        device: node.file_system,
        number: node.number,
    };
    match node.kind {
        NodeKind::Folder => Step::Folder,
        NodeKind::File | NodeKind::Device(NULL_DEVICE) => Step::File(identity),
        NodeKind::Link | NodeKind::Device(_) | NodeKind::Other => Step::NoWay(Look::Other),
    }
}

/// Whether what was opened is the file with an identity: one that a step would show as that.
pub(crate) fn is_own(node: &Node, identity: Identity) -> bool
    ensures { result ≡ is_own node.now identity }
{
    match step_of(node) {
        Step::File(own) => own == identity,
        _ => false,
    }
}

/// What a step shows at a symlink, by where that leads, if it could be read.
fn link_from(read: io::Result<PathBuf>) -> Result<Step, AllocError>
    ensures { MatchResult read (λ path. IfOk result (LinksTo (path_buf_bytes path)))
        (λ error. result ≡ ok_or (step_unread (error_kind error)) alloc_error) }
{
    match read {
        Ok(path) => Ok(Step::Link(path.into_string())),
        Err(error) => match error.kind() {
            io::ErrorKind::InvalidFilename => Ok(Step::OddLink),
            _ => failed_look(&error).map(Step::NoWay).ok_or(AllocError),
        },
    }
}

/// What is at a path, with no symlink followed at its end.
pub(crate) fn step_at<S: System>(system: &S, path: &str) -> Result<Step, AllocError>
    ensures { IfOk result (IsStep (S.may_reply system.now) path.now) }
{
    match system.look_last(path) {
        Ok(node) if is_link(node.kind) => link_from(system.link(path)),
        Ok(node) => Ok(step_of(&node)),
        Err(error) => failed_look(&error).map(Step::NoWay).ok_or(AllocError),
    }
}
