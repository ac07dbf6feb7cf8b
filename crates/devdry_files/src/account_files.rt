//! Reads the files of users and groups that a line names.
ghost use Rattle.std.specs.Prelude.{◌≡◌, ◌++◌, IfErr, IfOk, string_bytes, true};
ghost use Rattle.devdry_files.specs.AccountFiles.{AreAccountsRead, IsAccountRead, IsFaultyAccount, IsFaultyAccounts, IsFileRead, account_place};
ghost use Rattle.devdry_files.specs.Faults.{HasPath, IsUnreadable};
ghost use Rattle.devdry_files.specs.Inside.{MayInside};

use crate::disk::{Disk, DiskFault};
use crate::fault::{ReadFault, fault_at};
use crate::reading::bytes_at;
use crate::rooted_disk::RootedDisk;
use engine_sessions::{AccountFile, Line};
use std::alloc::{AllocError, Global};

/// Reads the files of users and groups that a line names, first that of users: all their bytes.
///
/// A file of the root is read inside the root; if it is not there, the line has none. `ReadFault::Path` means that a
/// file can't be read, or that one that is named does not exist, with its path; `ReadFault::Memory` that an allocation
/// failed. What the bytes list is not looked at.
pub fn read_account_files<D: Disk>(
    alloc: Global,
    disk: &D,
    line: &mut Line<'_>,
) -> Result<(), ReadFault>
    ensures files { IfOk result (λ _. AreAccountsRead (D.may_answer disk.now) line.old line.new) }
    ensures fault { IfErr result (HasPath (IsFaultyAccounts (D.may_answer disk.now) line.old)) }
{
    let users = line.users.take();
    line.users = read_account_file(alloc, disk, line.root, users)?;
    let groups = line.groups.take();
    line.groups = read_account_file(alloc, disk, line.root, groups)?;
    Ok(())
}

/// Reads a file of users or groups, if one is named: that of the root inside the root, and another at its own path.
fn read_account_file<'a, D: Disk>(
    alloc: Global,
    disk: &D,
    root: &str,
    named: Option<AccountFile<'a>>,
) -> Result<Option<AccountFile<'a>>, ReadFault>
    ensures file { IfOk result (IsAccountRead (D.may_answer disk.now) root.now named.entry) }
    ensures fault { IfErr result (HasPath (IsFaultyAccount (D.may_answer disk.now) root.now named.entry)) }
{
    match named {
        None => Ok(None),
        Some(file) if file.of_root => read_of_root(alloc, disk, root, file),
        Some(mut file) => {
            let path = String::from_str(alloc, file.path)?;
            file.bytes = bytes_at(alloc, disk, path)?;
            Ok(Some(file))
        }
    }
}

/// A path below a root.
pub fn path_below(alloc: Global, root: &str, path: &str) -> Result<String, AllocError>
    ensures { IfOk result (λ whole. string_bytes whole ≡ root.now ++ path.now) }
{
    let mut whole = String::from_str(alloc, root)?;
    whole.push_str(path)?;
    Ok(whole)
}

/// Reads a file of users or groups inside a root; there is none if it is not there.
fn read_of_root<'a, D: Disk>(
    alloc: Global,
    disk: &D,
    root: &str,
    mut file: AccountFile<'a>,
) -> Result<Option<AccountFile<'a>>, ReadFault>
    requires { file.of_root ≡ true }
    ensures file { IfOk result (IsFileRead (D.may_answer disk.now) root.now file.entry) }
    ensures fault { IfErr result (HasPath (λ path. (path ≡ root.now ++ file.entry.path.now)
        × IsUnreadable (MayInside (D.may_answer disk.now) root.now) path)) }
{
    let path = path_below(alloc, root, file.path)?;
    let inside = RootedDisk::new(disk, root);
    match inside.read(alloc, path.as_str()) {
        Ok(bytes) => {
            file.bytes = bytes;
            Ok(Some(file))
        }
        Err(DiskFault::Absent) => Ok(None),
        Err(fault) => Err(fault_at(path, fault)),
    }
}
