//! A disk inside a root: each path is followed below the root, and nothing outside is seen.
ghost use Rattle.std.specs.Prelude.{◌≡◌, ◌≢◌, ◌++◌, ◌∷◌, ◌⊎◌, [], IfErr, IfOk, MatchOption, false, map, string_bytes};
ghost use Rattle.std.specs.List.{AllZip};
ghost use Rattle.text_bytes.specs.Text.{Text};
ghost use Rattle.devdry_files.specs.Answers.Answer.{Content, Listing, NoContent, NoListing, NoOwnContent, OwnContent, Looked, Stepped};
ghost use Rattle.devdry_files.specs.Inside.{IsEntryIn, IsStillFile, IsStillFolder, ListsFolder, ListsNoFolder, MayBy, MayInside};
ghost use Rattle.devdry_files.specs.Inside.{ReadsFile, ReadsNoFile};
ghost use Rattle.devdry_files.specs.Inside.{is_file_with, is_folder, is_own_root, unreadable};
ghost use Rattle.devdry_files.specs.declared.disk.DiskFault.TheVariants.{OutOfMemory};
ghost use Rattle.devdry_files.specs.Walks.{Comes, LeadsOn, place_in};

use crate::disk::{Disk, DiskFault, Entry};
use crate::look::Look;
use crate::rooted_steps::step_after;
use crate::step::{End, Identity, Step};
use crate::walking::{lead, names_of, place_in};
use std::alloc::{AllocError, Global};
use std::collections::VecDeque;
use text_bytes::Bytes;

/// What a disk shows of the paths inside a root. If that is the root of the running system, empty or only slashes,
/// the disk is asked as it is.
#[derive(Drop)]
pub struct RootedDisk<'d, 'a, D> {
    disk: &'d D,
    root: &'a str,
}

impl<'d, 'a, D> RootedDisk<'d, 'a, D> {
    /// What a disk shows inside a root.
    pub fn new(disk: &'d D, root: &'a str) -> RootedDisk<'d, 'a, D>
        ensures disk { result.disk.now ≡ disk.now }
        ensures root { result.root.now ≡ root.now }
    {
        RootedDisk { disk, root }
    }
}

/// Whether a root is that of the running system: it is empty, or only slashes.
fn is_own_root(root: &str) -> bool
    ensures { result ≡ is_own_root root.now }
{
    root.bytes().all(|byte| byte == b'/')
}

/// What a path leads to, and the names of the way there.
#[derive(Drop)]
struct Found {
    end: End,
    way: Vec<String>,
}

/// What follows the root in a path, if that begins with it.
fn after_root<'p>(root: &str, path: &'p str) -> Option<&'p str>
    ensures { MatchOption result ((rest : Text) → path.now ≢ root.now ++ rest) (λ rest. path.now ≡ root.now ++ rest.now) }
{
    path.strip_prefix(root)
}

/// What a path leads to inside a root.
fn found_at<D: Disk>(alloc: Global, disk: &D, root: &str, path: &str) -> Result<Found, AllocError>
    ensures { IfOk result (λ f. Comes (D.may_answer disk.now) root.now path.now f.end (map string_bytes f.way.items)) }
{
    let mut way = Vec::new(alloc);
    let end = match after_root(root, path) {
        Some(rest) => lead(alloc, disk, root, &mut way, names_of(alloc, rest)?)?,
        None => End::NoWay(Look::Absent),
    };
    Ok(Found { end, way })
}

/// The names of a way, copied.
fn copies_of(alloc: Global, way: &[String]) -> Result<Vec<String>, AllocError>
    ensures { IfOk result (λ copies. map string_bytes copies.items ≡ map string_bytes way.now) }
{
    let mut copies = Vec::new(alloc);
    for name in way {
        copies.push(String::from_str(alloc, name.as_str())?)?;
    }
    Ok(copies)
}

/// What a name in the place at the end of a way leads to.
fn end_of<D: Disk>(
    alloc: Global,
    disk: &D,
    root: &str,
    way: &[String],
    name: &str,
) -> Result<Found, AllocError>
    ensures { IfOk result (λ f. LeadsOn (D.may_answer disk.now) root.now (map string_bytes way.now)
        (name.now ∷ []) f.end (map string_bytes f.way.items)) }
{
    let mut names = VecDeque::new(alloc);
    names.push_back(String::from_str(alloc, name)?)?;
    let mut on = copies_of(alloc, way)?;
    let end = lead(alloc, disk, root, &mut on, names)?;
    Ok(Found { end, way: on })
}

/// Whether a path leads to a folder.
fn is_folder(end: End) -> bool
    ensures { result ≡ is_folder end }
{
    matches!(end, End::Folder)
}

/// An entry of a folder, which is a folder if its name leads to one inside the root.
fn entry_in<D: Disk>(
    alloc: Global,
    disk: &D,
    root: &str,
    way: &[String],
    own: &Entry,
) -> Result<Entry, AllocError>
    ensures { IfOk result (IsEntryIn (D.may_answer disk.now) root.now (map string_bytes way.now) own.now) }
{
    let found = end_of(alloc, disk, root, way, own.name.as_str())?;
    Ok(Entry {
        name: String::from_str(alloc, own.name.as_str())?,
        is_folder: is_folder(found.end),
    })
}

/// The entries of a folder, by what their names lead to inside the root.
fn entries_in<D: Disk>(
    alloc: Global,
    disk: &D,
    root: &str,
    way: &[String],
    own: &[Entry],
) -> Result<Vec<Entry>, AllocError>
    ensures { IfOk result (λ entries. AllZip (IsEntryIn (D.may_answer disk.now) root.now (map string_bytes way.now))
        own.now entries.items) }
{
    let mut entries = Vec::new(alloc);
    for entry in own {
        entries.push(entry_in(alloc, disk, root, way, entry)?)?;
    }
    Ok(entries)
}

/// Why what a path leads to is not read.
fn unreadable(end: End) -> DiskFault
    ensures { result ≡ unreadable end }
{
    match end {
        End::NoWay(Look::Absent) => DiskFault::Absent,
        _ => DiskFault::Unreadable,
    }
}

/// Whether what a path leads to is the file with an identity.
fn is_file_with(identity: Identity, end: End) -> bool
    ensures { result ≡ is_file_with identity end }
{
    match end {
        End::File(own) => (own.device == identity.device) & (own.number == identity.number),
        _ => false,
    }
}

/// Whether a path still leads to the file with an identity inside a root.
fn still_is_file<D: Disk>(
    alloc: Global,
    disk: &D,
    root: &str,
    path: &str,
    identity: Identity,
) -> Result<bool, AllocError>
    ensures { IfOk result (IsStillFile (D.may_answer disk.now) root.now path.now identity) }
{
    let found = found_at(alloc, disk, root, path)?;
    Ok(is_file_with(identity, found.end))
}

/// Whether a path still leads to the folder at a place inside a root.
fn still_leads_to<D: Disk>(
    alloc: Global,
    disk: &D,
    root: &str,
    path: &str,
    place: &str,
) -> Result<bool, AllocError>
    ensures { IfOk result (IsStillFolder (D.may_answer disk.now) root.now path.now place.now) }
{
    let Found { end, way } = found_at(alloc, disk, root, path)?;
    let at = place_in(alloc, root, &way)?;
    Ok(is_folder(end) && at.as_str() == place)
}

/// The entries of the folder at the place that a way comes to, if a path still leads to it once it was listed: else another was
/// put in its place, or in that of a folder on the way.
fn list_folder_at<D: Disk>(
    alloc: Global,
    disk: &D,
    root: &str,
    path: &str,
    way: &[String],
) -> Result<Vec<Entry>, DiskFault>
    ensures listed { IfOk result (λ entries. ListsFolder (D.may_answer disk.now) root.now path.now (map string_bytes way.now) entries.items) }
    ensures fault { IfErr result (λ fault. (fault ≡ OutOfMemory) ⊎ ListsNoFolder (D.may_answer disk.now)
        (IsStillFolder (D.may_answer disk.now) root.now path.now) (place_in root.now (map string_bytes way.now)) fault) }
{
    let place = place_in(alloc, root, way)?;
    let own = disk.list(alloc, place.as_str())?;
    if still_leads_to(alloc, disk, root, path, place.as_str())? {
        Ok(entries_in(alloc, disk, root, way, &own)?)
    } else {
        Err(DiskFault::Unreadable)
    }
}

/// The bytes of the file with an identity at the place that a way comes to, if a path still leads to it once they were read:
/// else another was put in its place, or in that of a folder on the way.
fn read_file_at<D: Disk>(
    alloc: Global,
    disk: &D,
    root: &str,
    path: &str,
    way: &[String],
    identity: Identity,
) -> Result<Bytes, DiskFault>
    ensures read { IfOk result (λ bytes. ReadsFile (D.may_answer disk.now) (IsStillFile (D.may_answer disk.now) root.now path.now)
        (place_in root.now (map string_bytes way.now)) identity bytes) }
    ensures fault { IfErr result (λ fault. (fault ≡ OutOfMemory) ⊎ ReadsNoFile (D.may_answer disk.now)
        (IsStillFile (D.may_answer disk.now) root.now path.now) (place_in root.now (map string_bytes way.now)) identity fault) }
{
    let place = place_in(alloc, root, way)?;
    let bytes = disk.read_own(alloc, place.as_str(), identity)?;
    if still_is_file(alloc, disk, root, path, identity)? {
        Ok(bytes)
    } else {
        Err(DiskFault::Unreadable)
    }
}

/// The entries of the folder that a path leads to inside a root.
fn list_in<D: Disk>(
    alloc: Global,
    disk: &D,
    root: &str,
    path: &str,
) -> Result<Vec<Entry>, DiskFault>
    ensures listed { IfOk result (λ entries. MayBy false (D.may_answer disk.now) root.now (Listing path.now entries.items)) }
    ensures fault { IfErr result (λ fault. MayBy false (D.may_answer disk.now) root.now (NoListing path.now fault)) }
{
    let Found { end, way } = found_at(alloc, disk, root, path)?;
    match end {
        End::Folder => list_folder_at(alloc, disk, root, path, &way),
        _ => Err(unreadable(end)),
    }
}

/// The bytes of the file that a path leads to inside a root.
fn read_in<D: Disk>(alloc: Global, disk: &D, root: &str, path: &str) -> Result<Bytes, DiskFault>
    ensures read { IfOk result (λ bytes. MayBy false (D.may_answer disk.now) root.now (Content path.now bytes)) }
    ensures fault { IfErr result (λ fault. MayBy false (D.may_answer disk.now) root.now (NoContent path.now fault)) }
{
    let Found { end, way } = found_at(alloc, disk, root, path)?;
    match end {
        End::File(identity) => read_file_at(alloc, disk, root, path, &way, identity),
        End::Null => Ok(Bytes::new(Vec::new(alloc))),
        _ => Err(unreadable(end)),
    }
}

/// The bytes of the file that a path leads to inside a root, if it is the one with an identity.
fn read_own_in<D: Disk>(
    alloc: Global,
    disk: &D,
    root: &str,
    path: &str,
    identity: Identity,
) -> Result<Bytes, DiskFault>
    ensures read { IfOk result (λ bytes. MayBy false (D.may_answer disk.now) root.now (OwnContent path.now identity bytes)) }
    ensures fault { IfErr result (λ fault. MayBy false (D.may_answer disk.now) root.now (NoOwnContent path.now identity fault)) }
{
    let Found { end, way } = found_at(alloc, disk, root, path)?;
    if is_file_with(identity, end) {
        read_file_at(alloc, disk, root, path, &way, identity)
    } else {
        Err(DiskFault::Unreadable)
    }
}

/// What a look at what a path leads to inside a root shows.
fn look_in<D: Disk>(alloc: Global, disk: &D, root: &str, path: &str) -> Result<Look, AllocError>
    ensures { IfOk result (λ look. MayBy false (D.may_answer disk.now) root.now (Looked path.now look)) }
{
    let Found { end, way } = found_at(alloc, disk, root, path)?;
    match end {
        End::Null => Ok(Look::File),
        End::OddLink => Ok(Look::Absent),
        End::NoWay(look) => Ok(look),
        End::Folder | End::File(_) => {
            let place = place_in(alloc, root, &way)?;
            disk.look(alloc, place.as_str())
        }
    }
}

/// What is at a path inside a root, with no symlink followed at its end.
fn step_in<D: Disk>(alloc: Global, disk: &D, root: &str, path: &str) -> Result<Step, AllocError>
    ensures { IfOk result (λ step. MayBy false (D.may_answer disk.now) root.now (Stepped path.now step)) }
{
    match after_root(root, path) {
        Some(rest) => step_after(alloc, disk, root, rest),
        None => Ok(Step::NoWay(Look::Absent)),
    }
}

impl<D: Disk> Disk for RootedDisk<'_, '_, D> {
    ghost may_answer = { λ this. MayInside (D.may_answer this.disk.now) this.root.now };

    fn list(&self, alloc: Global, path: &str) -> Result<Vec<Entry>, DiskFault> {
        if is_own_root(self.root) {
            self.disk.list(alloc, path)
        } else {
            list_in(alloc, self.disk, self.root, path)
        }
    }

    fn read(&self, alloc: Global, path: &str) -> Result<Bytes, DiskFault> {
        if is_own_root(self.root) {
            self.disk.read(alloc, path)
        } else {
            read_in(alloc, self.disk, self.root, path)
        }
    }

    fn read_own(&self, alloc: Global, path: &str, identity: Identity) -> Result<Bytes, DiskFault> {
        if is_own_root(self.root) {
            self.disk.read_own(alloc, path, identity)
        } else {
            read_own_in(alloc, self.disk, self.root, path, identity)
        }
    }

    fn look(&self, alloc: Global, path: &str) -> Result<Look, AllocError> {
        if is_own_root(self.root) {
            self.disk.look(alloc, path)
        } else {
            look_in(alloc, self.disk, self.root, path)
        }
    }

    fn step(&self, alloc: Global, path: &str) -> Result<Step, AllocError> {
        if is_own_root(self.root) {
            self.disk.step(alloc, path)
        } else {
            step_in(alloc, self.disk, self.root, path)
        }
    }
}
