//! Visits what a line asks for, one file or folder after another, whatever the outcome.
ghost use Rattle.std.specs.Prelude.{◌≡◌, IfOk, IsPermutation, IsSorted, map, string_bytes};
ghost use Rattle.std.specs.String.{string_cmp};
ghost use Rattle.devdry_files.specs.Places.{place_of};
ghost use Rattle.devdry_folders.specs.Visits.{AreAddedVisits, AreFolderVisits, AreNamedVisits, AreSightsAt, AreVisits};
ghost use Rattle.devdry_folders.specs.Visits.{IsAddedVisit, IsFolderScan, IsFolderVisit, IsListedSo, IsNamedSo, IsNamedVisit, IsOneFile, IsSightIn, IsUnlisted};
ghost use Rattle.devdry_folders.specs.Visits.{below, missing_folder, place_of_visit};

use crate::meetings::{file_met_at, link_at, met_at, met_by};
use crate::reasons::Reason;
use crate::sights::{Met, Scan, Sight, Spot, Visit};
use devdry_files::{Disk, DiskFault, Entry, Folder, Look, RootedDisk, kind_added, name_at, wanted};
use engine_sessions::Line;
use std::alloc::{AllocError, Global};
use text_bytes::{Bytes, FileKind};

/// The path of a name in the folder at a path, whose own path may end in a slash.
pub(crate) fn path_below(alloc: Global, folder: &str, name: &str) -> Result<String, AllocError>
    ensures { IfOk result (λ path. string_bytes path ≡ below folder.now name.now) }
{
    let mut path = String::from_str(alloc, folder)?;
    if !folder.as_bytes().ends_with(b"/") {
        path.push_str("/")?;
    }
    path.push_str(name)?;
    Ok(path)
}

/// The names of entries, sorted byte by byte.
fn names_of(alloc: Global, entries: Vec<Entry>) -> Result<Vec<String>, AllocError>
    ensures once { IfOk result (λ names. IsPermutation (map (λ e. e.name) entries.items) names.items) }
    ensures rise { IfOk result (λ names. IsSorted string_cmp names.items) }
{
    let mut names: Vec<String> = entries.into_iter().map(|entry| entry.name).collect(alloc)?;
    names.sort_unstable();
    Ok(names)
}

/// The sight of a name in a folder of files with a suffix.
fn sight_in<D: Disk>(
    alloc: Global,
    disk: &D,
    suffix: &str,
    folder: &str,
    name: &str,
) -> Result<Sight, AllocError>
    ensures name { IfOk result (λ s. s.name ≡ name.now) }
    ensures sight { IfOk result (IsSightIn (D.may_answer disk.now) suffix.now folder.now) }
{
    let path = path_below(alloc, folder, name)?;
    if !name.as_bytes().ends_with(suffix.as_bytes()) {
        return Sight::new(alloc, name.as_bytes(), path.as_str(), Met::OtherName);
    }
    let met = met_at(alloc, disk, path.as_str())?;
    Sight::new(alloc, name.as_bytes(), path.as_str(), met)
}

/// The sights of names in a folder of files with a suffix, in their order.
fn sights_of_names<D: Disk>(
    alloc: Global,
    disk: &D,
    suffix: &str,
    folder: &str,
    names: &[String],
) -> Result<Vec<Sight>, AllocError>
    ensures { IfOk result (λ sights. AreSightsAt (D.may_answer disk.now) suffix.now folder.now
        (map string_bytes names.now) sights.items) }
{
    let mut sights = Vec::new(alloc);
    for name in names {
        sights.push(sight_in(alloc, disk, suffix, folder, name.as_str())?)?;
    }
    Ok(sights)
}

/// The scan of a path that is not listed.
fn unlisted(alloc: Global, spot: Spot) -> Scan
    ensures { IsUnlisted spot result }
{
    Scan {
        spot,
        sights: Vec::new(alloc),
    }
}

/// The outcome of listing the folder at a path.
fn scan_listed<D: Disk>(
    alloc: Global,
    disk: &D,
    suffix: &str,
    path: &str,
) -> Result<Scan, AllocError>
    ensures { IfOk result (IsListedSo (D.may_answer disk.now) suffix.now path.now) }
{
    match disk.list(alloc, path) {
        Ok(entries) => {
            let names = names_of(alloc, entries)?;
            Ok(Scan {
                spot: Spot::Folder,
                sights: sights_of_names(alloc, disk, suffix, path, &names)?,
            })
        }
        Err(DiskFault::Absent) => Ok(unlisted(alloc, Spot::Absent)),
        Err(DiskFault::Unreadable) => Ok(unlisted(alloc, Spot::Unread(Reason::Failed))),
        Err(DiskFault::NotUtf8) => Ok(unlisted(alloc, Spot::Unread(Reason::NotUtf8))),
        Err(DiskFault::OutOfMemory) => Err(AllocError),
    }
}

/// What it means that nothing is at a folder's path, by the symlink there, if there is one.
fn missing_folder(link: Option<Bytes>) -> Spot
    ensures { result ≡ missing_folder link }
{
    match link {
        Some(target) => Spot::Unread(Reason::LinkToNothing(target)),
        None => Spot::Absent,
    }
}

/// The outcome for a folder that is wanted, with the files in it whose names end in a suffix, sorted by name. Nothing else
/// in it is looked at, and nothing is opened that is neither a folder nor a regular file, except the null device.
pub fn scan_folder<D: Disk>(
    alloc: Global,
    disk: &D,
    suffix: &str,
    path: &str,
) -> Result<Scan, AllocError>
    ensures { IfOk result (IsFolderScan (D.may_answer disk.now) suffix.now path.now) }
{
    match disk.look(alloc, path)? {
        Look::Absent => Ok(unlisted(alloc, missing_folder(link_at(alloc, disk, path)?))),
        Look::Folder => scan_listed(alloc, disk, suffix, path),
        Look::File | Look::Other => Ok(unlisted(alloc, Spot::Unread(Reason::NotFolder))),
        Look::Forbidden => Ok(unlisted(alloc, Spot::Unread(Reason::Forbidden))),
        Look::Failed => Ok(unlisted(alloc, Spot::Unread(Reason::Failed))),
    }
}

/// A visit of a folder that is wanted.
fn visit_folder<D: Disk>(alloc: Global, disk: &D, folder: &Folder) -> Result<Visit, AllocError>
    ensures place { IfOk result (λ v. place_of_visit v ≡ place_of folder.now) }
    ensures visit { IfOk result (IsFolderVisit (D.may_answer disk.now)) }
{
    let path = folder.path.as_str();
    let scan = scan_folder(alloc, disk, folder.kind.suffix(), path)?;
    Ok(Visit {
        kind: folder.kind,
        rank: folder.rank,
        is_named: false,
        path: Bytes::copy_of(alloc, path.as_bytes())?,
        scan,
    })
}

/// The outcome for a file: what is met at its path, under a name.
fn file_scan(alloc: Global, name: &[u8], path: &str, met: Met) -> Result<Scan, AllocError>
    ensures { IfOk result (IsOneFile name.now path.now met) }
{
    let mut sights = Vec::new(alloc);
    sights.push(Sight::new(alloc, name, path, met)?)?;
    Ok(Scan {
        spot: Spot::File,
        sights,
    })
}

/// The outcome for what is named, by a look at it.
fn scan_named<D: Disk>(
    alloc: Global,
    disk: &D,
    kind: FileKind,
    path: &str,
    look: Look,
) -> Result<Scan, AllocError>
    ensures { IfOk result (IsNamedSo (D.may_answer disk.now) kind path.now look) }
{
    match look {
        Look::Folder => scan_listed(alloc, disk, kind.suffix(), path),
        _ => {
            let met = met_by(alloc, disk, path, look)?;
            file_scan(alloc, path.as_bytes(), path, met)
        }
    }
}

/// A visit of what is named.
fn visit_named<D: Disk>(
    alloc: Global,
    disk: &D,
    kind: FileKind,
    path: &str,
) -> Result<Visit, AllocError>
    ensures path { IfOk result (λ v. v.path ≡ path.now) }
    ensures visit { IfOk result (IsNamedVisit (D.may_answer disk.now) kind) }
{
    let look = disk.look(alloc, path)?;
    let scan = scan_named(alloc, disk, kind, path, look)?;
    Ok(Visit {
        kind,
        rank: 0,
        is_named: true,
        path: Bytes::copy_of(alloc, path.as_bytes())?,
        scan,
    })
}

/// Visits of what is named, in its order.
fn named_visits<D: Disk>(
    alloc: Global,
    disk: &D,
    kind: FileKind,
    paths: &[&str],
) -> Result<Vec<Visit>, AllocError>
    ensures { IfOk result (λ visits.
        AreNamedVisits (D.may_answer disk.now) kind (map (λ p. p.now) paths.now) visits.items) }
{
    let mut visits = Vec::new(alloc);
    for path in paths {
        visits.push(visit_named(alloc, disk, kind, path)?)?;
    }
    Ok(visits)
}

/// A visit of an added file: what is met at its path, under the name that the path ends in.
fn visit_added<D: Disk>(alloc: Global, disk: &D, path: &str) -> Result<Visit, AllocError>
    ensures path { IfOk result (λ v. v.path ≡ path.now) }
    ensures visit { IfOk result (IsAddedVisit (D.may_answer disk.now)) }
{
    let met = file_met_at(alloc, disk, path)?;
    let scan = file_scan(alloc, name_at(path), path, met)?;
    Ok(Visit {
        kind: kind_added(path),
        rank: 0,
        is_named: false,
        path: Bytes::copy_of(alloc, path.as_bytes())?,
        scan,
    })
}

/// Visits of added files, in their order.
fn added_visits<D: Disk>(alloc: Global, disk: &D, paths: &[&str]) -> Result<Vec<Visit>, AllocError>
    ensures { IfOk result (λ visits.
        AreAddedVisits (D.may_answer disk.now) (map (λ p. p.now) paths.now) visits.items) }
{
    let mut visits = Vec::new(alloc);
    for path in paths {
        visits.push(visit_added(alloc, disk, path)?)?;
    }
    Ok(visits)
}

/// Visits of folders, in their order.
fn folder_visits<D: Disk>(
    alloc: Global,
    disk: &D,
    folders: &[Folder],
) -> Result<Vec<Visit>, AllocError>
    ensures { IfOk result (λ visits.
        AreFolderVisits (D.may_answer disk.now) (map place_of folders.now) visits.items) }
{
    let mut visits = Vec::new(alloc);
    for folder in folders {
        visits.push(visit_folder(alloc, disk, folder)?)?;
    }
    Ok(visits)
}

/// Visits all that a line asks for: what is named in the order given, then the added files, and then the folders, inside
/// their root.
///
/// A named file is read whatever its name, and so is an added one, which is seen under that name; in a named folder,
/// and in the folders, the files whose names end in the suffix of their kind are read, by name. What can't be read is
/// kept with its reason, and the next is visited. An absent folder is not a fault, but a symlink to nothing is.
pub(crate) fn visits<D: Disk>(
    alloc: Global,
    disk: &D,
    line: &Line<'_>,
) -> Result<Vec<Visit>, AllocError>
    ensures { IfOk result (λ visits. AreVisits (D.may_answer disk.now) line.now visits.items) }
{
    let wanted = wanted(alloc, line)?;
    let mut visits = named_visits(alloc, disk, wanted.kind, wanted.files)?;
    visits.append(&mut added_visits(alloc, disk, wanted.added)?)?;
    let inside = RootedDisk::new(disk, wanted.root);
    visits.append(&mut folder_visits(alloc, &inside, wanted.folders.as_slice())?)?;
    Ok(visits)
}
