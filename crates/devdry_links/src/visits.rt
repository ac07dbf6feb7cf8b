//! Looks for `.link` files and drop-ins, one folder after another, whatever the outcome.
ghost use Rattle.std.specs.Prelude.{◌≡◌, ◌++◌, ◌∷◌, [], IfOk, OnOk, flat_map};
ghost use Rattle.devdry_links.specs.Visits.{AreVisits, IsVisit, file_at, file_of_sight, files_of, unread_lines};

use crate::places::LinkPlace;
use devdry_files::Disk;
use devdry_folders::{Met, Scan, Sight, push_on_scan, scan_folder};
use std::alloc::{AllocError, Global};
use text_bytes::{Bytes, FileKind, SourceFile};

/// A folder, and the outcome of looking at it.
#[derive(Drop)]
pub struct LinkVisit {
    /// The folder.
    pub place: LinkPlace,
    /// What was met there.
    pub scan: Scan,
}

/// Looks at a folder.
fn visit<D: Disk>(alloc: Global, disk: &D, place: LinkPlace) -> Result<LinkVisit, AllocError>
    ensures place { IfOk result (λ v. v.place ≡ place) }
    ensures visit { IfOk result (IsVisit (D.may_answer disk.now)) }
{
    let scan = scan_folder(alloc, disk, place.suffix(), place.path())?;
    Ok(LinkVisit { place, scan })
}

/// Looks at folders, in their order.
pub(crate) fn visits<D: Disk>(
    alloc: Global,
    disk: &D,
    places: Vec<LinkPlace>,
) -> Result<Vec<LinkVisit>, AllocError>
    ensures { IfOk result (λ visits. AreVisits (D.may_answer disk.now) places.items visits.items) }
{
    let mut visits = Vec::new(alloc);
    for place in places {
        visits.push(visit(alloc, disk, place)?)?;
    }
    Ok(visits)
}

/// Adds a file of a folder.
fn push_at(
    alloc: Global,
    place: &LinkPlace,
    name: &[u8],
    bytes: Bytes,
    files: &mut Vec<SourceFile>,
) -> Result<(), AllocError>
    ensures { OnOk result (files.new.items ≡ files.old.items ++ file_at place.now name.now bytes ∷ []) }
{
    let mut whole = Vec::from_slice(alloc, place.before())?;
    whole.extend_from_slice(name)?;
    files.push(SourceFile {
        kind: FileKind::Rules,
        rank: place.rank(),
        name: Bytes::new(whole),
        bytes,
    })?;
    Ok(())
}

/// Adds the file of what was met at a name in a folder, if it is one.
fn push_file(
    alloc: Global,
    place: &LinkPlace,
    sight: Sight,
    files: &mut Vec<SourceFile>,
) -> Result<(), AllocError>
    ensures { OnOk result (files.new.items ≡ files.old.items ++ file_of_sight place.now sight) }
{
    let Sight {
        name: own_name,
        met,
        ..
    } = sight;
    let name = own_name.as_slice();
    match met {
        Met::File(bytes) => push_at(alloc, place, name, bytes, files),
        Met::Unread(_) => push_at(alloc, place, name, Bytes::new(Vec::new(alloc)), files),
        Met::Folder | Met::OtherName => Ok(()),
    }
}

/// Adds the files of what was met in a folder.
fn push_files(
    alloc: Global,
    place: &LinkPlace,
    sights: Vec<Sight>,
    files: &mut Vec<SourceFile>,
) -> Result<(), AllocError>
    ensures { OnOk result (files.new.items ≡ files.old.items ++ flat_map (file_of_sight place.now) sights.items) }
{
    for sight in sights {
        push_file(alloc, place, sight, files)?;
    }
    Ok(())
}

/// The files of visits, in their order: one that can't be read has no bytes. The bytes of files are not copied.
pub(crate) fn files_of(alloc: Global, visits: Vec<LinkVisit>) -> Result<Vec<SourceFile>, AllocError>
    ensures { IfOk result (λ files. files.items ≡ files_of visits.items) }
{
    let mut files = Vec::new(alloc);
    for visit in visits {
        let LinkVisit { place, scan } = visit;
        push_files(alloc, &place, scan.sights, &mut files)?;
    }
    Ok(files)
}

/// Adds the lines on what can't be read, in the order of the visits.
pub(crate) fn push_unread_lines(
    alloc: Global,
    visits: &[LinkVisit],
    lines: &mut Vec<u8>,
) -> Result<(), AllocError>
    ensures { OnOk result (lines.new.items ≡ lines.old.items ++ unread_lines visits.now) }
{
    for visit in visits {
        let path = visit.place.path().as_bytes();
        push_on_scan(alloc, lines, false, path, &visit.scan)?;
    }
    Ok(())
}
