//! What people are told about a path that a line asks for and that can't be read.
ghost use Rattle.std.specs.List.{list_any};
ghost use Rattle.std.specs.Option.{option_to_list};
ghost use Rattle.std.specs.Prelude.{◌≡◌, IfOk, option_map};
ghost use Rattle.devdry_folders.specs.Advice.{IsAdvice, advice_by, advice_in, if_about, is_named_folder, reason_among, reason_in, reason_in_visits};

use crate::reading::survey_for;
use crate::reasons::{Reason, push_advice};
use crate::sights::{Sight, Spot, Survey, Visit};
use devdry_files::Disk;
use engine_sessions::Line;
use std::alloc::{AllocError, Global};

/// Whether a path is that of a folder which is named as a file.
fn is_named_folder(path: &[u8], visit: &Visit) -> bool
    ensures { result ≡ is_named_folder path.now visit.now }
{
    visit.is_named && matches!(visit.scan.spot, Spot::Folder) && visit.path.as_slice() == path
}

/// Whether a path is that of a folder which one of these visits is of, and which is named as a file.
fn is_one_named(path: &[u8], visits: &[Visit]) -> bool
    ensures { result ≡ list_any (is_named_folder path.now) visits.now }
{
    visits.iter().any(|visit| is_named_folder(path, visit))
}

/// Why a path can't be read, by the first of some sights that is of it and can't be.
fn reason_among<'a>(path: &[u8], sights: &'a [Sight]) -> Option<&'a Reason>
    ensures { option_map (λ reason. reason.now) result ≡ reason_among path.now sights.now }
{
    for sight in sights {
        if let Some(reason) = if_about(path, sight.path.as_slice(), sight.met.reason()) {
            return Some(reason);
        }
    }
    None
}

/// A reason if it is about this path.
fn if_about<'a>(path: &[u8], at: &[u8], reason: Option<&'a Reason>) -> Option<&'a Reason>
    ensures { option_map (λ reason. reason.now) result ≡ if_about path.now at.now (option_map (λ reason. reason.now) reason.entry) }
{
    if at == path { reason } else { None }
}

/// The same by the first of some visits: of the folder, and then of what is in it.
fn reason_in_visits<'a>(path: &[u8], visits: &'a [Visit]) -> Option<&'a Reason>
    ensures { option_map (λ reason. reason.now) result ≡ reason_in_visits path.now visits.now }
{
    for visit in visits {
        let of_folder = if_about(path, visit.path.as_slice(), visit.scan.spot.reason());
        if let Some(reason) = of_folder.or(reason_among(path, &visit.scan.sights)) {
            return Some(reason);
        }
    }
    None
}

/// The same by an index, if there is one.
fn reason_of_index<'a>(path: &[u8], index: &'a Option<Sight>) -> Option<&'a Reason>
    ensures { option_map (λ reason. reason.now) result ≡ reason_among path.now (option_to_list index.now) }
{
    match index {
        Some(sight) => if_about(path, sight.path.as_slice(), sight.met.reason()),
        None => None,
    }
}

/// The same by a survey: the index is looked at last.
fn reason_in<'a>(path: &[u8], survey: &'a Survey) -> Option<&'a Reason>
    ensures { option_map (λ reason. reason.now) result ≡ reason_in path.now survey.now }
{
    match reason_in_visits(path, &survey.visits) {
        Some(reason) => Some(reason),
        None => reason_of_index(path, &survey.index),
    }
}

/// What people are told about a reason, if there is one; without one, what they are told about a folder that is no file, if it
/// is one.
fn advice_by(alloc: Global, reason: Option<&Reason>, is_folder: bool) -> Result<Vec<u8>, AllocError>
    ensures { IfOk result (λ advice. advice.items ≡ advice_by (option_map (λ reason. reason.now) reason.entry) is_folder) }
{
    let mut advice = Vec::new(alloc);
    match reason {
        Some(reason) => push_advice(alloc, &mut advice, reason)?,
        None if is_folder => push_advice(alloc, &mut advice, &Reason::NotRegular)?,
        None => {}
    }
    Ok(advice)
}

/// What people are told about a path, by a survey.
fn advice_in(alloc: Global, path: &[u8], survey: &Survey) -> Result<Vec<u8>, AllocError>
    ensures { IfOk result (λ advice. advice.items ≡ advice_in path.now survey.now) }
{
    let is_folder = is_one_named(path, &survey.visits);
    advice_by(alloc, reason_in(path, survey), is_folder)
}

/// What people are told about a path that a line asks for and that can't be read: all that it asks for is visited once more,
/// to find out why. It is two lines, what is wrong and what to do about it, or nothing if the path can be read by now.
pub fn advice_at<D: Disk>(
    alloc: Global,
    disk: &D,
    line: &Line<'_>,
    path: &str,
) -> Result<Vec<u8>, AllocError>
    ensures { IfOk result (λ advice. IsAdvice (D.may_answer disk.now) line.now path.now advice.items) }
{
    let survey = survey_for(alloc, disk, line, line.index)?;
    advice_in(alloc, path.as_bytes(), &survey)
}
