//! Where a path leads inside a folder, the root.
//!
//! The path is followed name by name, as `udevadm --root` does it: a symlink to an absolute path begins at the root
//! again, and `..` stops there. So a walk never leaves the root.
ghost use Rattle.std.specs.Prelude.{◌≡◌, ◌++◌, ◌∷◌, [], ℕ, None, IfOk, IfSome, OnOk, false, map, string_bytes, suc};
ghost use Rattle.devdry_files.specs.Walks.{Enters, Leads, LeadsOn, Way, is_absolute, is_here, is_up, names_in};
ghost use Rattle.devdry_files.specs.Walks.{next_by, place_by, place_in, settled};
ghost use Rattle.devdry_files.specs.declared.step.End.{End as Came};

use crate::disk::Disk;
use crate::look::Look;
use crate::step::{End, Step};
use std::alloc::{AllocError, Global};
use std::collections::VecDeque;

/// The most walks on a way: each ends where a symlink is followed, and after 40 none is.
const MAX_WALKS: u32 = 41;

/// What follows a name on a way.
#[derive(Drop)]
pub enum Next {
    /// 1: the next name.
    Further,
    /// 2: the names of the path that a symlink leads to.
    Follow(String),
    /// 3: nothing.
    Stop(End),
}

/// The names of a path, between its slashes.
fn names_in<'a>(alloc: Global, path: &'a str) -> Result<Vec<&'a str>, AllocError>
    ensures { IfOk result (λ names. map (λ n. n.now) names.items ≡ names_in path.now) }
{
    path.split('/').collect(alloc)
}

/// The names of a path, each in its own text.
pub(crate) fn names_of(alloc: Global, path: &str) -> Result<VecDeque<String>, AllocError>
    ensures { IfOk result (λ names. map string_bytes names.items ≡ names_in path.now) }
{
    let found = names_in(alloc, path)?;
    let mut names = VecDeque::new(alloc);
    for name in &found {
        names.push_back(String::from_str(alloc, name)?)?;
    }
    Ok(names)
}

/// The path of the place that a way comes to.
pub(crate) fn place_in(alloc: Global, root: &str, way: &[String]) -> Result<String, AllocError>
    ensures { IfOk result (λ path. string_bytes path ≡ place_in root.now (map string_bytes way.now)) }
{
    let mut path = String::from_str(alloc, root)?;
    for name in way {
        path.push_str("/")?;
        path.push_str(name.as_str())?;
    }
    Ok(path)
}

/// Whether a name leads to the folder that it is in.
pub(crate) fn is_here(name: &str) -> bool
    ensures { result ≡ is_here name.now }
{
    name.is_empty() || name == "."
}

/// Whether a name leads to the folder above.
pub(crate) fn is_up(name: &str) -> bool
    ensures { result ≡ is_up name.now }
{
    name == ".."
}

/// Whether a path begins at the root.
fn is_absolute(path: &str) -> bool
    ensures { result ≡ is_absolute path.now }
{
    path.as_bytes().first() == Some(&b'/')
}

/// What follows a name, by what is there.
fn next_by(step: Step) -> Next
    ensures { result ≡ next_by step }
{
    match step {
        Step::Folder => Next::Further,
        Step::File(identity) => Next::Stop(End::File(identity)),
        Step::Link(target) if target.as_str() == "/dev/null" => Next::Stop(End::Null),
        Step::Link(target) => Next::Follow(target),
        Step::OddLink => Next::Stop(End::OddLink),
        Step::NoWay(look) => Next::Stop(End::NoWay(look)),
    }
}

/// Goes on after a name, by what is there.
fn go_on(way: &mut Vec<String>, name: String, step: &Step) -> Result<(), AllocError>
    ensures { OnOk result (map string_bytes way.new.items ≡ place_by step.now (map string_bytes way.old.items) (string_bytes name)) }
{
    match step {
        Step::Link(target) if is_absolute(target.as_str()) => way.clear(),
        Step::Link(_) => {}
        _ => way.push(name)?,
    }
    Ok(())
}

/// The path of the place that a way comes to with a name after it.
pub(crate) fn path_of(
    alloc: Global,
    root: &str,
    way: &[String],
    name: &str,
) -> Result<String, AllocError>
    ensures { IfOk result (λ path. string_bytes path ≡ place_in root.now (map string_bytes way.now ++ name.now ∷ [])) }
{
    let mut path = place_in(alloc, root, way)?;
    path.push_str("/")?;
    path.push_str(name)?;
    Ok(path)
}

/// Follows a name from a place to what is there.
fn enter<D: Disk>(
    alloc: Global,
    disk: &D,
    root: &str,
    way: &mut Vec<String>,
    name: String,
) -> Result<Next, AllocError>
    ensures { IfOk result (λ next. Enters (D.may_answer disk.now) root.now (map string_bytes way.old.items)
        (string_bytes name) next (map string_bytes way.new.items)) }
{
    if is_here(name.as_str()) {
        return Ok(Next::Further);
    }
    if is_up(name.as_str()) {
        way.pop();
        return Ok(Next::Further);
    }
    let path = path_of(alloc, root, way, name.as_str())?;
    let step = disk.step(alloc, path.as_str())?;
    go_on(way, name, &step)?;
    Ok(next_by(step))
}

/// What a path leads to whose way ends before these names: nothing is below a file.
#[tactic(auto, using(crate::proofs::Ways::settled_at_last, crate::proofs::Ways::settled_before))]
fn settled(ahead: &VecDeque<String>, end: End) -> End
    ensures { result ≡ settled (map string_bytes ahead.now.items) end }
{
    match end {
        _ if ahead.is_empty() => end,
        End::NoWay(look) => End::NoWay(look),
        _ => End::NoWay(Look::Other),
    }
}

/// The names of a path with others after them.
fn names_before(
    alloc: Global,
    path: &str,
    following: &mut VecDeque<String>,
) -> Result<VecDeque<String>, AllocError>
    ensures { IfOk result (λ names. map string_bytes names.items ≡ names_in path.now ++ map string_bytes following.old.items) }
{
    let mut names = names_of(alloc, path)?;
    while let Some(name) = following.pop_front() {
        names.push_back(name)?;
    }
    Ok(names)
}

/// Follows names from a place to an end, or until a symlink is to be followed, with the names that are to be followed then.
fn walk<D: Disk>(
    alloc: Global,
    disk: &D,
    root: &str,
    way: &mut Vec<String>,
    ahead: &mut VecDeque<String>,
) -> Result<Option<End>, AllocError>
    ensures ends { (links : ℕ) → IfOk result (λ ended. IfSome ended (λ end.
        Leads (D.may_answer disk.now) root.now (suc links) (map string_bytes way.old.items)
        (map string_bytes ahead.old.items) end (map string_bytes way.new.items))) }
    ensures follows { (links : ℕ) (end : Came) (at : Way) → IfOk result (λ ended. ended ≡ None →
        Leads (D.may_answer disk.now) root.now links (map string_bytes way.new.items) (map string_bytes ahead.new.items) end at
        → Leads (D.may_answer disk.now) root.now (suc links) (map string_bytes way.old.items)
        (map string_bytes ahead.old.items) end at) }
{
    while let Some(name) = ahead.pop_front() {
        match enter(alloc, disk, root, way, name)? {
            Next::Further => {}
            Next::Follow(target) => {
                *ahead = names_before(alloc, target.as_str(), ahead)?;
                return Ok(None);
            }
            Next::Stop(end) => return Ok(Some(settled(ahead, end))),
        }
    }
    Ok(Some(End::Folder))
}

/// Follows names from a place to an end, whatever symlinks are on the way.
pub(crate) fn lead<D: Disk>(
    alloc: Global,
    disk: &D,
    root: &str,
    way: &mut Vec<String>,
    mut ahead: VecDeque<String>,
) -> Result<End, AllocError>
    ensures { IfOk result (λ end. LeadsOn (D.may_answer disk.now) root.now (map string_bytes way.old.items)
        (map string_bytes ahead.items) end (map string_bytes way.new.items)) }
{
    for _ in 0..MAX_WALKS {
        match walk(alloc, disk, root, way, &mut ahead)? {
            Some(end) => return Ok(end),
            None => {}
        }
    }
    Ok(End::NoWay(Look::Failed))
}
