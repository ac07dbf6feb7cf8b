//! How many files are bad.
ghost use Rattle.std.specs.Prelude.{◌≡◌, [], if◌then◌else◌, ◌<◌, ◌≤◌, ◌++◌, length, map, IfOk, OnOk, decimal};
ghost use Rattle.engine_reports.specs.Checks.{bad_count, files_said, summary_line, verify_status};
ghost use Rattle.engine_reports.specs.Reports.{said};
ghost use Rattle.text_bytes.specs.Text.{Text};
ghost use Rattle.text_tables.specs.Texts.{is_among};

use crate::report::Report;
use itoa::Buffer;
use std::alloc::{AllocError, Global};
use text_bytes::SourceFile;
use text_tables::Texts;

/// Something that is reported under the name of a file.
pub trait Named {
    // the name
    ghost name: { Self → Text };

    /// The name of the file.
    fn file_name(&self) -> &[u8]
        ensures { result.now ≡ name self.now };
}

impl<'f> Named for &'f [u8] {
    ghost name = { λ text. text.now };

    fn file_name(&self) -> &[u8] {
        self
    }
}

/// What is said about files: the lines of what is reported about them, and how many of them it makes bad.
pub fn report_on_files<T: Named>(
    alloc: Global,
    summary: bool,
    files: &[SourceFile],
    reported: &[T],
    lines: Vec<u8>,
) -> Result<Report, AllocError>
    ensures said { IfOk result (λ r. said r ≡ files_said summary files.now (map T.name reported.now) lines.items) }
    ensures status { IfOk result (λ r. r.status < 3) }
{
    let bad = bad_count(alloc, files, reported)?;
    Ok(Report {
        output: counted(alloc, summary, files.len(), bad)?,
        messages: lines,
        status: verify_status(bad),
    })
}

/// How many of the files have something reported under their name.
fn bad_count<T: Named>(
    alloc: Global,
    files: &[SourceFile],
    reported: &[T],
) -> Result<usize, AllocError>
    ensures count { IfOk result (λ n. n ≡ bad_count files.now (map T.name reported.now)) }
    ensures within { IfOk result (λ n. n ≤ length files.now) }
{
    let names = names_in(alloc, reported)?;
    Ok(
        files
            .iter()
            .filter(|file| names.contains(file.name.as_slice()))
            .count(),
    )
}

/// The names under which something is reported.
fn names_in<'a, T: Named>(alloc: Global, reported: &'a [T]) -> Result<Texts<'a>, AllocError>
    ensures { IfOk result (λ names. (name : Text) → is_among names name ≡ is_among (map T.name reported.now) name) }
{
    let mut names = Texts::new(alloc);
    for one in reported {
        names.add(one.file_name())?;
    }
    Ok(names)
}

/// The line that counts files, if it is asked for: all of them, and how many are bad.
fn counted(alloc: Global, summary: bool, all: usize, bad: usize) -> Result<Vec<u8>, AllocError>
    requires { bad ≤ all }
    ensures { IfOk result (λ text. text.items ≡ (if summary then summary_line all bad else [])) }
{
    if summary {
        summary_line(alloc, all, bad)
    } else {
        Ok(Vec::new(alloc))
    }
}

/// The line that counts files.
#[tactic(auto, unfolding(crate::specs::Checks::summary_line))]
fn summary_line(alloc: Global, all: usize, bad: usize) -> Result<Vec<u8>, AllocError>
    requires { bad ≤ all }
    ensures { IfOk result (λ text. text.items ≡ summary_line all bad) }
{
    let mut text = Vec::new(alloc);
    push_count(&mut text, all, b" files checked, ")?;
    push_count(&mut text, all - bad, b" good, ")?;
    push_count(&mut text, bad, b" bad\n")?;
    Ok(text)
}

/// Appends a number and a text.
fn push_count(text: &mut Vec<u8>, count: usize, following: &[u8]) -> Result<(), AllocError>
    ensures { OnOk result (text.new.items ≡ text.old.items ++ (decimal count ++ following.now)) }
{
    text.extend_from_slice(Buffer::new().format(count).as_bytes())?;
    text.extend_from_slice(following)?;
    Ok(())
}

/// 0 if no file is bad, else 1.
fn verify_status(bad: usize) -> u8
    ensures { result ≡ verify_status bad }
{
    if bad == 0 { 0 } else { 1 }
}
