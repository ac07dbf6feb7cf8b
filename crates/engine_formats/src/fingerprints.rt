//! What distinguishes the diagnostics of a report from one another.
//!
//! Who reads a report compares it with that of an earlier run. Lines that were added above must not make a message a new
//! one, so a fingerprint has the text of its line and not its number. Messages with the same text are counted. A long line may
//! have many messages, and a fingerprint has only its ends and its length, so that a report does not grow by the square of it.
ghost use Rattle.std.specs.Prelude.{◌≡◌, ◌+◌, ◌^◌, ◌<◌, ◌∷◌, ◌++◌, [], decimal, map, string_bytes, IfOk, OnOk};
ghost use Rattle.text_bytes.specs.Names.{colon};
ghost use Rattle.engine_formats.specs.Diagnostics.{shown};
ghost use Rattle.text_tables.specs.Pairs.{with_value};
ghost use Rattle.text_tables.specs.Tallies.{left_of};
ghost use Rattle.engine_formats.specs.Fingerprints.{fingerprinted, line_part, mark_of, shown_given};

use crate::diagnostic::Diagnostic;
use crate::marks::{following, prefix};
use crate::parts::push_part;
use itoa::Buffer;
use std::alloc::{AllocError, Global};
use text_tables::{Table, count_one};

/// At most how many bytes a line has that a fingerprint has whole.
const MOST_OF_LINE: usize = 200;

/// How many bytes it has of each end of a longer one.
const END_OF_LINE: usize = 100;

/// A diagnostic, and what distinguishes it from the others of its report.
#[derive(Drop)]
pub(crate) struct Fingerprinted<'d, 'a> {
    /// The diagnostic.
    pub(crate) diagnostic: &'d Diagnostic<'a>,
    /// Its fingerprint.
    pub(crate) fingerprint: String,
}

/// The diagnostics of a report with their fingerprints.
pub(crate) fn with_fingerprints<'d, 'a>(
    alloc: Global,
    diagnostics: &'d [Diagnostic<'a>],
) -> Result<Vec<Fingerprinted<'d, 'a>>, AllocError>
    ensures { IfOk result (λ given. map shown_given given.items ≡ fingerprinted (map shown diagnostics.now)) }
{
    let marks = marks_of(alloc, diagnostics)?;
    with_fingerprints_by(alloc, diagnostics, &marks)
}

/// The same by their marks.
fn with_fingerprints_by<'d, 'a>(
    alloc: Global,
    diagnostics: &'d [Diagnostic<'a>],
    marks: &[String],
) -> Result<Vec<Fingerprinted<'d, 'a>>, AllocError>
    requires { map string_bytes marks.now ≡ map mark_of (map shown diagnostics.now) }
    ensures { IfOk result (λ given. map shown_given given.items ≡ fingerprinted (map shown diagnostics.now)) }
{
    let mut tally = Table::new(alloc);
    let mut given = Vec::with_capacity(alloc, diagnostics.len())?;
    for (index, diagnostic) in diagnostics.iter().enumerate() {
        let mark = marks[index].as_str();
        push_fingerprinted(alloc, &mut given, &mut tally, diagnostic, mark)?;
    }
    Ok(given)
}

/// Adds a diagnostic and its fingerprint, and counts its mark.
fn push_fingerprinted<'d, 'a, 'm>(
    alloc: Global,
    given: &mut Vec<Fingerprinted<'d, 'a>>,
    tally: &mut Table<'m, usize>,
    diagnostic: &'d Diagnostic<'a>,
    mark: &'m str,
) -> Result<(), AllocError>
    requires { left_of tally.old mark.now + 1 < 2 ^ 64 }
    ensures counts { OnOk result (tally.new ≡ with_value tally.old mark.now (left_of tally.old mark.now + 1)) }
    ensures given { OnOk result (map shown_given given.new.items ≡ map shown_given given.old.items
        ++ record { diagnostic = shown diagnostic.now; fingerprint = decimal (left_of tally.old mark.now + 1) ++ colon ∷ mark.now } ∷ []) }
{
    let count = count_one(tally, mark.as_bytes())?;
    let fingerprint = fingerprint(alloc, count, mark)?;
    given.push(Fingerprinted {
        diagnostic,
        fingerprint,
    })?;
    Ok(())
}

/// A count and a mark: `COUNT:MARK`.
fn fingerprint(alloc: Global, count: usize, mark: &str) -> Result<String, AllocError>
    ensures { IfOk result (λ text. string_bytes text ≡ decimal count ++ colon ∷ mark.now) }
{
    format!(in alloc; "{count}:{mark}")
}

/// The marks of diagnostics: the code, the path and the text of the line.
fn marks_of(alloc: Global, diagnostics: &[Diagnostic<'_>]) -> Result<Vec<String>, AllocError>
    ensures { IfOk result (λ marks. map string_bytes marks.items ≡ map mark_of (map shown diagnostics.now)) }
{
    let mut marks = Vec::with_capacity(alloc, diagnostics.len())?;
    for diagnostic in diagnostics {
        marks.push(mark_of(alloc, diagnostic)?)?;
    }
    Ok(marks)
}

/// What a diagnostic is known by, wherever its line is in the file: `V6:PATH:LINE`.
fn mark_of(alloc: Global, diagnostic: &Diagnostic<'_>) -> Result<String, AllocError>
    ensures { IfOk result (λ mark. string_bytes mark ≡ mark_of (shown diagnostic.now)) }
{
    let mut text = Vec::from_slice(alloc, diagnostic.remark.code())?;
    push_part(&mut text, diagnostic.path)?;
    text.push(b':')?;
    push_line(&mut text, diagnostic.source)?;
    String::from_utf8_lossy(alloc, &text)
}

/// Appends the text of a line, or of a longer one its first bytes, its length and its last bytes: `FIRST:LENGTH:LAST`.
fn push_line(text: &mut Vec<u8>, source: &[u8]) -> Result<(), AllocError>
    ensures { OnOk result (text.new.items ≡ text.old.items ++ line_part source.now) }
{
    let len = source.len();
    if len <= MOST_OF_LINE {
        return text.extend_from_slice(source);
    }
    text.extend_from_slice(prefix(source, END_OF_LINE))?;
    push_part(text, Buffer::new().format(len).as_bytes())?;
    push_part(text, following(source, len - END_OF_LINE))
}
