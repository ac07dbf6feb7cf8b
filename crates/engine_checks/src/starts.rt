//! The lines that a comment on the next rule can be about.
ghost use Rattle.std.specs.Prelude.{◌≡◌, ◌≤◌, ◌++◌, nat_le, length, map, option_to_list, IfOk};
ghost use Rattle.std.specs.List.{prefix_len};
ghost use Rattle.text_bytes.specs.Texts.{skip_while};
ghost use Rattle.text_bytes.specs.declared.profile.Profile.{Profile};
ghost use Rattle.rule_core.specs.Lines.{joined_lines};
ghost use Rattle.engine_checks.specs.Ignores.{starts_of};

use rule_core::{JoinedLine, JoinedLines, joined_lines};
use std::alloc::{AllocError, Global};
use text_bytes::{FileKind, Lines, Profile, begins_with, capped};

/// The lines of a file that a comment on the next rule can be about: those whose numbers rules have, also the one
/// that is still open at the end of the file, and in a database those that are not comments.
pub(crate) fn starts_of(
    alloc: Global,
    profile: Profile,
    kind: FileKind,
    bytes: &[u8],
) -> Result<Vec<u32>, AllocError>
    ensures { IfOk result (λ starts. starts.items ≡ starts_of profile kind bytes.now) }
{
    match kind {
        FileKind::Rules => {
            let joined = joined_lines(alloc, profile, bytes)?;
            joined_starts(alloc, &joined)
        }
        FileKind::Hwdb => plain_starts(alloc, bytes),
    }
}

/// The same for a file whose joined lines these are.
pub(crate) fn starts_beside(
    alloc: Global,
    kind: FileKind,
    bytes: &[u8],
    joined: &JoinedLines<'_>,
) -> Result<Vec<u32>, AllocError>
    ensures { IfOk result (λ starts. (profile : Profile) → joined.now ≡ joined_lines profile bytes.now → starts.items ≡ starts_of profile kind bytes.now) }
{
    match kind {
        FileKind::Rules => joined_starts(alloc, joined),
        FileKind::Hwdb => plain_starts(alloc, bytes),
    }
}

/// The lines whose numbers rules have.
fn joined_starts(alloc: Global, joined: &JoinedLines<'_>) -> Result<Vec<u32>, AllocError>
    ensures { IfOk result (λ starts. starts.items ≡ map (λ l. l.number) joined.now.lines ++ option_to_list joined.now.open_at) }
{
    let mut starts = numbers_of(alloc, joined.lines())?;
    if let Some(open) = joined.open_at() {
        starts.push(open)?;
    }
    Ok(starts)
}

/// The numbers of joined lines.
fn numbers_of(alloc: Global, lines: &[JoinedLine<'_>]) -> Result<Vec<u32>, AllocError>
    ensures { IfOk result (λ numbers. numbers.items ≡ map (λ l. l.number) lines.now) }
{
    let mut numbers = Vec::with_capacity(alloc, lines.len())?;
    for line in lines {
        numbers.push(line.number())?;
    }
    Ok(numbers)
}

/// The lines of a database that are not comments.
fn plain_starts(alloc: Global, bytes: &[u8]) -> Result<Vec<u32>, AllocError>
    ensures { IfOk result (λ starts. starts.items ≡ starts_of Profile.Manual FileKind.Hwdb bytes.now) }
{
    let mut starts = Vec::new(alloc);
    for line in Lines::new(bytes) {
        if !begins_with(b'#', line.text()) {
            starts.push(capped(line.number()))?;
        }
    }
    Ok(starts)
}

/// What is left of starts after a line.
pub(crate) fn after_line(starts: &[u32], line: u32) -> &[u32]
    ensures { result.now ≡ skip_while (λ s. nat_le s line) starts.now }
{
    let (_, following) = starts.split_at(count_up_to(starts, line));
    following
}

/// How many starts at the front are not after a line.
fn count_up_to(starts: &[u32], line: u32) -> usize
    ensures value { result ≡ prefix_len (λ s. nat_le s line) starts.now }
    ensures within { result ≤ length starts.now }
{
    starts.iter().take_while(|start| **start <= line).count()
}
