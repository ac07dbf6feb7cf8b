//! The codes that comments in a file ask to ignore.
//!
//! `# devdry: ignore V6,S2` is about the next rule, `# devdry: ignore-file S1` about the whole file. Such a comment
//! is a line of its own; in rules blanks may come before it. Codes are cut at commas, and blanks around a code are
//! not part of it. A reason may stand behind them, as in `ignore S2 -- as upstream has it`. A comment that begins with
//! `# devdry:` and goes on in another way is also kept, so that it can be reported.
ghost use Rattle.std.specs.Prelude.{◌≡◌, ◌++◌, ◌+◌, ◌-◌, ◌≤◌, ◌<◌, ◌^◌, ◌==◌, length, IfOk, IfSome, OnOk};
ghost use Rattle.std.specs.List.{slice_split};
ghost use Rattle.text_bytes.specs.Lines.{numbered_lines};
ghost use Rattle.text_bytes.specs.Names.{comma};
ghost use Rattle.engine_checks.specs.Ignores.{asked_by, before_reason, comment_of, is_reason, reason_place, ignore_at, ignores_among, ignores_at};
ghost use Rattle.engine_checks.specs.Ignores.{ignores_of_line, texts_of};
ghost use Rattle.engine_checks.specs.Files.{ignores_counted};
ghost use Rattle.rule_core.specs.Lines.{joined_lines};

use crate::asked::has_comments;
use crate::reported::Asked;
use crate::starts::{after_line, starts_beside, starts_of};
use rule_core::JoinedLines;
use std::alloc::{AllocError, Global};
use std::marker::Model;
use text_bytes::{
    FileKind, Line, Lines, SourceFile, capped, following, split_once, trimmed, unindented,
};

/// What begins the reason of a comment.
const REASON: &[u8] = b" -- ";

/// What a code in a comment is about.
#[derive(Clone, Copy, PartialEq, Eq)]
pub(crate) enum Scope {
    /// The whole file.
    File,
    /// The next rule, by the line in which it begins; none if no rule follows. In a database it is the next line
    /// that is not a comment.
    Next(Option<u32>),
    /// Nothing: the comment is not understood.
    Unread,
}

/// A code in a comment.
#[derive(Drop)]
pub(crate) struct Ignore<'a> {
    /// The number of the comment's line, counted from 1; at most 2^32 - 1.
    pub line: u32,
    /// The byte of the line at which the code begins, counted from 1, up to the same number.
    pub column: u32,
    /// The byte after the code's last one.
    pub end: u32,
    /// What it is about.
    pub scope: Scope,
    /// The code, without the blanks around it, or what follows `# devdry:` if that is not understood.
    pub code: &'a [u8],
}

impl<'a> Model for Ignore<'a> {
    ghost use Rattle.engine_checks.specs.Ignores as ignores;

    ghost Value = { ignores.Ignore };

    ghost view = { λ i. record { line = i.line; column = i.column; end = i.end; scope = i.scope; code = i.code.now } };
}

impl<'a> Ignore<'a> {
    /// The code in a text of a line, by the column at which the text begins.
    fn at(line: u32, scope: Scope, column: usize, text: &'a [u8]) -> Ignore<'a>
        requires { column + length text.now < 2 ^ 64 }
        ensures { result ≡ ignore_at line scope column text.now }
    {
        let unindented = unindented(text);
        let code = trimmed(unindented);
        let begins = column + (text.len() - unindented.len());
        Ignore {
            line,
            column: capped(begins),
            end: capped(begins + code.len()),
            scope,
            code,
        }
    }
}

/// A line as it is looked at for a comment: in rules without the blanks at its start.
fn comment_of(kind: FileKind, text: &[u8]) -> &[u8]
    ensures value { result.now ≡ comment_of kind text.now }
    ensures within { length result.now ≤ length text.now }
{
    match kind {
        FileKind::Rules => unindented(text),
        FileKind::Hwdb => text,
    }
}

/// What a comment is about and its codes, by what follows `# devdry:`.
fn asked_by(next: Option<u32>, text: &[u8]) -> (Scope, &[u8])
    ensures asked { (result.0, result.1.now) ≡ asked_by next text.now }
    ensures within { length result.1.now ≤ length text.now }
{
    if let Some(list) = following(b" ignore ", text) {
        return (Scope::Next(next), list);
    }
    match following(b" ignore-file ", text) {
        Some(list) => (Scope::File, list),
        None => (Scope::Unread, unindented(text)),
    }
}

/// Whether a reason begins at a place of a list of codes.
fn is_reason(list: &[u8], place: usize) -> bool
    ensures { result ≡ is_reason list.now place }
{
    list.get(place..).unwrap_or(b"").starts_with(REASON)
}

/// The first place of a list of codes at which a reason begins.
#[tactic(auto, unfolding(crate::specs::Ignores::reason_place))]
fn reason_place(list: &[u8]) -> Option<usize>
    ensures value { result ≡ reason_place list.now }
    ensures within { IfSome result (λ place. place < length list.now) }
{
    (0..list.len()).position(|place| is_reason(list, place))
}

/// What stands before a reason in a list of codes, which begins at two dashes between two spaces.
fn before_reason(list: &[u8]) -> &[u8]
    ensures value { result.now ≡ before_reason list.now }
    ensures within { length result.now ≤ length list.now }
{
    match reason_place(list) {
        Some(place) => &list[..place],
        None => list,
    }
}

/// Adds the codes of a list, which ends before a column.
fn push_list<'a>(
    ignores: &mut Vec<Ignore<'a>>,
    line: u32,
    scope: Scope,
    end: usize,
    list: &'a [u8],
) -> Result<(), AllocError>
    requires { length list.now ≤ end }
    ensures { OnOk result (ignores.new.items ≡ ignores.old.items ++ ignores_at line scope (end - length list.now) (slice_split (λ b. b == comma) list.now)) }
{
    let mut rest = list;
    while let Some((code, following)) = split_once(b',', rest) {
        ignores.push(Ignore::at(line, scope, end - rest.len(), code))?;
        rest = following;
    }
    ignores.push(Ignore::at(line, scope, end - rest.len(), rest))?;
    Ok(())
}

/// Adds the codes of a list and leaves out the reason behind them, which ends before a column.
fn push_codes<'a>(
    ignores: &mut Vec<Ignore<'a>>,
    line: u32,
    scope: Scope,
    end: usize,
    text: &'a [u8],
) -> Result<(), AllocError>
    requires { length text.now ≤ end }
    ensures { OnOk result (ignores.new.items ≡ ignores.old.items
        ++ ignores_at line scope (end - length text.now) (slice_split (λ b. b == comma) (before_reason text.now))) }
{
    let list = before_reason(text);
    push_list(ignores, line, scope, end - (text.len() - list.len()), list)
}

/// Adds what a comment asks for, which ends before a column.
fn push_asked<'a>(
    ignores: &mut Vec<Ignore<'a>>,
    line: u32,
    scope: Scope,
    end: usize,
    text: &'a [u8],
) -> Result<(), AllocError>
    requires { length text.now ≤ end }
    ensures { OnOk result (ignores.new.items ≡ ignores.old.items ++ ignores_at line scope (end - length text.now) (texts_of scope text.now)) }
{
    match scope {
        Scope::Unread => {
            ignores.push(Ignore::at(line, scope, end - text.len(), text))?;
            Ok(())
        }
        _ => push_codes(ignores, line, scope, end, text),
    }
}

/// Adds the codes in a line.
fn push_line<'a>(
    ignores: &mut Vec<Ignore<'a>>,
    kind: FileKind,
    next: Option<u32>,
    line: &Line<'a>,
) -> Result<(), AllocError>
    ensures { OnOk result (ignores.new.items ≡ ignores.old.items ++ ignores_of_line kind next line.now) }
{
    match following(b"# devdry:", comment_of(kind, line.text())) {
        None => Ok(()),
        Some(text) => {
            let (scope, list) = asked_by(next, text);
            let end = line.text().len() + 1;
            push_asked(ignores, capped(line.number()), scope, end, list)
        }
    }
}

/// The codes in the lines of a file, where each comment on the next rule is about the first of these starts after
/// it.
fn ignores_among<'a>(
    alloc: Global,
    kind: FileKind,
    starts: &[u32],
    bytes: &'a [u8],
) -> Result<Vec<Ignore<'a>>, AllocError>
    ensures { IfOk result (λ ignores. ignores.items ≡ ignores_among kind starts.now (numbered_lines bytes.now)) }
{
    let mut ignores = Vec::new(alloc);
    let mut rest = starts;
    for line in Lines::new(bytes) {
        rest = after_line(rest, capped(line.number()));
        push_line(&mut ignores, kind, rest.first().copied(), &line)?;
    }
    Ok(ignores)
}

/// The codes that comments in a file ask to ignore, in the order of their places, if comments count.
#[tactic(auto, unfolding(crate::specs::Ignores::ignores_in))]
pub(crate) fn ignores_counted<'a>(
    alloc: Global,
    asked: &Asked<'_>,
    file: &'a SourceFile,
) -> Result<Vec<Ignore<'a>>, AllocError>
    ensures { IfOk result (λ ignores. ignores.items ≡ ignores_counted asked.now file.now) }
{
    if has_comments(&asked.ignored) {
        let bytes = file.bytes.as_slice();
        let starts = starts_of(alloc, asked.profile, file.kind, bytes)?;
        ignores_among(alloc, file.kind, &starts, bytes)
    } else {
        Ok(Vec::new(alloc))
    }
}

/// The same for a file whose joined lines these are.
#[tactic(auto, unfolding(crate::specs::Ignores::ignores_in))]
pub(crate) fn ignores_beside<'a>(
    alloc: Global,
    asked: &Asked<'_>,
    file: &'a SourceFile,
    joined: &JoinedLines<'_>,
) -> Result<Vec<Ignore<'a>>, AllocError>
    requires { joined.now ≡ joined_lines asked.now.profile file.now.bytes }
    ensures { IfOk result (λ ignores. ignores.items ≡ ignores_counted asked.now file.now) }
{
    if has_comments(&asked.ignored) {
        let bytes = file.bytes.as_slice();
        let starts = starts_beside(alloc, file.kind, bytes, joined)?;
        ignores_among(alloc, file.kind, &starts, bytes)
    } else {
        Ok(Vec::new(alloc))
    }
}
