//! What a diagnostic is about, and what the catalogue has on it.
ghost use Rattle.std.specs.Prelude.{◌≡◌, ◌++◌, IfOk, OnOk, codes, find, map, nat_eq, option_map, string_bytes};
ghost use Rattle.std.specs.Cmp.Lexicographic.{pointwise};
ghost use Rattle.std.specs.List.{join_by};
ghost use Rattle.file_catalogue.specs.Catalogue.{advice_of, all_codes, catalogue, code_of, is_same, known_codes, lints, messages};
ghost use Rattle.file_catalogue.specs.Catalogue.{remark_heading, remark_of, remarks, row_of, row_on, severity_of, severity_word, text_of};

use crate::lint_rows::LINTS;
use crate::message_rows::MESSAGES;
use file_messages::MessageKind;
use hwdb_core::DatabaseLint;
use link_files::LinkFault;
use rule_lints::Lint;
use std::alloc::{AllocError, Global};
use text_bytes::begins_with;

/// What a diagnostic is about.
#[derive(Clone, Copy, PartialEq, Eq)]
pub enum Remark {
    /// A message about a file.
    Message(MessageKind),
    /// W1 to W27: a rule is most likely not the one that was meant.
    Lint(Lint),
    /// D1 to D13: a line of a database is most likely not the one that was meant.
    DatabaseLint(DatabaseLint),
    /// L1 to L5: a line of a `.link` file, or the file, is not as systemd.link(5) has it.
    LinkFault(LinkFault),
    /// I1: a comment ignores messages with a code, and there are none.
    IdleIgnore,
    /// I2: a comment names an unknown code, or is not understood.
    UnknownCode,
}

/// How severe a remark is.
#[derive(Clone, Copy, PartialEq, Eq)]
pub enum Severity {
    /// A part of the file is not read as it was meant.
    Error,
    /// The file is read as it is, and could be written better.
    Warning,
}

/// What is known of a code: the remark, the code, what it says, and how to fix the file, in one sentence.
pub type Row = (Remark, &'static str, &'static str, &'static str);

/// The row of each code of a message: V, S and H.
#[tactic(auto, unfolding(crate::specs::Catalogue::messages))]
pub(crate) fn messages() -> &'static [Row]
    ensures { map row_of result.now ≡ messages }
{
    &MESSAGES
}

/// The row of each other code: W, D, L and I.
#[tactic(auto, unfolding(crate::specs::Catalogue::lints))]
pub(crate) fn lints() -> &'static [Row]
    ensures { map row_of result.now ≡ lints }
{
    &LINTS
}

/// The row on a remark among these, if there is one.
fn row_among(rows: &'static [Row], remark: Remark) -> Option<Row>
    ensures { result ≡ find (λ row. is_same row.0 remark) rows.now }
{
    rows.iter().copied().find(|row| row.0 == remark)
}

/// The row with a code among these, if there is one.
fn row_with(rows: &'static [Row], code: &[u8]) -> Option<Row>
    ensures { result ≡ find (λ row. pointwise nat_eq row.1.now code.now) rows.now }
{
    rows.iter().copied().find(|row| row.1.as_bytes() == code)
}

/// The row with a code, if there is one.
fn row_of_code(code: &[u8]) -> Option<Row>
    ensures { option_map row_of result ≡ find (λ row. pointwise nat_eq row.code code.now) catalogue }
{
    match row_with(messages(), code) {
        Some(row) => Some(row),
        None => row_with(lints(), code),
    }
}

/// The remark with a code, if there is one; case counts.
#[tactic(auto, unfolding(crate::specs::Catalogue::remark_of))]
pub fn remark_of(code: &[u8]) -> Option<Remark>
    ensures { result ≡ remark_of code.now }
{
    match row_of_code(code) {
        Some(row) => Some(row.0),
        None => None,
    }
}

/// Adds the remark of each of these rows.
fn push_remarks(all: &mut Vec<Remark>, rows: &[Row]) -> Result<(), AllocError>
    ensures { OnOk result (all.new.items ≡ all.old.items ++ map (λ row. row.0) rows.now) }
{
    for row in rows {
        all.push(row.0)?;
    }
    Ok(())
}

/// Each remark, in the order of the rows.
pub fn remarks(alloc: Global) -> Result<Vec<Remark>, AllocError>
    ensures { IfOk result (λ all. all.items ≡ remarks) }
{
    let mut all = Vec::new(alloc);
    push_remarks(&mut all, messages())?;
    push_remarks(&mut all, lints())?;
    Ok(all)
}

/// Adds the code of each of these rows.
fn push_codes<'a>(all: &mut Vec<&'a str>, rows: &'a [Row]) -> Result<(), AllocError>
    ensures { OnOk result (map (λ code. code.now) all.new.items
        ≡ map (λ code. code.now) all.old.items ++ map (λ row. row.1.now) rows.now) }
{
    for row in rows {
        all.push(row.1)?;
    }
    Ok(())
}

/// The codes, in the order of the rows.
fn all_codes(alloc: Global) -> Result<Vec<&'static str>, AllocError>
    ensures { IfOk result (λ all. map (λ code. code.now) all.items ≡ all_codes) }
{
    let mut all = Vec::new(alloc);
    push_codes(&mut all, messages())?;
    push_codes(&mut all, lints())?;
    Ok(all)
}

/// The codes in one line.
pub fn known_codes(alloc: Global) -> Result<String, AllocError>
    ensures { IfOk result (λ text. string_bytes text ≡ known_codes) }
{
    let codes = all_codes(alloc)?;
    codes.join(alloc, ", ")
}

impl Remark {
    /// The row on a remark.
    fn row(self) -> Option<Row>
        ensures { option_map row_of result ≡ row_on self }
    {
        match row_among(messages(), self) {
            Some(row) => Some(row),
            None => row_among(lints(), self),
        }
    }

    /// The code of a remark: `V6`.
    pub fn code(self) -> &'static [u8]
        ensures { result.now ≡ code_of self }
    {
        match self.row() {
            Some(row) => row.1.as_bytes(),
            None => b"",
        }
    }

    /// What a remark says, without its code: `bad substitution`.
    pub fn text(self) -> &'static [u8]
        ensures { result.now ≡ text_of self }
    {
        match self.row() {
            Some(row) => row.2.as_bytes(),
            None => b"",
        }
    }

    /// How to fix what a remark is about, in one sentence.
    pub fn advice(self) -> &'static [u8]
        ensures { result.now ≡ advice_of self }
    {
        match self.row() {
            Some(row) => row.3.as_bytes(),
            None => b"",
        }
    }

    /// Appends the code of a remark, and what it says: `V6 bad substitution`.
    pub fn push_heading(self, text: &mut Vec<u8>) -> Result<(), AllocError>
        ensures { OnOk result (text.new.items ≡ text.old.items ++ remark_heading self) }
    {
        let (code, said) = match self.row() {
            Some(row) => (row.1, row.2),
            None => ("", ""),
        };
        text.extend_from_slice(code.as_bytes())?;
        text.push(b' ')?;
        text.extend_from_slice(said.as_bytes())
    }

    /// How severe a remark is, which the letter of its code says: V, H and L are errors, S, I, W
    /// and D warnings.
    pub fn severity(self) -> Severity
        ensures { result ≡ severity_of self }
    {
        let code = self.code();
        if begins_with(b'S', code)
            || begins_with(b'I', code)
            || begins_with(b'W', code)
            || begins_with(b'D', code)
        {
            Severity::Warning
        } else {
            Severity::Error
        }
    }
}

impl Severity {
    /// The word for it, as compilers write it.
    pub fn word(self) -> &'static str
        ensures { result.now ≡ severity_word self }
    {
        match self {
            Severity::Error => "error",
            Severity::Warning => "warning",
        }
    }
}
