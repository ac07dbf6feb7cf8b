//! What `--ignore` names.
ghost use Rattle.std.specs.Prelude.{◌≡◌, ◌++◌, IfOk, OnOk, filter, flat_map, map, option_map};
ghost use Rattle.std.specs.List.{list_any};
ghost use Rattle.file_catalogue.specs.Ignored.{class_codes, codes_named, cut_at_commas, first_unknown, ignored_codes, is_class, is_ignorable};
ghost use Rattle.file_catalogue.specs.Ignored.{is_of_class, unknown_ignored};

use crate::remark::{Row, lints, messages, remark_of};
use std::alloc::{AllocError, Global};

/// Whether a part of `--ignore` names the class of a code: its letter.
fn is_of_class(part: &str, code: &str) -> bool
    ensures { result ≡ is_of_class part.now code.now }
{
    part.len() == 1 && code.as_bytes().starts_with(part.as_bytes())
}

/// Whether a part names the class of a code of these rows.
fn is_class_among(rows: &[Row], part: &str) -> bool
    ensures { result ≡ list_any (λ row. is_of_class part.now row.1.now) rows.now }
{
    rows.iter().any(|row| is_of_class(part, row.1))
}

/// Whether a part names a class of codes.
fn is_class(part: &str) -> bool
    ensures { result ≡ is_class part.now }
{
    is_class_among(messages(), part) | is_class_among(lints(), part)
}

/// Adds the codes of these rows whose class a part names.
fn push_class_among(
    named: &mut Vec<&str>,
    part: &str,
    rows: &'static [Row],
) -> Result<(), AllocError>
    ensures { OnOk result (map (λ c. c.now) named.new.items
        ≡ map (λ c. c.now) named.old.items ++ filter (is_of_class part.now) (map (λ row. row.1.now) rows.now)) }
{
    for row in rows {
        if is_of_class(part, row.1) {
            named.push(row.1)?;
        }
    }
    Ok(())
}

/// Adds the codes of the class that a part names.
fn push_class(named: &mut Vec<&str>, part: &str) -> Result<(), AllocError>
    ensures { OnOk result (map (λ c. c.now) named.new.items ≡ map (λ c. c.now) named.old.items ++ class_codes part.now) }
{
    push_class_among(named, part, messages())?;
    push_class_among(named, part, lints())
}

/// Adds what a part of `--ignore` names: the codes of a class, and otherwise itself.
fn push_named<'a>(named: &mut Vec<&'a str>, part: &'a str) -> Result<(), AllocError>
    ensures { OnOk result (map (λ c. c.now) named.new.items ≡ map (λ c. c.now) named.old.items ++ codes_named part.entry.now) }
{
    if is_class(part) {
        push_class(named, part)
    } else {
        named.push(part)?;
        Ok(())
    }
}

/// What these parts name, in their order.
fn codes_named_by<'a>(alloc: Global, parts: &[&'a str]) -> Result<Vec<&'a str>, AllocError>
    ensures { IfOk result (λ named. map (λ c. c.now) named.items ≡ flat_map codes_named (map (λ p. p.now) parts.now)) }
{
    let mut named = Vec::new(alloc);
    for part in parts {
        push_named(&mut named, part)?;
    }
    Ok(named)
}

/// The parts of a text between its commas.
fn cut_at_commas(alloc: Global, text: &str) -> Result<Vec<&str>, AllocError>
    ensures { IfOk result (λ parts. map (λ p. p.now) parts.items ≡ cut_at_commas text.now) }
{
    text.split(',').collect(alloc)
}

/// The parts of texts between their commas, in their order.
fn cut_each_at_commas<'a>(alloc: Global, texts: &[&'a str]) -> Result<Vec<&'a str>, AllocError>
    ensures { IfOk result (λ parts. map (λ p. p.now) parts.items
        ≡ flat_map cut_at_commas (map (λ t. t.now) texts.now)) }
{
    let mut parts = Vec::new(alloc);
    for text in texts {
        parts.extend_from_slice(&cut_at_commas(alloc, text)?)?;
    }
    Ok(parts)
}

/// The codes that values of `--ignore` name, in their order: a part between two commas is a code, the letter of a class for
/// each code that begins with it, or the word `comments`, which names itself.
pub fn ignored_codes<'a>(alloc: Global, values: &[&'a str]) -> Result<Vec<&'a str>, AllocError>
    ensures { IfOk result (λ named. map (λ c. c.now) named.items ≡ ignored_codes (map (λ v. v.now) values.now)) }
{
    let parts = cut_each_at_commas(alloc, values)?;
    codes_named_by(alloc, &parts)
}

/// Whether a part of `--ignore` is the code of a remark, a class of codes, or the word `comments`.
fn is_ignorable(part: &str) -> bool
    ensures { result ≡ is_ignorable part.now }
{
    part == "comments" || remark_of(part.as_bytes()).is_some() || is_class(part)
}

/// The first part of a text between its commas that is none of these.
fn unknown_in(text: &str) -> Option<&str>
    ensures { option_map (λ p. p.now) result ≡ first_unknown (cut_at_commas text.now) }
{
    text.split(',').find(|part| !is_ignorable(part))
}

/// The first part of values of `--ignore`, between their commas, that is none of these, if there is one.
pub fn unknown_ignored<'a>(values: &[&'a str]) -> Option<&'a str>
    ensures { option_map (λ p. p.now) result ≡ unknown_ignored (map (λ v. v.now) values.now) }
{
    for value in values {
        if let Some(part) = unknown_in(value) {
            return Some(part);
        }
    }
    None
}
