//! Paths of files as references of RFC 3986.
ghost use Rattle.std.specs.Prelude.{◌≡◌, ◌++◌, IfOk, OnOk};
ghost use Rattle.engine_formats.specs.Uris.{is_kept, percent_byte, uri_byte, uri_of, uri_path};

use std::alloc::{AllocError, Global};
use text_bytes::begins_with;

/// The digits of a hexadecimal number.
const DIGITS: &[u8; 16] = b"0123456789ABCDEF";

/// A path as a reference: with `file://` before it if it begins at the root, and else relative. A byte that does not
/// stand for itself in a path is written by `%` and two hexadecimal digits.
pub(crate) fn uri_of(alloc: Global, path: &[u8]) -> Result<Vec<u8>, AllocError>
    ensures { IfOk result (λ uri. uri.items ≡ uri_of path.now) }
{
    let mut uri = Vec::new(alloc);
    if begins_with(b'/', path) {
        uri.extend_from_slice(b"file://")?;
    }
    push_uri_path(&mut uri, path)?;
    Ok(uri)
}

/// Appends a path, byte by byte.
fn push_uri_path(uri: &mut Vec<u8>, path: &[u8]) -> Result<(), AllocError>
    ensures { OnOk result (uri.new.items ≡ uri.old.items ++ uri_path path.now) }
{
    for byte in path {
        push_uri_byte(uri, *byte)?;
    }
    Ok(())
}

/// Appends a byte of a path.
fn push_uri_byte(uri: &mut Vec<u8>, byte: u8) -> Result<(), AllocError>
    ensures { OnOk result (uri.new.items ≡ uri.old.items ++ uri_byte byte) }
{
    if is_kept(byte) {
        Ok(uri.push(byte)?)
    } else {
        push_percent(uri, byte)
    }
}

/// Appends a byte by `%` and two hexadecimal digits.
pub(crate) fn push_percent(text: &mut Vec<u8>, byte: u8) -> Result<(), AllocError>
    ensures { OnOk result (text.new.items ≡ text.old.items ++ percent_byte byte) }
{
    text.extend_from_slice(&[
        b'%',
        DIGITS[usize::from(byte / 16)],
        DIGITS[usize::from(byte % 16)],
    ])
}

/// Whether a byte stands for itself in a path.
fn is_kept(byte: u8) -> bool
    ensures { result ≡ is_kept byte }
{
    match byte {
        b'A'..=b'Z' | b'a'..=b'z' | b'0'..=b'9' => true,
        b'-' | b'.' | b'_' | b'~' | b'/' => true,
        _ => false,
    }
}
