//! What the name of a rules file says about other files: udev evaluates all of them in the order of their names.
ghost use Rattle.std.specs.Prelude.{◌≡◌, OnOk, map};
ghost use Rattle.text_tables.specs.Texts.{with_texts};
ghost use Rattle.rule_file_lints.specs.ByName.{comes_before, is_earlier, is_later, is_read, later_families, later_in, own_name};

use rule_lints::rest_after_last;
use std::alloc::{AllocError, Global};
use std::cmp::Ordering;
use text_tables::OwnedTexts;

/// Families of properties, each with the first file that imports some of it.
const FIRST_FILES: [(&[u8], &[u8]); 6] = [
    (b"ID_FS_*", b"11-dm-mpath.rules"),
    (b"ID_PART_*", b"11-dm-mpath.rules"),
    (b"ID_PATH*", b"50-udev-default.rules"),
    (b"ID_USB_*", b"50-udev-default.rules"),
    (b"ID_INPUT*", b"60-input-id.rules"),
    (b"ID_NET_NAME_*", b"75-net-description.rules"),
];

/// A file's name without its folders.
fn own_name(path: &[u8]) -> &[u8]
    ensures { result.now ≡ own_name path.now }
{
    rest_after_last(b'/', path)
}

/// Whether udev reads files of this name.
fn is_read(name: &[u8]) -> bool
    ensures { result ≡ is_read name.now }
{
    name.ends_with(b".rules")
}

/// Whether a name comes before another, byte by byte.
fn comes_before(name: &[u8], other: &[u8]) -> bool
    ensures { result ≡ comes_before name.now other.now }
{
    match name.cmp(other) {
        Ordering::Less => true,
        Ordering::Equal | Ordering::Greater => false,
    }
}

/// Whether udev evaluates a file before the one with a name.
fn is_earlier(path: &[u8], other: &[u8]) -> bool
    ensures { result ≡ is_earlier path.now other.now }
{
    let name = own_name(path);
    is_read(name) && comes_before(name, other)
}

/// Whether udev evaluates a file after the one with a name.
pub(crate) fn is_later(path: &[u8], other: &[u8]) -> bool
    ensures { result ≡ is_later path.now other.now }
{
    let name = own_name(path);
    is_read(name) && comes_before(other, name)
}

/// Adds the families that only files after this one import.
pub(crate) fn add_later_families(
    alloc: Global,
    names: &mut OwnedTexts,
    path: &[u8],
) -> Result<(), AllocError>
    ensures { OnOk result (names.new ≡ with_texts names.old (later_families path.now)) }
{
    add_later(alloc, names, &FIRST_FILES, path)
}

/// Adds those of these families of which a file is before the first file.
fn add_later(
    alloc: Global,
    names: &mut OwnedTexts,
    rows: &[(&[u8], &[u8])],
    path: &[u8],
) -> Result<(), AllocError>
    ensures { OnOk result (names.new ≡ with_texts names.old (later_in (map (λ row. (row.0.now, row.1.now)) rows.now) path.now)) }
{
    for row in rows {
        if is_earlier(path, row.1) {
            names.add(alloc, row.0)?;
        }
    }
    Ok(())
}
