//! The names of kernel parameters, as udev takes them.
ghost use Rattle.std.specs.Prelude.{◌≡◌, ◌≤◌, not, length, IfOk, OnOk, OnErr};
ghost use Rattle.std.specs.List.{prefix_len};
ghost use Rattle.text_bytes.specs.Names.{dot};
ghost use Rattle.text_bytes.specs.Texts.{begins_with, skip_while};
ghost use Rattle.eval_assignments.specs.Parameters.{exchanged, is_separator, parameter_name, parameter_set, with_slashes};
ghost use Rattle.eval_assignments.specs.Written.{found_parameter};

use crate::links::{components, joined};
use eval_rendering::{MAX_PATH_BYTES, Rendered, render_text};
use eval_state::{NoteKind, Scene, State};
use rule_types::{Key, Rule};
use std::alloc::{AllocError, Global};
use text_bytes::{Bytes, begins_with};

/// Whether a byte separates the components of a parameter's name.
fn is_separator(byte: u8) -> bool
    ensures { result ≡ is_separator byte }
{
    byte == b'.' || byte == b'/'
}

/// A dot for a slash, and a slash for a dot.
fn exchanged(byte: u8) -> u8
    ensures { result ≡ exchanged byte }
{
    match byte {
        b'.' => b'/',
        b'/' => b'.',
        other => other,
    }
}

/// How many bytes come before the first separator.
fn first_len(name: &[u8]) -> usize
    ensures value { result ≡ prefix_len (λ b. not (is_separator b)) name.now }
    ensures within { result ≤ length name.now }
{
    name.iter().take_while(|byte| !is_separator(**byte)).count()
}

/// Whether the first separator of a parameter's name is a dot.
fn has_dots(name: &[u8]) -> bool
    ensures { result ≡ begins_with dot (skip_while (λ b. not (is_separator b)) name.now) }
{
    begins_with(b'.', name.split_at(first_len(name)).1)
}

/// The name of a parameter with slashes: if a dot is its first separator, dots and slashes are exchanged.
fn with_slashes(alloc: Global, name: &[u8]) -> Result<Vec<u8>, AllocError>
    ensures { IfOk result (λ made. made.items ≡ with_slashes name.now) }
{
    if has_dots(name) {
        name.iter().map(|byte| exchanged(*byte)).collect(alloc)
    } else {
        Vec::from_slice(alloc, name)
    }
}

/// The name of a parameter as udev reports it (systemd 257): its path below `/proc/sys`, without slashes that
/// repeat or are at an end, and without `.`.
fn parameter_name(alloc: Global, name: &[u8]) -> Result<Bytes, AllocError>
    ensures { IfOk result (λ made. made ≡ parameter_name name.now) }
{
    let path = with_slashes(alloc, name)?;
    let parts = components(alloc, &path)?;
    joined(alloc, &parts)
}

/// The parameter that a name leads to once it is rendered; none if it is too long.
pub(crate) fn found_parameter(
    alloc: Global,
    written: &[u8],
    state: &State<'_>,
) -> Result<Option<Bytes>, AllocError>
    ensures { IfOk result (λ found. found ≡ found_parameter written.now state.now) }
{
    match render_text(alloc, written, state)?.within(MAX_PATH_BYTES) {
        Rendered::Text(name) => Ok(Some(parameter_name(alloc, name.as_slice())?)),
        Rendered::TooLong => Ok(None),
    }
}

/// Assigns a value to a kernel parameter as udev does (systemd 257): its name is rendered and reported with
/// slashes. A name of over 1,023 bytes leaves a note.
pub(crate) fn set_parameter(
    alloc: Global,
    rule: &Rule,
    written: &[u8],
    value: Bytes,
    scene: &mut Scene<'_>,
) -> Result<(), AllocError>
    ensures scene { OnOk result (scene.new ≡ parameter_set rule.now written.now value scene.old) }
    ensures refused { OnErr result (scene.new.state.event ≡ scene.old.state.event) }
{
    match found_parameter(alloc, written, &scene.state)? {
        Some(path) => scene.sysctls.put(alloc, path.as_slice(), value),
        None => {
            scene.note_key(
                alloc,
                rule,
                NoteKind::TextTooLong,
                Key::Sysctl,
                Some(written),
            )
        }
    }
}
