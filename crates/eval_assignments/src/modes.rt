//! Modes of files as udev takes them.
ghost use Rattle.std.specs.Prelude.{◌≡◌, ◌<◌, ◌^◌, ◌+◌, IfOk, OnOk, OnErr};
ghost use Rattle.text_bytes.specs.Names.{digit_zero};
ghost use Rattle.eval_assignments.specs.Modes.{four_digits, mode_set};

use eval_state::{NoteKind, Scene};
use rule_types::{Key, Rule, mode_of};
use std::alloc::{AllocError, Global};
use text_bytes::Bytes;

/// The octal digit of a number below 8.
fn octal_digit(number: u32) -> u8
    requires { number < 8 }
    ensures { result ≡ digit_zero + number }
{
    b'0' + number as u8
}

/// A mode as four octal digits, the most significant first.
pub fn four_digits(alloc: Global, mode: u32) -> Result<Bytes, AllocError>
    requires { mode < 8 ^ 4 }
    ensures { IfOk result (λ digits. digits ≡ four_digits mode) }
{
    let digits = [
        octal_digit(mode / 512),
        octal_digit(mode / 64 % 8),
        octal_digit(mode / 8 % 8),
        octal_digit(mode % 8),
    ];
    Bytes::copy_of(alloc, &digits)
}

/// Sets the mode of the device's node as udev does (systemd 257): as octal digits, reported as four of them. A text
/// that is not a mode leaves a note, and the mode before stays.
pub(crate) fn set_mode(
    alloc: Global,
    rule: &Rule,
    text: &[u8],
    scene: &mut Scene<'_>,
) -> Result<(), AllocError>
    ensures scene { OnOk result (scene.new ≡ mode_set rule.now text.now scene.old) }
    ensures refused { OnErr result (scene.new.state.event ≡ scene.old.state.event) }
{
    if text.is_empty() {
        return scene.note_key(alloc, rule, NoteKind::NoValue, Key::Mode, None);
    }
    match mode_of(text) {
        Some(mode) => {
            scene.mode = Some(four_digits(alloc, mode)?);
            Ok(())
        }
        None => scene.note(alloc, rule, NoteKind::ModeIgnored, text),
    }
}
