//! What a match looks at, if its texts are known.
ghost use Rattle.std.specs.Prelude.{◌≡◌};
ghost use Rattle.rule_lints.specs.Kernel.{subject_named, subject_of};

use crate::tables::{FOUR_DIGIT_NAMES, TWO_DIGIT_NAMES};
use rule_types::{Part, PlainKey, UpKey};
use text_tables::is_among;

/// What a match looks at, if its texts are known.
#[derive(Clone, Copy, PartialEq, Eq)]
pub(crate) enum Subject {
    /// What happened to the device.
    Action,
    /// The kernel's name of a device.
    Kernel,
    /// The path of the device.
    Devpath,
    /// The subsystem of a device.
    Subsystem,
    /// An attribute of four hexadecimal digits.
    FourDigits,
    /// An attribute of two hexadecimal digits.
    TwoDigits,
    /// The attribute `removable`.
    Removable,
    /// The architecture of the machine.
    Architecture,
}

/// What a part looks at, if its texts are known.
pub(crate) fn subject_of(part: &Part) -> Option<Subject>
    ensures { result ≡ subject_of part.now }
{
    match part {
        Part::Plain(asked) => match &asked.key {
            PlainKey::Action => Some(Subject::Action),
            PlainKey::Kernel => Some(Subject::Kernel),
            PlainKey::Devpath => Some(Subject::Devpath),
            PlainKey::Subsystem => Some(Subject::Subsystem),
            PlainKey::Attr(name) => subject_named(name.as_slice()),
            PlainKey::Const(name) if name.as_slice() == b"arch".as_slice() => {
                Some(Subject::Architecture)
            }
            _ => None,
        },
        Part::Up(asked) => match &asked.key {
            UpKey::Kernels => Some(Subject::Kernel),
            UpKey::Subsystems => Some(Subject::Subsystem),
            UpKey::Attrs(name) => subject_named(name.as_slice()),
            _ => None,
        },
        _ => None,
    }
}

/// What an attribute is, if its texts are known.
fn subject_named(name: &[u8]) -> Option<Subject>
    ensures { result ≡ subject_named name.now }
{
    if is_among(&FOUR_DIGIT_NAMES, name) {
        Some(Subject::FourDigits)
    } else if is_among(&TWO_DIGIT_NAMES, name) {
        Some(Subject::TwoDigits)
    } else if name == b"removable".as_slice() {
        Some(Subject::Removable)
    } else {
        None
    }
}
