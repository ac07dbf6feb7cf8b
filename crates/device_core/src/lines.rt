//! One line by itself: its letter, and what follows it.
ghost use Rattle.std.specs.Prelude.{◌≡◌, ◌∷◌, [], ◌<◌, false, length, option_map, nat_eq};
ghost use Rattle.std.specs.List.{starts_with};
ghost use Rattle.device_core.specs.Lines.{form, kind_of, row_of};
ghost use Rattle.device_core.specs.Faults.{has_nul};
ghost use Rattle.device_core.specs.Steps.{Gives, plain_row};

use crate::faults::BlockFaultKind;
use text_bytes::find;

/// What a line about the device above gives, each with its letter.
#[derive(Clone, Copy)]
pub enum DeviceField {
    /// `U`: its subsystem.
    Subsystem,
    /// `V`: its driver.
    Driver,
    /// `N`: the name of its node.
    Node,
    /// `D`: the numbers of its node.
    Devnum,
    /// `A`: an attribute.
    Attribute,
    /// `E`: a property.
    Property,
    /// `B`: a property that udev had stored before the event.
    Stored,
    /// `G`: a tag.
    Tag,
    /// `S`: a link.
    Link,
}

/// What a line of an event block is about, each with its letter.
#[derive(Clone, Copy)]
pub enum LineKind {
    /// `C`: the action.
    Action,
    /// `P`: a device, with its path.
    Device,
    /// The device above.
    Field(DeviceField),
    /// `K`: a constant.
    Constant,
    /// `Q`: a command.
    Command,
    /// `R`: the answer to the command above.
    Answer,
    /// `O`: one more line of what the program of the answer above wrote.
    Output,
}

/// The letter and the rest of a line that has the form.
#[tactic(auto, unfolding(crate::specs::Lines::form))]
fn form(line: &[u8]) -> Option<(u8, &[u8])>
    ensures { option_map (λ p. (p.0, p.1.now)) result ≡ form line.now }
{
    match line {
        [letter, b':', b' ', rest @ ..] => Some((*letter, rest)),
        _ => None,
    }
}

/// The kind of line that begins with a letter.
#[tactic(auto, unfolding(crate::specs::Lines::kind_of))]
fn kind_of(letter: u8) -> Option<LineKind>
    ensures { result ≡ kind_of letter }
{
    match letter {
        b'C' => Some(LineKind::Action),
        b'P' => Some(LineKind::Device),
        b'U' => Some(LineKind::Field(DeviceField::Subsystem)),
        b'V' => Some(LineKind::Field(DeviceField::Driver)),
        b'N' => Some(LineKind::Field(DeviceField::Node)),
        b'D' => Some(LineKind::Field(DeviceField::Devnum)),
        b'A' => Some(LineKind::Field(DeviceField::Attribute)),
        b'E' => Some(LineKind::Field(DeviceField::Property)),
        b'B' => Some(LineKind::Field(DeviceField::Stored)),
        b'G' => Some(LineKind::Field(DeviceField::Tag)),
        b'S' => Some(LineKind::Field(DeviceField::Link)),
        b'K' => Some(LineKind::Constant),
        b'Q' => Some(LineKind::Command),
        b'R' => Some(LineKind::Answer),
        b'O' => Some(LineKind::Output),
        _ => None,
    }
}

/// A line by its kind, and its rest.
#[tactic(auto, unfolding(crate::specs::Lines::row_of))]
fn row_of(line: &[u8]) -> Option<(LineKind, &[u8])>
    ensures { option_map (λ r. (r.0, r.1.now)) result ≡ row_of line.now }
{
    let (letter, rest) = form(line)?;
    let kind = kind_of(letter)?;
    Some((kind, rest))
}

/// Whether a line has a NUL byte.
#[tactic(auto, unfolding(crate::specs::Faults::has_nul))]
pub(crate) fn has_nul(line: &[u8]) -> bool
    ensures { result ≡ has_nul line.now }
{
    find(b'\0', line).is_some()
}

/// A line by its kind, and its rest, unless it has a NUL byte or is of no kind. `may_have_nul` is false if it is known
/// that the line has none.
#[tactic(auto, unfolding(crate::specs::Steps::plain_row))]
pub(crate) fn plain_row(
    line: &[u8],
    may_have_nul: bool,
) -> Result<(LineKind, &[u8]), BlockFaultKind>
    requires { may_have_nul ≡ false → has_nul line.now ≡ false }
    ensures { Gives (λ r. (r.0, r.1.now)) result (plain_row line.now) }
{
    if may_have_nul && has_nul(line) {
        return Err(BlockFaultKind::Nul);
    }
    match row_of(line) {
        Some(row) => Ok(row),
        None => Err(BlockFaultKind::Letter),
    }
}
