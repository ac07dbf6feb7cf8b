//! What a note about a block says.
ghost use Rattle.std.specs.Prelude.{◌≡◌};
ghost use Rattle.device_core.specs.Notes.{text_of};

/// What is noted of a block, and what the word of its note then is.
#[derive(Clone, Copy, PartialEq, Eq)]
pub enum BlockNoteKind {
    /// The action is none that udev has; the word is the action.
    UnknownAction,
    /// The path of the event device is written with `/sys` at its start; the word is the path.
    PathBeginsWithSys,
    /// The action is `add`, and the event device has the property that udev stores once it has handled a device; the word
    /// is the name of the property.
    StoredByUdev,
    /// A property stands at the end of the block, behind commands, where it is one of the farthest parent; the word is the
    /// name of the property.
    BehindCommands,
    /// The event device has no subsystem, and so no event but a removal: no rule is tried; the word is its path.
    NoSubsystem,
    /// The event is the removal of its device, and the block has attributes of it, of which udev finds none any more; the word is
    /// the path of the device.
    GoneAttributes,
    /// The lines of the block end in a carriage return, which belongs to their values; the word is the path of the event device.
    ReturnAtEnds,
}

impl BlockNoteKind {
    /// The text of a note, which never changes.
    pub fn text(self) -> &'static [u8]
        ensures { result.now ≡ text_of self }
    {
        match self {
            BlockNoteKind::UnknownAction => b"unknown action",
            BlockNoteKind::PathBeginsWithSys => b"path begins with /sys",
            BlockNoteKind::StoredByUdev => b"stored by udev",
            BlockNoteKind::BehindCommands => b"misplaced property",
            BlockNoteKind::NoSubsystem => b"no subsystem, so no rule is tried",
            BlockNoteKind::GoneAttributes => b"attributes of a removed device",
            BlockNoteKind::ReturnAtEnds => b"carriage return at line ends",
        }
    }
}
