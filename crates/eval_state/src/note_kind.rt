//! What a note says.
ghost use Rattle.std.specs.Prelude.{◌≡◌};
ghost use Rattle.eval_state.specs.Notes.{text_of};

/// What a rule asked for that was not done, and what the word of its note then is.
#[derive(Clone, Copy, PartialEq, Eq)]
pub enum NoteKind {
    /// IMPORT of a type that is never run; the word is the type.
    ImportNotRun,
    /// IMPORT of a builtin that is not run, or is unknown; the word is the command's first one, for udev the name
    /// of the builtin.
    BuiltinNotRun,
    /// The words after `hwdb` are not what it takes; the word is the command.
    BadHwdbArguments,
    /// The block does not say what a PROGRAM answers; the word is the command.
    NoAnswer,
    /// TEST of an absolute path or with a mask; the word is the path.
    TestNotMade,
    /// A match of SYSCTL; the word is the parameter's name.
    SysctlNotRead,
    /// A text of more than 16,384 bytes; the word is the key, with its attribute in braces.
    TextTooLong,
    /// NAME of a device that is not a network device; the word is the name.
    NameIgnored,
    /// For udev alone: a link, an owner, a group, a mode or a label of a device without a number; the word is the
    /// key, with its attribute in braces.
    NoDeviceNumber,
    /// For udev alone: an owner, a group, a mode, a tag or a command without a byte that counts; the word is the
    /// key, with its attribute in braces.
    NoValue,
    /// For udev alone: a link that would not be below `/dev`; the word is the link as it was given.
    LinkIgnored,
    /// For udev alone: a mode that is not an octal number of at most 7777; the word is the text.
    ModeIgnored,
    /// For udev alone: a tag with other bytes than letters, digits, `-` and `_`, or with over 255; the word is the
    /// tag.
    TagIgnored,
    /// For udev alone: a match of an attribute of a named device that the block does not have; the word is
    /// the attribute's name with the device.
    AttributeNotRead,
    /// For udev alone: an assignment to an attribute whose name has a `*/` that fits no name of the block; the word
    /// is the attribute's name.
    AttributeNotFound,
    /// For udev alone: a builtin asked for what the kernel reports about each such device, and the block does not
    /// have it; the word is the builtin's name, a colon, a space and all that it asked for, with commas between.
    BuiltinNeeds,
    /// For udev alone: a match of a constant that the block does not give; the word is the constant's name.
    ConstantNotGiven,
    /// For udev alone: the block gives no attribute of any device, and a rule has a match of one; the word is the attribute's name.
    AttributesNotGiven,
}

impl NoteKind {
    /// The text of a note, which never changes.
    pub fn text(self) -> &'static [u8]
        ensures { result.now ≡ text_of self }
    {
        match self {
            NoteKind::ImportNotRun => b"import not run",
            NoteKind::BuiltinNotRun => b"builtin not run",
            NoteKind::BadHwdbArguments => b"bad hwdb arguments",
            NoteKind::NoAnswer => b"no answer for program",
            NoteKind::TestNotMade => b"test not made",
            NoteKind::SysctlNotRead => b"sysctl not read",
            NoteKind::TextTooLong => b"text too long",
            NoteKind::NameIgnored => b"name ignored",
            NoteKind::NoDeviceNumber => b"no device number",
            NoteKind::NoValue => b"no value",
            NoteKind::LinkIgnored => b"link ignored",
            NoteKind::ModeIgnored => b"mode ignored",
            NoteKind::TagIgnored => b"tag ignored",
            NoteKind::AttributeNotRead => b"attribute not read",
            NoteKind::AttributeNotFound => b"attribute not found",
            NoteKind::BuiltinNeeds => b"builtin needs",
            NoteKind::ConstantNotGiven => b"constant not given",
            NoteKind::AttributesNotGiven => b"attributes not given",
        }
    }
}
