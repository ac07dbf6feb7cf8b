//! What may be reported for a rule besides its faults: that it is a rule, but most likely not the one that was
//! meant.

/// Why a rule is most likely not the one that was meant, though neither udevadm(8) nor the manual pages find fault
/// with it.
#[derive(Clone, Copy, PartialEq, Eq)]
pub enum Lint {
    /// W1: MODE is not an octal number.
    ModeNotOctal,
    /// W2: a command has a sign of the shell, and no shell runs it.
    SignOfShell,
    /// W3: RUN names its program without a path.
    RelativeProgram,
    /// W4: a letter has the case that the kernel does not write.
    LetterCase,
    /// W5: the attributes of a rule are those of different devices, which no one device has.
    NoSuchDevice,
    /// W6: a property is compared before the rule that imports it.
    ImportedBelow,
    /// W7: a value is assigned among matches that other rules compare.
    MeantToCompare,
    /// W8: NAME is given to a device that is not a network device.
    NameOutsideNet,
    /// W9: a link begins with `/dev/`.
    LinkWithDev,
    /// W10: a name in braces has quotes.
    QuotedName,
    /// W11: a pattern is written as a regular expression or with braces.
    NotAPattern,
    /// W12: a match holds for every device.
    AlwaysHolds,
    /// W13: no rule leads to this one.
    NeverReached,
    /// W14: for udev `?*` is no pattern after this key.
    NoPatternForUdev,
    /// W15: a rule assigns for every device, as it has no match.
    NoMatch,
    /// W16: a pattern fits nothing that the kernel writes.
    NeverFits,
    /// W17: a blank beside a `|` is a part of the pattern there.
    BlankBesideBar,
    /// W18: a name in braces is not known, and near one that is.
    UnknownName,
    /// W19: what looks like a substitution is none, or another one.
    NotSubstituted,
    /// W20: `=` takes away what earlier rules added.
    ListReplaced,
    /// W21: a value is assigned where a match was meant.
    MeantAsMatch,
    /// W22: the name of a network device is too long.
    NameTooLong,
    /// W23: a unit is wanted by a device that systemd does not see.
    WantedWithoutTag,
    /// W24: a command can't do its work where udev runs it.
    ForbiddenCommand,
    /// W25: a result is compared before the program that gives it.
    NoResultYet,
    /// W26: a link is given to a network device, which has no node.
    LinkOfNet,
    /// W27: the tag `uaccess` is given after the file that reads it.
    TagTooLate,
}
