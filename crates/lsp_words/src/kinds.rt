//! The kinds of words.

/// What a word is, by its place in a row. Each kind has its table of entries.
#[derive(Clone, Copy, PartialEq, Eq)]
pub enum WordKind {
    /// A key of a rule, such as `KERNEL`.
    Key,
    /// What stands between a key and its value, such as `==`.
    Operator,
    /// What is in the braces of IMPORT.
    ImportType,
    /// What is in the braces of RUN.
    RunType,
    /// The name of an attribute: in the braces of ATTR, ATTRS and `$attr`.
    Attribute,
    /// The name of a property: in the braces of ENV and `$env`, and as the value of IMPORT{db} and IMPORT{parent}.
    Property,
    /// What is in the braces of CONST.
    Constant,
    /// What is in the braces of SECLABEL.
    Module,
    /// A command that is built into udev: the first word of IMPORT{builtin} and RUN{builtin}.
    Builtin,
    /// A value of OPTIONS.
    RuleOption,
    /// A value of ACTION.
    Action,
    /// A value of SUBSYSTEM and SUBSYSTEMS.
    Subsystem,
    /// A substitution by its long name, such as `$kernel`.
    Substitution,
    /// A substitution by its letter, such as `%k`.
    Letter,
    /// How a match of a database file begins, such as `usb:`.
    Match,
    /// The name of a property of a database file.
    DatabaseProperty,
}
