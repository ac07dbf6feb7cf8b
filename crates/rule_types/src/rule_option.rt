//! What OPTIONS asks for.

/// An option of a rule, as OPTIONS names it in udev(7).
#[derive(Clone, Copy, PartialEq, Eq)]
pub enum RuleOption {
    /// `link_priority=N`: the priority of this device's links over those of others.
    LinkPriority(i32),
    /// `string_escape=none`: no byte of a link or name is replaced.
    KeepEscapes,
    /// `string_escape=replace`: spaces of a link are replaced too.
    ReplaceEscapes,
    /// `watch`: the device's node is watched for changes.
    Watch,
    /// `nowatch`: it is not.
    NoWatch,
    /// `db_persist`: what is known about the device stays when udev's database is cleared.
    DbPersist,
    /// For udev only: `log_level=LEVEL`, which changes nothing here, though a rule with it is evaluated.
    LogLevel,
    /// `static_node=TEXT`, which changes nothing here; by the manual also `log_level=TEXT`, and for udev
    /// an option that it does not know.
    Ignored,
}
