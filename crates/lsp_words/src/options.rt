//! The options that rules can set.

use crate::entries::{Entry, entry};

/// What is told about each value of OPTIONS.
pub(crate) const OPTIONS: [Entry; 9] = [
    entry!(
        "link_priority=",
        "Sets the priority of the device's links, a whole number, 0 if nothing is set. If several devices want the same link, the one \
         with the highest priority gets it.",
        r#"SUBSYSTEM=="block", SYMLINK+="disk/first", OPTIONS+="link_priority=10""#
    ),
    entry!(
        "string_escape=none",
        "The names that this rule gives by `NAME` and `SYMLINK` are taken as they are: no byte is replaced.",
        r#"SUBSYSTEM=="block", OPTIONS="string_escape=none", SYMLINK+="disk/$env{ID_MODEL}""#
    ),
    entry!(
        "string_escape=replace",
        "In the names that this rule gives by `NAME` and `SYMLINK`, bytes that are not safe become `_`, spaces too: a `SYMLINK` is \
         then one link.",
        r#"SUBSYSTEM=="block", OPTIONS="string_escape=replace", SYMLINK+="disk/$attr{model}""#
    ),
    entry!(
        "string_escape=",
        "Says what becomes of bytes that are not safe in the names that this rule gives: `none` keeps them, `replace` makes each a \
         `_`, also spaces.",
        r#"SUBSYSTEM=="block", OPTIONS="string_escape=replace", SYMLINK+="disk/$attr{model}""#
    ),
    entry!(
        "static_node=",
        "Gives the permissions and tags of this rule to the node of that name below `/dev` when udev starts, before there is a device: \
         opening the node then loads its module.",
        r#"KERNEL=="uinput", SUBSYSTEM=="misc", MODE="0660", GROUP="input", OPTIONS+="static_node=uinput""#
    ),
    entry!(
        "watch",
        "Watches the device's node: when it is closed after it was open for writing, there is an event `change`.",
        r#"SUBSYSTEM=="block", KERNEL=="loop*", OPTIONS+="watch""#
    ),
    entry!(
        "nowatch",
        "Does not watch the device's node, so that closing it after writing causes no event.",
        r#"SUBSYSTEM=="block", KERNEL=="zram*", OPTIONS+="nowatch""#
    ),
    entry!(
        "db_persist",
        "Keeps what udev has stored about the device also when its database is cleaned up, as on the way from the initial RAM disk to \
         the system.",
        r#"SUBSYSTEM=="block", ENV{DM_UUID}=="?*", OPTIONS+="db_persist""#
    ),
    entry!(
        "log_level=",
        "Sets how much udev logs while it handles this device: a name such as `debug`, a number from 0 to 7, or `reset`.",
        r#"SUBSYSTEM=="net", OPTIONS+="log_level=debug""#
    ),
];
