//! The substitutions, by their long names and by their letters.

use crate::entries::{Entry, entry};

/// What is told about each substitution by its long name, in the order of `rule_tokens`.
pub(crate) const SUBSTITUTIONS: [Entry; 19] = [
    entry!(
        "$kernel",
        "The name that the kernel gave the device. Short: `%k`.",
        r#"SUBSYSTEM=="block", SYMLINK+="disk/mine/$kernel""#
    ),
    entry!(
        "$number",
        "The digits at the end of the kernel's name: `3` of `sda3`. Short: `%n`.",
        r#"KERNEL=="sda[0-9]*", SYMLINK+="disk/part$number""#
    ),
    entry!(
        "$devpath",
        "The path of the device below `/sys`. Short: `%p`.",
        r#"SUBSYSTEM=="tty", RUN+="/usr/local/bin/log-port /sys$devpath""#
    ),
    entry!(
        "$id",
        "The kernel's name of the parent that the last `KERNELS`, `SUBSYSTEMS`, `DRIVERS`, `ATTRS` and `TAGS` of a rule found. \
         Short: `%b`.",
        r#"SUBSYSTEM=="tty", SUBSYSTEMS=="usb", SYMLINK+="port-$id""#
    ),
    entry!(
        "$driver",
        "The driver of the parent that the last `KERNELS`, `SUBSYSTEMS`, `DRIVERS`, `ATTRS` and `TAGS` of a rule found.",
        r#"SUBSYSTEM=="tty", SUBSYSTEMS=="usb-serial", ENV{PORT_DRIVER}="$driver""#
    ),
    entry!(
        "$attr",
        "An attribute of the device, else of the parent that the rules found last; its name follows in braces. Short: `%s{..}`.",
        r#"SUBSYSTEM=="tty", ATTRS{serial}=="?*", SYMLINK+="port-$attr{serial}""#
    ),
    entry!(
        "$env",
        "A property of the device as it is then; its name follows in braces. Short: `%E{..}`.",
        r#"SUBSYSTEM=="block", ENV{ID_SERIAL}=="?*", SYMLINK+="disk/by-serial/$env{ID_SERIAL}""#
    ),
    entry!(
        "$major",
        "The major number of the device's node. Short: `%M`.",
        r#"SUBSYSTEM=="block", SYMLINK+="disk/by-number/$major:$minor""#
    ),
    entry!(
        "$minor",
        "The minor number of the device's node. Short: `%m`.",
        r#"SUBSYSTEM=="block", SYMLINK+="disk/by-number/$major:$minor""#
    ),
    entry!(
        "$result",
        "What the last `PROGRAM` printed. `$result{2}` is its second word, `$result{2+}` all from that on. Short: `%c`.",
        r#"KERNEL=="ttyUSB*", PROGRAM=="/usr/local/bin/name-of %k", SYMLINK+="$result{1}""#
    ),
    entry!(
        "$parent",
        "The node of the device's parent, without `/dev/`. Short: `%P`.",
        r#"ENV{DEVTYPE}=="partition", SYMLINK+="disk/of-$parent-%n""#
    ),
    entry!(
        "$name",
        "The name that a rule gave the device, else that of its node or the kernel's.",
        r#"SUBSYSTEM=="net", RUN+="/usr/local/bin/interface-up $name""#
    ),
    entry!(
        "$links",
        "The links that the device has so far, with spaces between them.",
        r#"SUBSYSTEM=="block", ENV{ALL_LINKS}="$links""#
    ),
    entry!(
        "$root",
        "The folder of nodes, `/dev`. Short: `%r`.",
        r#"SUBSYSTEM=="block", RUN+="/usr/local/bin/log-node $root/%k""#
    ),
    entry!(
        "$sysfs",
        "An old name of `$attr`, which no manual has. Write `$attr`.",
        r#"SUBSYSTEM=="tty", ATTRS{serial}=="?*", SYMLINK+="port-$attr{serial}""#
    ),
    entry!(
        "$sys",
        "The folder in which the kernel shows devices, `/sys`. Short: `%S`.",
        r#"SUBSYSTEM=="net", RUN+="/usr/local/bin/log-folder $sys$devpath""#
    ),
    entry!(
        "$devnode",
        "The path of the device's node, such as `/dev/sda`. Short: `%N`.",
        r#"SUBSYSTEM=="block", RUN+="/usr/local/bin/log-node $devnode""#
    ),
    entry!(
        "$tempnode",
        "An old name of `$devnode`, which no manual has. Write `$devnode`.",
        r#"SUBSYSTEM=="block", RUN+="/usr/local/bin/log-node $devnode""#
    ),
    entry!(
        "$$",
        "The sign `$` itself.",
        r#"SUBSYSTEM=="tty", RUN+="/bin/sh -c 'echo $$PATH > /run/path'""#
    ),
];

/// What is told about each substitution by its letter, in the order of `rule_tokens`.
pub(crate) const LETTERS: [Entry; 14] = [
    entry!(
        "%k",
        "The name that the kernel gave the device. Long: `$kernel`.",
        r#"SUBSYSTEM=="block", SYMLINK+="disk/mine/%k""#
    ),
    entry!(
        "%n",
        "The digits at the end of the kernel's name: `3` of `sda3`. Long: `$number`.",
        r#"KERNEL=="sda[0-9]*", SYMLINK+="disk/part%n""#
    ),
    entry!(
        "%p",
        "The path of the device below `/sys`. Long: `$devpath`.",
        r#"SUBSYSTEM=="tty", RUN+="/usr/local/bin/log-port /sys%p""#
    ),
    entry!(
        "%b",
        "The kernel's name of the parent that the last `KERNELS`, `SUBSYSTEMS`, `DRIVERS`, `ATTRS` and `TAGS` of a rule found. \
         Long: `$id`.",
        r#"SUBSYSTEM=="tty", SUBSYSTEMS=="usb", SYMLINK+="port-%b""#
    ),
    entry!(
        "%s",
        "An attribute of the device, else of the parent that the rules found last; its name follows in braces. Long: `$attr{..}`.",
        r#"SUBSYSTEM=="tty", ATTRS{serial}=="?*", SYMLINK+="port-%s{serial}""#
    ),
    entry!(
        "%E",
        "A property of the device as it is then; its name follows in braces. Long: `$env{..}`.",
        r#"SUBSYSTEM=="block", ENV{ID_SERIAL}=="?*", SYMLINK+="disk/by-serial/%E{ID_SERIAL}""#
    ),
    entry!(
        "%M",
        "The major number of the device's node. Long: `$major`.",
        r#"SUBSYSTEM=="block", SYMLINK+="disk/by-number/%M:%m""#
    ),
    entry!(
        "%m",
        "The minor number of the device's node. Long: `$minor`.",
        r#"SUBSYSTEM=="block", SYMLINK+="disk/by-number/%M:%m""#
    ),
    entry!(
        "%c",
        "What the last `PROGRAM` printed. `%c{2}` is its second word, `%c{2+}` all from that on. Long: `$result`.",
        r#"KERNEL=="ttyUSB*", PROGRAM=="/usr/local/bin/name-of %k", SYMLINK+="%c{1}""#
    ),
    entry!(
        "%P",
        "The node of the device's parent, without `/dev/`. Long: `$parent`.",
        r#"ENV{DEVTYPE}=="partition", SYMLINK+="disk/of-%P-%n""#
    ),
    entry!(
        "%r",
        "The folder of nodes, `/dev`. Long: `$root`.",
        r#"SUBSYSTEM=="block", RUN+="/usr/local/bin/log-node %r/%k""#
    ),
    entry!(
        "%S",
        "The folder in which the kernel shows devices, `/sys`. Long: `$sys`.",
        r#"SUBSYSTEM=="net", RUN+="/usr/local/bin/log-folder %S%p""#
    ),
    entry!(
        "%N",
        "The path of the device's node, such as `/dev/sda`. Long: `$devnode`.",
        r#"SUBSYSTEM=="block", RUN+="/usr/local/bin/log-node %N""#
    ),
    entry!(
        "%%",
        "The sign `%` itself.",
        r#"SUBSYSTEM=="tty", RUN+="/bin/date +%%s""#
    ),
];
