//! The keys of rules.

use crate::entries::{Entry, entry};

/// What is told about each key, in the order of `rule_types`.
pub(crate) const KEYS: [Entry; 29] = [
    entry!(
        "ACTION",
        "Compares the action of the event, such as `add`, `remove` or `change`.",
        r#"ACTION=="add|change", SUBSYSTEM=="block", TAG+="seen""#
    ),
    entry!(
        "DEVPATH",
        "Compares the path of the device below `/sys`. It begins with `/devices/`, and the pattern has to fit all of it.",
        r#"DEVPATH=="/devices/virtual/*", TAG+="virtual""#
    ),
    entry!(
        "KERNEL",
        "Compares the name that the kernel gave the device: the last component of its path.",
        r#"KERNEL=="sd[a-z]", SUBSYSTEM=="block", TAG+="disk""#
    ),
    entry!(
        "SUBSYSTEM",
        "Compares the subsystem of the device itself. `SUBSYSTEMS` looks at its parents, too.",
        r#"SUBSYSTEM=="tty", KERNEL=="ttyUSB*", GROUP="dialout""#
    ),
    entry!(
        "DRIVER",
        "Compares the driver that is bound to the device itself; it is empty if there is none. Most devices with a node have no \
         driver of their own, but a parent has: `DRIVERS` finds that.",
        r#"DRIVER=="pcieport", ATTR{power/control}="auto""#
    ),
    entry!(
        "KERNELS",
        "Compares the kernel's name of the device or of one of its parents. All keys that end in `S` must hold at the same device, \
         and the nearest one counts.",
        r#"SUBSYSTEM=="tty", KERNELS=="1-2:1.0", SYMLINK+="ttyLEFT""#
    ),
    entry!(
        "SUBSYSTEMS",
        "Compares the subsystem of the device or of one of its parents. All keys that end in `S` must hold at the same device, \
         and the nearest one counts.",
        r#"SUBSYSTEM=="tty", SUBSYSTEMS=="usb", ATTRS{idVendor}=="0403", SYMLINK+="ttyMINE""#
    ),
    entry!(
        "DRIVERS",
        "Compares the driver of the device or of one of its parents. All keys that end in `S` must hold at the same device, \
         and the nearest one counts.",
        r#"SUBSYSTEM=="net", DRIVERS=="r8169", NAME="lan0""#
    ),
    entry!(
        "TAGS",
        "Compares the tags of the device or of one of its parents: `==` holds if one tag fits. All keys that end in `S` must hold at \
         the same device.",
        r#"SUBSYSTEM=="input", TAGS=="seat", TAG+="seat""#
    ),
    entry!(
        "RESULT",
        "Compares what the last `PROGRAM` printed, in this rule or an earlier one; it is empty if there was none.",
        r#"PROGRAM=="/usr/local/bin/side %k", RESULT=="left", SYMLINK+="ttyLEFT""#
    ),
    entry!(
        "ATTRS",
        "Compares an attribute of the device or of one of its parents; its name is in the braces. All keys that end in `S` must hold \
         at the same device: attributes of two devices need two rules.",
        r#"SUBSYSTEM=="tty", ATTRS{idVendor}=="0403", ATTRS{idProduct}=="6001", SYMLINK+="ttyMINE""#
    ),
    entry!(
        "CONST",
        "Compares a constant of the system: `arch` in the braces is its architecture, `virt` its virtualization.",
        r#"CONST{virt}!="none", GOTO="end""#
    ),
    entry!(
        "TEST",
        "Tests whether a file exists. A relative path is one below the device's folder in `/sys`. A mask of octal digits may be in \
         the braces: then the file's mode must have one of its bits.",
        r#"SUBSYSTEM=="usb", TEST=="power/control", ATTR{power/control}="auto""#
    ),
    entry!(
        "PROGRAM",
        "Runs a program at once, and holds if it ends with status 0. What it prints is the result, which `RESULT` compares and `%c` \
         inserts. It has to be quick: the event waits for it.",
        r#"KERNEL=="ttyUSB*", PROGRAM=="/usr/local/bin/name-of %k", SYMLINK+="%c""#
    ),
    entry!(
        "IMPORT",
        "Imports properties; the type in the braces says from where: `program`, `builtin`, `file`, `db`, `cmdline` or `parent`. With \
         `!=` the rule goes on only if nothing could be imported.",
        r#"SUBSYSTEM=="usb", IMPORT{builtin}="usb_id""#
    ),
    entry!(
        "NAME",
        "Compares the name that a rule gave a network interface, or gives it one. No other device can be renamed: use `SYMLINK` for \
         those.",
        r#"SUBSYSTEM=="net", ACTION=="add", ATTR{address}=="02:00:00:00:00:01", NAME="lan0""#
    ),
    entry!(
        "SYMLINK",
        "Adds links to the device's node, as names below `/dev` with spaces between them, or compares those that earlier rules added. \
         Add by `+=`: a `=` takes away the links of other rules.",
        r#"SUBSYSTEM=="block", KERNEL=="sd?", SYMLINK+="disk/mine/%k""#
    ),
    entry!(
        "TAG",
        "Adds a tag by `+=`, takes one away by `-=`, or compares the tags: `==` holds if one of them fits. Programs ask for devices by \
         tag: `systemd` makes the device a unit, `uaccess` lets the user of the seat open it.",
        r#"SUBSYSTEM=="hidraw", ATTRS{idVendor}=="1050", TAG+="uaccess""#
    ),
    entry!(
        "ATTR",
        "Compares an attribute of the device itself, or writes to it by `=`. The braces have its name: a file in the device's folder \
         of `/sys`. `ATTRS` compares those of parents, too.",
        r#"SUBSYSTEM=="block", ATTR{queue/rotational}=="0", ATTR{queue/scheduler}="none""#
    ),
    entry!(
        "SYSCTL",
        "Compares a parameter of the kernel, or sets it by `=`. The braces have its name: a path below `/proc/sys`, with slashes or \
         dots.",
        r#"SUBSYSTEM=="net", KERNEL=="lan0", SYSCTL{net/ipv6/conf/lan0/accept_ra}="0""#
    ),
    entry!(
        "ENV",
        "Compares a property of the device, or sets it: by `=`, or by `+=` to append to it. One whose name begins with a dot is not \
         stored, and is seen by rules alone.",
        r#"SUBSYSTEM=="block", ENV{ID_FS_TYPE}=="vfat", ENV{UDISKS_IGNORE}="1""#
    ),
    entry!(
        "OWNER",
        "Sets the user who owns the device's node, by name or by number.",
        r#"KERNEL=="ttyUSB0", OWNER="backup""#
    ),
    entry!(
        "GROUP",
        "Sets the group of the device's node, by name or by number.",
        r#"SUBSYSTEM=="tty", KERNEL=="ttyUSB*", GROUP="dialout", MODE="0660""#
    ),
    entry!(
        "MODE",
        "Sets the permissions of the device's node, in octal digits.",
        r#"SUBSYSTEM=="hidraw", GROUP="input", MODE="0660""#
    ),
    entry!(
        "SECLABEL",
        "Sets the label of a security module on the device's node. The braces have the module, such as `selinux` or `smack`.",
        r#"KERNEL=="ttyS0", SECLABEL{smack}="serial""#
    ),
    entry!(
        "RUN",
        "Adds a command that is run once all rules are done. It must end soon: what goes on for long belongs into a unit of \
         systemd. With `builtin` in the braces it is a command of udev itself.",
        r#"ACTION=="add", KERNEL=="ttyUSB0", RUN+="/usr/local/bin/log-port %k""#
    ),
    entry!(
        "OPTIONS",
        "Sets one option for the rule or the device, such as `link_priority=` or `nowatch`.",
        r#"SUBSYSTEM=="block", SYMLINK+="disk/first", OPTIONS+="link_priority=10""#
    ),
    entry!(
        "LABEL",
        "Names the place of this rule, so that a `GOTO` above it in the same file can jump here.",
        r#"LABEL="mine_end""#
    ),
    entry!(
        "GOTO",
        "Jumps to the next rule of this file that has the `LABEL`, and passes over the rules between. It never jumps back.",
        r#"SUBSYSTEM!="tty", GOTO="mine_end""#
    ),
];
