//! What may stand in the braces of IMPORT, RUN, CONST and SECLABEL.

use crate::entries::{Entry, entry};

/// What is told about each type of IMPORT, in the order of `rule_types`.
pub(crate) const IMPORT_TYPES: [Entry; 6] = [
    entry!(
        "program",
        "Runs a program at once, and imports the lines `NAME=VALUE` that it prints. It has to be quick: the event waits for it.",
        r#"KERNEL=="sd*[!0-9]", IMPORT{program}="ata_id --export $devnode""#
    ),
    entry!(
        "builtin",
        "Imports what a command that is built into udev finds, such as `usb_id` or `blkid`.",
        r#"SUBSYSTEM=="block", IMPORT{builtin}="blkid""#
    ),
    entry!(
        "file",
        "Imports the lines `NAME=VALUE` of a file, whose path is the value.",
        r#"SUBSYSTEM=="tty", IMPORT{file}="/etc/ports.conf""#
    ),
    entry!(
        "parent",
        "Imports properties of the device's parent: all whose names fit the pattern.",
        r#"SUBSYSTEM=="block", ENV{DEVTYPE}=="partition", IMPORT{parent}="ID_*""#
    ),
    entry!(
        "cmdline",
        "Imports a word of the kernel's command line as a property: its value behind `=`, or `1` if it has none.",
        r#"IMPORT{cmdline}="nomodeset", GOTO="mine_end""#
    ),
    entry!(
        "db",
        "Imports a property that udev stored at an earlier event of the same device.",
        r#"ACTION=="change", IMPORT{db}="MY_STATE""#
    ),
];

/// What is told about each type of RUN, in the order of `rule_types`.
pub(crate) const RUN_TYPES: [Entry; 2] = [
    entry!(
        "program",
        "Runs a program once all rules are done, as `RUN` without braces does. A name without a slash is looked for in \
         `/usr/lib/udev`.",
        r#"ACTION=="add", RUN{program}+="/usr/local/bin/log-port %k""#
    ),
    entry!(
        "builtin",
        "Runs a command that is built into udev once all rules are done, such as `kmod` or `uaccess`.",
        r#"ENV{MODALIAS}=="?*", RUN{builtin}+="kmod load '$env{MODALIAS}'""#
    ),
];

/// What is told about each constant.
pub(crate) const CONSTANTS: [Entry; 3] = [
    entry!(
        "arch",
        "The architecture of the system, as systemd names it: `x86-64`, `arm64`, `riscv64` and others.",
        r#"CONST{arch}=="x86-64", TAG+="pc""#
    ),
    entry!(
        "virt",
        "The virtualization in which the system runs, such as `kvm`, `vmware` or `lxc`; `none` on a real machine.",
        r#"CONST{virt}!="none", GOTO="mine_end""#
    ),
    entry!(
        "cvm",
        "The technique that keeps the memory of the virtual machine from its host, such as `sev` or `tdx`; `none` without one. It \
         takes a recent version of udev.",
        r#"CONST{cvm}!="none", TAG+="confidential""#
    ),
];

/// What is told about each security module.
pub(crate) const MODULES: [Entry; 2] = [
    entry!(
        "selinux",
        "The label is a context of SELinux, which the node gets in place of the one that the policy has for it.",
        r#"KERNEL=="ttyS0", SECLABEL{selinux}="system_u:object_r:tty_device_t:s0""#
    ),
    entry!(
        "smack",
        "The label is one of Smack, which the node gets.",
        r#"KERNEL=="ttyS0", SECLABEL{smack}="serial""#
    ),
];
