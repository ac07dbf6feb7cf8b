//! The commands that are built into udev.

use crate::entries::{Entry, entry};

/// What is told about each builtin, in the order of `rule_types`.
pub(crate) const BUILTINS: [Entry; 12] = [
    entry!(
        "blkid",
        "Looks for a file system, a partition table and a RAID on a block device, and sets the properties `ID_FS_*` and `ID_PART_*`.",
        r#"SUBSYSTEM=="block", IMPORT{builtin}="blkid""#
    ),
    entry!(
        "btrfs",
        "Tells the kernel that a device belongs to a file system of Btrfs, and sets whether all of its devices are there: \
         `ID_BTRFS_READY`.",
        r#"ENV{ID_FS_TYPE}=="btrfs", IMPORT{builtin}="btrfs ready $devnode""#
    ),
    entry!(
        "hwdb",
        "Looks the device up in the hardware database by its modalias, and sets the properties that it has there. \
         `--subsystem=` says whose modalias, `--lookup-prefix=` what comes before it.",
        r#"SUBSYSTEM=="pci", IMPORT{builtin}="hwdb --subsystem=pci""#
    ),
    entry!(
        "input_id",
        "Finds out what an input device is from the events that it can send, and sets properties such as `ID_INPUT_MOUSE` and \
         `ID_INPUT_KEYBOARD`.",
        r#"SUBSYSTEM=="input", ENV{ID_INPUT}=="", IMPORT{builtin}="input_id""#
    ),
    entry!(
        "keyboard",
        "Gives an input device the keys and axes that the hardware database sets by `KEYBOARD_KEY_*` and `EVDEV_ABS_*`.",
        r#"KERNEL=="event*", ENV{KEYBOARD_KEY_70039}=="?*", RUN{builtin}+="keyboard""#
    ),
    entry!(
        "kmod",
        "Loads modules of the kernel: `load` and then their names, or the modalias of a device.",
        r#"ACTION=="add", ENV{MODALIAS}=="?*", RUN{builtin}+="kmod load '$env{MODALIAS}'""#
    ),
    entry!(
        "net_driver",
        "Finds the driver of a network interface, also of a virtual one, and sets `ID_NET_DRIVER`.",
        r#"SUBSYSTEM=="net", IMPORT{builtin}="net_driver""#
    ),
    entry!(
        "net_id",
        "Finds names for a network interface that stay the same from one start to the next, and sets `ID_NET_NAME_*`.",
        r#"SUBSYSTEM=="net", IMPORT{builtin}="net_id""#
    ),
    entry!(
        "net_setup_link",
        "Sets up a network interface as the first `.link` file for it says, and sets the name that it is to get, `ID_NET_NAME`.",
        r#"SUBSYSTEM=="net", ACTION=="add", IMPORT{builtin}="net_setup_link""#
    ),
    entry!(
        "path_id",
        "Finds where the device is plugged in, and sets `ID_PATH` and `ID_PATH_TAG`: the same for whatever device is in that place.",
        r#"SUBSYSTEM=="tty", IMPORT{builtin}="path_id", SYMLINK+="serial/by-path/$env{ID_PATH}""#
    ),
    entry!(
        "usb_id",
        "Reads what a USB device says about itself, and sets `ID_VENDOR`, `ID_MODEL`, `ID_SERIAL`, `ID_USB_*` and others.",
        r#"SUBSYSTEM=="tty", SUBSYSTEMS=="usb", IMPORT{builtin}="usb_id""#
    ),
    entry!(
        "uaccess",
        "Lets the user who sits at the device's seat open its node. Rules ask for it by the tag `uaccess`, before \
         `73-seat-late.rules` runs it.",
        r#"TAG=="uaccess", ENV{MAJOR}!="", RUN{builtin}+="uaccess""#
    ),
];
