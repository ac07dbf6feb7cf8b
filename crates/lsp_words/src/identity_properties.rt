//! Properties that tell a device from others, and what is stored on it.

use crate::entries::{Entry, entry};

/// What is told about each property that tells a device from others.
pub(crate) const IDENTITY_PROPERTIES: [Entry; 22] = [
    entry!(
        "ID_SERIAL",
        "A name for the device alone, made of its vendor, its model and its serial number.",
        r#"SUBSYSTEM=="block", ENV{ID_SERIAL}=="?*", SYMLINK+="disk/mine/$env{ID_SERIAL}""#
    ),
    entry!(
        "ID_SERIAL_SHORT",
        "The serial number of the device, as it tells it.",
        r#"SUBSYSTEM=="tty", ENV{ID_SERIAL_SHORT}=="A50285BI", SYMLINK+="ttyMINE""#
    ),
    entry!(
        "ID_TYPE",
        "What the device is, such as `disk`, `cd`, `generic`, `audio` or `video`.",
        r#"SUBSYSTEM=="block", ENV{ID_TYPE}=="cd", GROUP="cdrom""#
    ),
    entry!(
        "ID_WWN",
        "A number that no other disk of the world has.",
        r#"SUBSYSTEM=="block", ENV{ID_WWN}=="0x5000c500a1b2c3d4", SYMLINK+="disk/backup""#
    ),
    entry!(
        "ID_PATH",
        "Where the device is plugged in, as `path_id` finds it: the same for whatever device is in that place.",
        r#"SUBSYSTEM=="tty", ENV{ID_PATH}=="pci-0000:00:14.0-usb-0:2:1.0", SYMLINK+="ttyLEFT""#
    ),
    entry!(
        "ID_PATH_TAG",
        "The same as `ID_PATH`, with `_` for all that can't be in a tag.",
        r#"SUBSYSTEM=="input", ENV{ID_PATH_TAG}=="?*", TAG+="at-$env{ID_PATH_TAG}""#
    ),
    entry!(
        "ID_USB_DRIVER",
        "The driver of the USB interface that the device belongs to.",
        r#"SUBSYSTEM=="tty", ENV{ID_USB_DRIVER}=="ftdi_sio", TAG+="adapter""#
    ),
    entry!(
        "ID_USB_INTERFACES",
        "What the interfaces of a USB device do: six hexadecimal digits for each, with colons around them.",
        r#"SUBSYSTEM=="usb", ENV{ID_USB_INTERFACES}=="*:0701??:*", GROUP="lp""#
    ),
    entry!(
        "ID_USB_INTERFACE_NUM",
        "The number of the USB interface that the device belongs to: two hexadecimal digits.",
        r#"SUBSYSTEM=="tty", ENV{ID_USB_INTERFACE_NUM}=="01", SYMLINK+="ttySECOND""#
    ),
    entry!(
        "ID_FS_TYPE",
        "The file system on a block device, such as `ext4`, `vfat` or `swap`.",
        r#"SUBSYSTEM=="block", ENV{ID_FS_TYPE}=="vfat", TAG+="stick""#
    ),
    entry!(
        "ID_FS_USAGE",
        "What is on a block device: `filesystem`, `raid`, `crypto` or `other`.",
        r#"SUBSYSTEM=="block", ENV{ID_FS_USAGE}=="filesystem", TAG+="mountable""#
    ),
    entry!(
        "ID_FS_UUID",
        "The number that tells a file system from all others.",
        r#"SUBSYSTEM=="block", ENV{ID_FS_UUID}=="2f1c7f8e-*", SYMLINK+="disk/backup""#
    ),
    entry!(
        "ID_FS_UUID_ENC",
        "The number of the file system, written so that it can be in a link.",
        r#"SUBSYSTEM=="block", ENV{ID_FS_UUID_ENC}=="?*", SYMLINK+="disk/mine/$env{ID_FS_UUID_ENC}""#
    ),
    entry!(
        "ID_FS_LABEL",
        "The label that someone gave the file system.",
        r#"SUBSYSTEM=="block", ENV{ID_FS_LABEL}=="BACKUP", SYMLINK+="disk/backup""#
    ),
    entry!(
        "ID_FS_LABEL_ENC",
        "The label of the file system, written so that it can be in a link.",
        r#"SUBSYSTEM=="block", ENV{ID_FS_LABEL_ENC}=="?*", SYMLINK+="disk/mine/$env{ID_FS_LABEL_ENC}""#
    ),
    entry!(
        "ID_PART_ENTRY_NAME",
        "The name of a partition in its table.",
        r#"SUBSYSTEM=="block", ENV{ID_PART_ENTRY_NAME}=="backup", SYMLINK+="disk/backup""#
    ),
    entry!(
        "ID_PART_ENTRY_NUMBER",
        "The number of a partition in its table.",
        r#"SUBSYSTEM=="block", ENV{ID_PART_ENTRY_NUMBER}=="1", TAG+="first""#
    ),
    entry!(
        "ID_PART_ENTRY_SCHEME",
        "The kind of table that a partition is in: `gpt` or `dos`.",
        r#"SUBSYSTEM=="block", ENV{ID_PART_ENTRY_SCHEME}=="gpt", TAG+="gpt""#
    ),
    entry!(
        "ID_PART_ENTRY_TYPE",
        "The type of a partition: a UUID in a table of GPT, else `0x` and hexadecimal digits.",
        r#"SUBSYSTEM=="block", ENV{ID_PART_ENTRY_TYPE}=="c12a7328-f81f-11d2-ba4b-00a0c93ec93b", TAG+="esp""#
    ),
    entry!(
        "ID_PART_ENTRY_UUID",
        "The number that tells a partition from all others.",
        r#"SUBSYSTEM=="block", ENV{ID_PART_ENTRY_UUID}=="2f1c7f8e-*", SYMLINK+="disk/backup""#
    ),
    entry!(
        "ID_PART_TABLE_TYPE",
        "The kind of table on a disk: `gpt` or `dos`.",
        r#"SUBSYSTEM=="block", ENV{ID_PART_TABLE_TYPE}=="gpt", TAG+="gpt""#
    ),
    entry!(
        "ID_CDROM",
        "`1` for a drive of optical disks.",
        r#"SUBSYSTEM=="block", ENV{ID_CDROM}=="1", GROUP="cdrom""#
    ),
];
