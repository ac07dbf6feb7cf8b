//! Properties that the kernel and the bus of a device give it.

use crate::entries::{Entry, entry};

/// What is told about each property of the event and of what the device says about itself.
pub(crate) const DEVICE_PROPERTIES: [Entry; 27] = [
    entry!(
        "ACTION",
        "The action of the event. Compare it by the key `ACTION`.",
        r#"ACTION=="add", RUN+="/usr/local/bin/log-event $env{ACTION}""#
    ),
    entry!(
        "DEVLINKS",
        "All links of the device's node, as whole paths with spaces between them. It is for programs: rules have `SYMLINK`.",
        r#"SUBSYSTEM=="block", RUN+="/usr/local/bin/log-links $env{DEVLINKS}""#
    ),
    entry!(
        "DEVNAME",
        "The path of the device's node, such as `/dev/sda`; a device without a node has no such property.",
        r#"ENV{DEVNAME}=="?*", TAG+="has-node""#
    ),
    entry!(
        "DEVPATH",
        "The path of the device below `/sys`. Compare it by the key `DEVPATH`.",
        r#"SUBSYSTEM=="net", RUN+="/usr/local/bin/log-path $env{DEVPATH}""#
    ),
    entry!(
        "DEVTYPE",
        "The type of the device within its subsystem: `disk` or `partition`, `usb_device` or `usb_interface`, `wlan` and others.",
        r#"SUBSYSTEM=="block", ENV{DEVTYPE}=="partition", TAG+="part""#
    ),
    entry!(
        "DRIVER",
        "The driver of the device. Compare it by the key `DRIVER`.",
        r#"SUBSYSTEM=="usb", RUN+="/usr/local/bin/log-driver $env{DRIVER}""#
    ),
    entry!(
        "IFINDEX",
        "The number of a network interface.",
        r#"SUBSYSTEM=="net", RUN+="/usr/local/bin/log-interface $env{IFINDEX}""#
    ),
    entry!(
        "INTERFACE",
        "The name of a network interface, as the kernel has it.",
        r#"SUBSYSTEM=="net", ENV{INTERFACE}=="wl*", TAG+="wireless""#
    ),
    entry!(
        "MAJOR",
        "The major number of the device's node. A device without a node has none.",
        r#"ENV{MAJOR}!="", TAG+="has-node""#
    ),
    entry!(
        "MINOR",
        "The minor number of the device's node. A device without a node has none.",
        r#"SUBSYSTEM=="block", RUN+="/usr/local/bin/log-number $env{MAJOR}:$env{MINOR}""#
    ),
    entry!(
        "MODALIAS",
        "The modalias of the device, by which its driver and its database entries are found.",
        r#"ENV{MODALIAS}=="?*", IMPORT{builtin}="hwdb '$env{MODALIAS}'""#
    ),
    entry!(
        "PRODUCT",
        "Vendor, product and version of a USB or input device, in hexadecimal digits without zeros at the front, with slashes between.",
        r#"SUBSYSTEM=="usb", ENV{PRODUCT}=="46d/c52b/*", TAG+="receiver""#
    ),
    entry!(
        "SEQNUM",
        "The number of the event.",
        r#"RUN+="/usr/local/bin/log-event $env{SEQNUM}""#
    ),
    entry!(
        "SUBSYSTEM",
        "The subsystem of the device. Compare it by the key `SUBSYSTEM`.",
        r#"RUN+="/usr/local/bin/log-event $env{SUBSYSTEM}""#
    ),
    entry!(
        "TAGS",
        "All tags of the device, with colons around them. It is for programs: rules have `TAG`.",
        r#"SUBSYSTEM=="input", RUN+="/usr/local/bin/log-tags $env{TAGS}""#
    ),
    entry!(
        "USEC_INITIALIZED",
        "When udev first saw the device, in microseconds since the start of the system. udev sets it, and the kernel does not.",
        r#"SUBSYSTEM=="net", RUN+="/usr/local/bin/log-time $env{USEC_INITIALIZED}""#
    ),
    entry!(
        "DISK_MEDIA_CHANGE",
        "`1` in an event `change` of a disk whose medium was changed.",
        r#"SUBSYSTEM=="block", ENV{DISK_MEDIA_CHANGE}=="1", TAG+="new-medium""#
    ),
    entry!(
        "ID_BUS",
        "The bus of the device, such as `usb`, `ata`, `scsi` or `pci`.",
        r#"SUBSYSTEM=="block", ENV{ID_BUS}=="usb", TAG+="stick""#
    ),
    entry!(
        "ID_VENDOR",
        "The vendor, as the device tells it, with `_` for all that is not safe in a name.",
        r#"ENV{ID_VENDOR}=="Yubico", TAG+="key""#
    ),
    entry!(
        "ID_VENDOR_ENC",
        "The vendor, as the device tells it, with `\\x` and two digits for each byte that is not safe.",
        r#"ENV{ID_VENDOR_ENC}=="Kingston*", TAG+="stick""#
    ),
    entry!(
        "ID_VENDOR_ID",
        "The number of the vendor: four hexadecimal digits, of a PCI device behind `0x`.",
        r#"SUBSYSTEM=="tty", ENV{ID_VENDOR_ID}=="0403", TAG+="adapter""#
    ),
    entry!(
        "ID_VENDOR_FROM_DATABASE",
        "The name of the vendor that the hardware database has for its number.",
        r#"ENV{ID_VENDOR_FROM_DATABASE}=="Realtek*", TAG+="realtek""#
    ),
    entry!(
        "ID_MODEL",
        "The model, as the device tells it, with `_` for all that is not safe in a name.",
        r#"SUBSYSTEM=="tty", ENV{ID_MODEL}=="FT232R_USB_UART", SYMLINK+="ttyMINE""#
    ),
    entry!(
        "ID_MODEL_ENC",
        "The model, as the device tells it, with `\\x` and two digits for each byte that is not safe.",
        r#"ENV{ID_MODEL_ENC}=="FT232R*", TAG+="adapter""#
    ),
    entry!(
        "ID_MODEL_ID",
        "The number of the model: four hexadecimal digits, of a PCI device behind `0x`.",
        r#"SUBSYSTEM=="tty", ENV{ID_VENDOR_ID}=="0403", ENV{ID_MODEL_ID}=="6001", SYMLINK+="ttyMINE""#
    ),
    entry!(
        "ID_MODEL_FROM_DATABASE",
        "The name of the model that the hardware database has for its number.",
        r#"ENV{ID_MODEL_FROM_DATABASE}=="*Hub*", TAG+="hub""#
    ),
    entry!(
        "ID_REVISION",
        "The version of the device, as it tells it.",
        r#"SUBSYSTEM=="block", ENV{ID_REVISION}=="1.00", TAG+="first""#
    ),
];
