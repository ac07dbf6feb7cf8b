//! The actions of events.

use crate::entries::{Entry, entry};

/// What is told about each action.
pub(crate) const ACTIONS: [Entry; 8] = [
    entry!(
        "add",
        "The device is there: it was plugged in or found. At the start of the system there is an `add` for each device.",
        r#"ACTION=="add", SUBSYSTEM=="net", NAME="lan0""#
    ),
    entry!(
        "remove",
        "The device is gone. Its node and links are taken away whatever the rules say, so most rules leave this action out.",
        r#"ACTION=="remove", SUBSYSTEM=="tty", RUN+="/usr/local/bin/port-gone""#
    ),
    entry!(
        "change",
        "Something about the device is another: a disk was put in, a file system was made, a battery got low.",
        r#"ACTION=="change", SUBSYSTEM=="power_supply", ATTR{online}=="0", RUN+="/usr/local/bin/on-battery""#
    ),
    entry!(
        "move",
        "The device has another path, since it or one of its parents was renamed. This is mostly so for network interfaces.",
        r#"ACTION=="move", SUBSYSTEM=="net", TAG+="renamed""#
    ),
    entry!(
        "online",
        "The device, such as a processor or a part of the memory, was switched on.",
        r#"ACTION=="online", SUBSYSTEM=="cpu", RUN+="/usr/local/bin/cpus-changed""#
    ),
    entry!(
        "offline",
        "The device, such as a processor or a part of the memory, was switched off.",
        r#"ACTION=="offline", SUBSYSTEM=="cpu", RUN+="/usr/local/bin/cpus-changed""#
    ),
    entry!(
        "bind",
        "A driver was bound to the device. This comes after `add`, and some attributes are only there from then on.",
        r#"ACTION=="bind", SUBSYSTEM=="usb", DRIVER=="usb-storage", TAG+="storage""#
    ),
    entry!(
        "unbind",
        "The driver was taken from the device, which is still there.",
        r#"ACTION=="unbind", SUBSYSTEM=="usb", RUN+="/usr/local/bin/driver-gone %k""#
    ),
];
