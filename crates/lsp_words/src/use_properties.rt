//! Properties that say what a device is used for, and which programs ask for.

use crate::entries::{Entry, entry};

/// What is told about each property that says what a device is used for.
pub(crate) const USE_PROPERTIES: [Entry; 29] = [
    entry!(
        "ID_INPUT",
        "`1` for an input device that programs are to use.",
        r#"SUBSYSTEM=="input", ENV{ID_INPUT}=="1", TAG+="used""#
    ),
    entry!(
        "ID_INPUT_JOYSTICK",
        "`1` for a joystick or a gamepad.",
        r#"SUBSYSTEM=="input", ENV{ID_INPUT_JOYSTICK}=="1", TAG+="uaccess""#
    ),
    entry!(
        "ID_INPUT_KEY",
        "`1` for an input device with keys.",
        r#"SUBSYSTEM=="input", ENV{ID_INPUT_KEY}=="1", TAG+="keys""#
    ),
    entry!(
        "ID_INPUT_KEYBOARD",
        "`1` for a whole keyboard.",
        r#"SUBSYSTEM=="input", ENV{ID_INPUT_KEYBOARD}=="1", TAG+="keyboard""#
    ),
    entry!(
        "ID_INPUT_MOUSE",
        "`1` for a mouse.",
        r#"SUBSYSTEM=="input", ENV{ID_INPUT_MOUSE}=="1", SYMLINK+="input/my-mouse""#
    ),
    entry!(
        "ID_INPUT_TABLET",
        "`1` for a drawing tablet.",
        r#"SUBSYSTEM=="input", ENV{ID_INPUT_TABLET}=="1", TAG+="drawing""#
    ),
    entry!(
        "ID_INPUT_TOUCHPAD",
        "`1` for a touchpad.",
        r#"SUBSYSTEM=="input", ENV{ID_INPUT_TOUCHPAD}=="1", ENV{LIBINPUT_IGNORE_DEVICE}="1""#
    ),
    entry!(
        "ID_INPUT_TOUCHSCREEN",
        "`1` for a touchscreen.",
        r#"SUBSYSTEM=="input", ENV{ID_INPUT_TOUCHSCREEN}=="1", ENV{LIBINPUT_IGNORE_DEVICE}="1""#
    ),
    entry!(
        "ID_NET_DRIVER",
        "The driver of a network interface.",
        r#"SUBSYSTEM=="net", ENV{ID_NET_DRIVER}=="r8169", TAG+="realtek""#
    ),
    entry!(
        "ID_NET_LINK_FILE",
        "The `.link` file that was used for a network interface.",
        r#"SUBSYSTEM=="net", ENV{ID_NET_LINK_FILE}=="/etc/*", TAG+="own-link""#
    ),
    entry!(
        "ID_NET_NAME",
        "The name that the `.link` file gives a network interface.",
        r#"SUBSYSTEM=="net", ACTION=="add", NAME=="", ENV{ID_NET_NAME}!="", NAME="$env{ID_NET_NAME}""#
    ),
    entry!(
        "ID_NET_NAME_MAC",
        "A name for a network interface by its hardware address, such as `enx0200deadbeef`.",
        r#"SUBSYSTEM=="net", ENV{ID_NET_NAME_MAC}=="enx*", TAG+="wired""#
    ),
    entry!(
        "ID_NET_NAME_ONBOARD",
        "A name for a network interface by its number on the board, such as `eno1`.",
        r#"SUBSYSTEM=="net", ENV{ID_NET_NAME_ONBOARD}=="eno1", TAG+="first""#
    ),
    entry!(
        "ID_NET_NAME_PATH",
        "A name for a network interface by where it is plugged in, such as `enp3s0`.",
        r#"SUBSYSTEM=="net", ENV{ID_NET_NAME_PATH}=="enp3s0", TAG+="card""#
    ),
    entry!(
        "ID_NET_NAME_SLOT",
        "A name for a network interface by its slot, such as `ens1`.",
        r#"SUBSYSTEM=="net", ENV{ID_NET_NAME_SLOT}=="ens1", TAG+="card""#
    ),
    entry!(
        "ID_SEAT",
        "The seat that the device belongs to; without it the device is at `seat0`.",
        r#"SUBSYSTEM=="input", ENV{ID_PATH}=="pci-0000:00:14.0-usb-0:2:*", TAG+="seat", ENV{ID_SEAT}="seat1""#
    ),
    entry!(
        "ID_FOR_SEAT",
        "A name by which a device can be given to a seat.",
        r#"TAG=="seat", ENV{ID_FOR_SEAT}=="", ENV{ID_PATH_TAG}!="", ENV{ID_FOR_SEAT}="$env{SUBSYSTEM}-$env{ID_PATH_TAG}""#
    ),
    entry!(
        "ID_MM_DEVICE_IGNORE",
        "`1` if ModemManager is to leave the device alone.",
        r#"ATTRS{idVendor}=="2341", ENV{ID_MM_DEVICE_IGNORE}="1""#
    ),
    entry!(
        "ID_AUTOSUSPEND",
        "`1` if the device may be suspended while nothing uses it.",
        r#"SUBSYSTEM=="usb", ATTR{idVendor}=="046d", ENV{ID_AUTOSUSPEND}="0""#
    ),
    entry!(
        "LIBINPUT_CALIBRATION_MATRIX",
        "Six numbers by which libinput turns and moves what a touchscreen sends.",
        r#"ENV{ID_INPUT_TOUCHSCREEN}=="1", ENV{LIBINPUT_CALIBRATION_MATRIX}="0 1 0 -1 0 1""#
    ),
    entry!(
        "LIBINPUT_IGNORE_DEVICE",
        "`1` if libinput, and so most desktops, is to leave the device alone.",
        r#"SUBSYSTEM=="input", ATTRS{name}=="Power Button", ENV{LIBINPUT_IGNORE_DEVICE}="1""#
    ),
    entry!(
        "SYSTEMD_ALIAS",
        "Further names for the unit of a device: paths with spaces between them. The device needs the tag `systemd`.",
        r#"KERNEL=="ttyUSB0", TAG+="systemd", ENV{SYSTEMD_ALIAS}="/dev/my-port""#
    ),
    entry!(
        "SYSTEMD_MOUNT_WHERE",
        "Where `systemd-mount` mounts the file system on the device.",
        r#"SUBSYSTEM=="block", ENV{ID_FS_LABEL}=="BACKUP", ENV{SYSTEMD_MOUNT_WHERE}="/mnt/backup""#
    ),
    entry!(
        "SYSTEMD_READY",
        "`0` if systemd is to take the device as not there yet. The device needs the tag `systemd`.",
        r#"SUBSYSTEM=="block", ENV{ID_FS_USAGE}=="", ENV{SYSTEMD_READY}="0""#
    ),
    entry!(
        "SYSTEMD_USER_WANTS",
        "The units that the managers of users start when the device is there. The device needs the tag `systemd`.",
        r#"SUBSYSTEM=="sound", KERNEL=="card*", TAG+="systemd", ENV{SYSTEMD_USER_WANTS}+="player.service""#
    ),
    entry!(
        "SYSTEMD_WANTS",
        "The units that systemd starts when the device is there. The device needs the tag `systemd`.",
        r#"KERNEL=="ttyUSB0", TAG+="systemd", ENV{SYSTEMD_WANTS}+="log-port.service""#
    ),
    entry!(
        "UDISKS_AUTO",
        "`1` if desktops are to mount the file system on the device by themselves, `0` if not.",
        r#"SUBSYSTEM=="block", ENV{ID_FS_LABEL}=="BACKUP", ENV{UDISKS_AUTO}="0""#
    ),
    entry!(
        "UDISKS_IGNORE",
        "`1` if UDisks, and so most desktops, is not to show the device.",
        r#"SUBSYSTEM=="block", ENV{ID_FS_LABEL}=="RECOVERY", ENV{UDISKS_IGNORE}="1""#
    ),
    entry!(
        "UDISKS_SYSTEM",
        "`1` if changing the device takes the rights of an administrator, `0` if not.",
        r#"SUBSYSTEM=="block", ENV{ID_BUS}=="usb", ENV{UDISKS_SYSTEM}="0""#
    ),
];
