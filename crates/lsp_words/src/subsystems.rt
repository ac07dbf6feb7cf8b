//! Subsystems of the kernel that rules look at.

use crate::entries::{Entry, entry};

/// What is told about each subsystem.
pub(crate) const SUBSYSTEMS: [Entry; 36] = [
    entry!(
        "backlight",
        "The lights behind screens. They have no node: brightness is an attribute.",
        r#"SUBSYSTEM=="backlight", ATTR{brightness}="100""#
    ),
    entry!(
        "block",
        "Disks and their partitions, and all else that holds blocks, as loop devices and RAIDs.",
        r#"SUBSYSTEM=="block", KERNEL=="sd[a-z]", SYMLINK+="disk/mine/%k""#
    ),
    entry!(
        "bluetooth",
        "Bluetooth adapters and connections.",
        r#"SUBSYSTEM=="bluetooth", KERNEL=="hci0", TAG+="systemd""#
    ),
    entry!(
        "cpu",
        "Processors.",
        r#"SUBSYSTEM=="cpu", ACTION=="add", TEST=="online", ATTR{online}="1""#
    ),
    entry!(
        "dmi",
        "What the firmware tells about the machine, such as its vendor and model.",
        r#"SUBSYSTEM=="dmi", ATTR{sys_vendor}=="QEMU", TAG+="guest""#
    ),
    entry!(
        "drm",
        "Graphics cards and their outputs.",
        r#"SUBSYSTEM=="drm", KERNEL=="card[0-9]", TAG+="seat""#
    ),
    entry!(
        "firmware",
        "Requests of drivers for firmware.",
        r#"SUBSYSTEM=="firmware", ACTION=="add", TAG+="wanted""#
    ),
    entry!(
        "graphics",
        "Frame buffers, such as `fb0`.",
        r#"SUBSYSTEM=="graphics", KERNEL=="fb0", GROUP="video""#
    ),
    entry!(
        "hid",
        "Human interface devices, such as keyboards, mice and gamepads, on whatever bus. Their nodes are in `input` and `hidraw`.",
        r#"SUBSYSTEM=="hid", DRIVER=="hid-generic", TAG+="generic""#
    ),
    entry!(
        "hidraw",
        "Raw access to human interface devices, which security keys and tools for keyboards use.",
        r#"SUBSYSTEM=="hidraw", ATTRS{idVendor}=="1050", TAG+="uaccess""#
    ),
    entry!(
        "hwmon",
        "Sensors of the hardware: temperatures, fans, voltages.",
        r#"SUBSYSTEM=="hwmon", ATTR{name}=="coretemp", TAG+="systemd""#
    ),
    entry!(
        "i2c",
        "Devices on an I2C bus.",
        r#"SUBSYSTEM=="i2c", ATTR{name}=="ds1307", TAG+="clock""#
    ),
    entry!(
        "i2c-dev",
        "I2C buses themselves, as programs open them.",
        r#"SUBSYSTEM=="i2c-dev", GROUP="i2c", MODE="0660""#
    ),
    entry!(
        "iio",
        "Sensors with measured values, such as those for acceleration and light.",
        r#"SUBSYSTEM=="iio", KERNEL=="iio:device*", TAG+="systemd""#
    ),
    entry!(
        "input",
        "Keyboards, mice, touchpads and other input devices, and the nodes `event0` and so on by which programs read them.",
        r#"SUBSYSTEM=="input", KERNEL=="event*", ENV{ID_INPUT_JOYSTICK}=="1", TAG+="uaccess""#
    ),
    entry!(
        "leds",
        "Lights, such as those of keyboards.",
        r#"SUBSYSTEM=="leds", KERNEL=="*::scrolllock", ATTR{trigger}="none""#
    ),
    entry!(
        "mem",
        "Nodes of the kernel itself, such as `/dev/null` and `/dev/mem`.",
        r#"SUBSYSTEM=="mem", KERNEL=="mem", GROUP="kmem", MODE="0640""#
    ),
    entry!(
        "misc",
        "Nodes that belong to nothing else, such as `kvm`, `fuse` and `uinput`.",
        r#"SUBSYSTEM=="misc", KERNEL=="kvm", GROUP="kvm", MODE="0660""#
    ),
    entry!(
        "mmc",
        "Cards of the types SD and eMMC. Their disks are in `block`.",
        r#"SUBSYSTEM=="mmc", ATTR{type}=="SD", TAG+="card""#
    ),
    entry!(
        "module",
        "Modules of the kernel, when they are loaded and taken away.",
        r#"SUBSYSTEM=="module", KERNEL=="nf_conntrack", ACTION=="add", SYSCTL{net/netfilter/nf_conntrack_max}="262144""#
    ),
    entry!(
        "net",
        "Network interfaces. They have no node; `NAME` renames them.",
        r#"SUBSYSTEM=="net", ACTION=="add", ATTR{address}=="02:00:00:00:00:01", NAME="lan0""#
    ),
    entry!(
        "nvme",
        "Controllers of NVMe disks. The disks are in `block`.",
        r#"SUBSYSTEM=="nvme", KERNEL=="nvme[0-9]*", TAG+="systemd""#
    ),
    entry!(
        "pci",
        "Devices on the PCI bus, which are the parents of most others.",
        r#"SUBSYSTEM=="pci", ATTR{vendor}=="0x8086", ATTR{power/control}="auto""#
    ),
    entry!(
        "platform",
        "Devices that are fixed parts of the machine.",
        r#"SUBSYSTEM=="platform", KERNEL=="thinkpad_acpi", TAG+="systemd""#
    ),
    entry!(
        "power_supply",
        "Batteries and mains adapters.",
        r#"SUBSYSTEM=="power_supply", ATTR{type}=="Mains", ATTR{online}=="0", RUN+="/usr/local/bin/on-battery""#
    ),
    entry!(
        "rfkill",
        "Switches for radios.",
        r#"SUBSYSTEM=="rfkill", ATTR{type}=="bluetooth", ATTR{soft}="1""#
    ),
    entry!(
        "rtc",
        "Clocks that run while the machine is off.",
        r#"SUBSYSTEM=="rtc", ATTR{hctosys}=="1", SYMLINK+="rtc""#
    ),
    entry!(
        "scsi",
        "SCSI devices, and disks that the kernel treats as such: those on SATA and USB, too. Their nodes are in `block`.",
        r#"SUBSYSTEM=="scsi", ATTR{vendor}=="ATA", ATTR{timeout}="60""#
    ),
    entry!(
        "sound",
        "Sound cards and their parts.",
        r#"SUBSYSTEM=="sound", KERNEL=="card*", ATTRS{idVendor}=="0d8c", ATTR{id}="Speaker""#
    ),
    entry!(
        "tpm",
        "Security chips that hold keys.",
        r#"SUBSYSTEM=="tpm", KERNEL=="tpm[0-9]*", OWNER="tss", MODE="0660""#
    ),
    entry!(
        "tty",
        "Terminals and serial ports, also those of adapters: `ttyS0`, `ttyUSB0`, `ttyACM0`.",
        r#"SUBSYSTEM=="tty", KERNEL=="ttyUSB*", ATTRS{serial}=="A50285BI", SYMLINK+="ttyMINE""#
    ),
    entry!(
        "usb",
        "USB devices and their interfaces: `ENV{DEVTYPE}` tells them apart, as `usb_device` and `usb_interface`.",
        r#"SUBSYSTEM=="usb", ENV{DEVTYPE}=="usb_device", ATTR{idVendor}=="04b8", GROUP="scanner""#
    ),
    entry!(
        "usbmisc",
        "Nodes of drivers for USB devices that belong to nothing else, such as old printers and modems.",
        r#"SUBSYSTEM=="usbmisc", KERNEL=="lp*", GROUP="lp""#
    ),
    entry!(
        "video4linux",
        "Cameras and other sources and sinks of video.",
        r#"SUBSYSTEM=="video4linux", ATTR{index}=="0", ATTRS{idVendor}=="046d", SYMLINK+="video-desk""#
    ),
    entry!(
        "virtio",
        "Devices that a virtual machine has from its host.",
        r#"SUBSYSTEM=="virtio", DRIVER=="virtio_net", TAG+="guest""#
    ),
    entry!(
        "watchdog",
        "Timers that restart the machine unless a program keeps them from it.",
        r#"SUBSYSTEM=="watchdog", KERNEL=="watchdog0", TAG+="systemd""#
    ),
];
