//! Attributes of other devices.

use crate::entries::{Entry, entry};

/// What is told about each attribute of other devices.
pub(crate) const ATTRIBUTES: [Entry; 33] = [
    entry!(
        "address",
        "The hardware address of a network interface, in small letters with colons between.",
        r#"SUBSYSTEM=="net", ACTION=="add", ATTR{address}=="02:00:00:00:00:01", NAME="lan0""#
    ),
    entry!(
        "brightness",
        "How bright a light or a screen is, up to `max_brightness`. It can be assigned.",
        r#"SUBSYSTEM=="backlight", ATTR{brightness}="100""#
    ),
    entry!(
        "capacity",
        "How full a battery is, in percent.",
        r#"SUBSYSTEM=="power_supply", ATTR{capacity}=="[0-5]", RUN+="/usr/local/bin/battery-low""#
    ),
    entry!(
        "class",
        "The class of a PCI device: `0x` and six hexadecimal digits.",
        r#"SUBSYSTEM=="pci", ATTR{class}=="0x0c0330", ATTR{power/control}="auto""#
    ),
    entry!(
        "dev_id",
        "Which one of the network interfaces on the same device it is: `0x` and hexadecimal digits.",
        r#"SUBSYSTEM=="net", ATTR{dev_id}=="0x1", TAG+="second""#
    ),
    entry!(
        "device",
        "The device of a PCI device, by its vendor: `0x` and four hexadecimal digits.",
        r#"SUBSYSTEM=="pci", ATTR{vendor}=="0x8086", ATTR{device}=="0x1237", TAG+="bridge""#
    ),
    entry!(
        "device/model",
        "The model of a disk, as the disk tells it.",
        r#"SUBSYSTEM=="block", ATTR{device/model}=="Virtual Disk*", TAG+="virtual""#
    ),
    entry!(
        "device/vendor",
        "The vendor of a disk, as the disk tells it.",
        r#"SUBSYSTEM=="block", ATTR{device/vendor}=="Kingston*", TAG+="stick""#
    ),
    entry!(
        "id/bustype",
        "The bus of an input device: four hexadecimal digits, `0003` for USB and `0005` for Bluetooth.",
        r#"SUBSYSTEM=="input", ATTRS{id/bustype}=="0005", TAG+="wireless""#
    ),
    entry!(
        "id/product",
        "The product of an input device: four hexadecimal digits in small letters.",
        r#"SUBSYSTEM=="input", ATTRS{id/vendor}=="046d", ATTRS{id/product}=="c31c", TAG+="desk""#
    ),
    entry!(
        "id/vendor",
        "The vendor of an input device: four hexadecimal digits in small letters.",
        r#"SUBSYSTEM=="input", ATTRS{id/vendor}=="046d", ATTRS{id/product}=="c31c", TAG+="desk""#
    ),
    entry!(
        "id/version",
        "The version of an input device: four hexadecimal digits in small letters.",
        r#"SUBSYSTEM=="input", ATTRS{id/version}=="0110", TAG+="old""#
    ),
    entry!(
        "index",
        "Which one of the video nodes of a device it is: `0` is most often the picture.",
        r#"SUBSYSTEM=="video4linux", ATTR{index}=="0", SYMLINK+="video-desk""#
    ),
    entry!(
        "modalias",
        "The modalias of a device, by which its driver and its database entries are found.",
        r#"SUBSYSTEM=="usb", ATTR{modalias}=="usb:v1D6B*", TAG+="hub""#
    ),
    entry!(
        "model",
        "The model of a SCSI device, as it tells it.",
        r#"SUBSYSTEM=="block", ATTRS{model}=="Virtual Disk*", TAG+="virtual""#
    ),
    entry!(
        "mtu",
        "The size of the greatest packet of a network interface. It can be assigned.",
        r#"SUBSYSTEM=="net", KERNEL=="lan0", ATTR{mtu}="9000""#
    ),
    entry!(
        "name",
        "The name of a device, as its driver gives it.",
        r#"SUBSYSTEM=="input", ATTRS{name}=="Power Button", TAG+="power-switch""#
    ),
    entry!(
        "online",
        "Whether a mains adapter gives power, or a processor is on: `1` or `0`.",
        r#"SUBSYSTEM=="power_supply", ATTR{online}=="0", RUN+="/usr/local/bin/on-battery""#
    ),
    entry!(
        "partition",
        "The number of a partition; a whole disk has no such attribute.",
        r#"SUBSYSTEM=="block", ATTR{partition}=="1", SYMLINK+="disk/first-part""#
    ),
    entry!(
        "power/autosuspend",
        "After how many seconds without use a USB device is suspended. `power/autosuspend_delay_ms` has milliseconds. It can be \
         assigned.",
        r#"SUBSYSTEM=="usb", TEST=="power/autosuspend", ATTR{power/autosuspend}="2""#
    ),
    entry!(
        "power/control",
        "Whether the device is suspended while nothing uses it: `auto`, or `on` to leave it on. It can be assigned.",
        r#"SUBSYSTEM=="usb", ATTR{idVendor}=="046d", TEST=="power/control", ATTR{power/control}="on""#
    ),
    entry!(
        "power/wakeup",
        "Whether the device may wake the machine: `enabled` or `disabled`. It can be assigned.",
        r#"SUBSYSTEM=="usb", ATTRS{idVendor}=="046d", TEST=="power/wakeup", ATTR{power/wakeup}="disabled""#
    ),
    entry!(
        "queue/read_ahead_kb",
        "How many kilobytes of a disk are read ahead. It can be assigned.",
        r#"SUBSYSTEM=="block", KERNEL=="sd?", ATTR{queue/read_ahead_kb}="1024""#
    ),
    entry!(
        "queue/rotational",
        "Whether a disk turns: `1` or `0`. It can be assigned, for a disk that is wrong about itself.",
        r#"SUBSYSTEM=="block", ATTR{queue/rotational}=="1", ATTR{queue/scheduler}="bfq""#
    ),
    entry!(
        "queue/scheduler",
        "How the requests for a disk are ordered, such as `none`, `mq-deadline` or `bfq`. It can be assigned.",
        r#"SUBSYSTEM=="block", KERNEL=="nvme*", ATTR{queue/scheduler}="none""#
    ),
    entry!(
        "removable",
        "Whether a disk can be taken out: `1` or `0`; of a USB device `removable`, `fixed` or `unknown`.",
        r#"SUBSYSTEM=="block", ATTR{removable}=="1", TAG+="medium""#
    ),
    entry!(
        "ro",
        "Whether a disk is read-only: `1` or `0`.",
        r#"SUBSYSTEM=="block", ATTR{ro}=="1", TAG+="read-only""#
    ),
    entry!(
        "size",
        "The size of a disk or a partition, in sectors of 512 bytes; `0` if no medium is in.",
        r#"SUBSYSTEM=="block", ATTR{size}!="0", TAG+="medium""#
    ),
    entry!(
        "soft",
        "Whether a radio is switched off by a program: `1` or `0`. It can be assigned.",
        r#"SUBSYSTEM=="rfkill", ATTR{type}=="bluetooth", ATTR{soft}="1""#
    ),
    entry!(
        "subsystem_device",
        "The device that the maker of a PCI card gives it: `0x` and four hexadecimal digits.",
        r#"SUBSYSTEM=="pci", ATTR{subsystem_vendor}=="0x17aa", ATTR{subsystem_device}=="0x2245", TAG+="built-in""#
    ),
    entry!(
        "subsystem_vendor",
        "The maker of a PCI card: `0x` and four hexadecimal digits.",
        r#"SUBSYSTEM=="pci", ATTR{subsystem_vendor}=="0x17aa", ATTR{subsystem_device}=="0x2245", TAG+="built-in""#
    ),
    entry!(
        "type",
        "What a device is, as its driver says: of a network interface a number, of a power supply `Mains` or `Battery`.",
        r#"SUBSYSTEM=="power_supply", ATTR{type}=="Mains", ATTR{online}=="1", RUN+="/usr/local/bin/on-mains""#
    ),
    entry!(
        "vendor",
        "The vendor: of a PCI device `0x` and four hexadecimal digits, of a SCSI device a name.",
        r#"SUBSYSTEM=="pci", ATTR{vendor}=="0x10de", ATTR{power/control}="auto""#
    ),
];
