//! How the matches of database files begin.

use crate::entries::{Entry, entry};

/// What is told about each beginning of a match; one that begins another comes behind it.
pub(crate) const MATCHES: [Entry; 29] = [
    entry!(
        "usb:",
        "USB devices and interfaces: `v` and the vendor, `p` and the product, each in four hexadecimal digits in capitals.",
        "usb:v1D6Bp0002*"
    ),
    entry!(
        "pci:",
        "PCI devices: `v` and the vendor, `d` and the device, `sv` and `sd` for the subsystem, each in eight hexadecimal digits in \
         capitals.",
        "pci:v00008086d00001237*"
    ),
    entry!(
        "OUI:",
        "The maker of a network interface or a Bluetooth adapter, by the first digits of its address, in capitals.",
        "OUI:00059A*"
    ),
    entry!(
        "acpi:",
        "Devices that the firmware names: their identifier, and a colon.",
        "acpi:PNP0C0A:*"
    ),
    entry!(
        "bluetooth:",
        "Bluetooth devices: `v` and the company, `p` and the product, each in four hexadecimal digits in capitals.",
        "bluetooth:v000Ap0001*"
    ),
    entry!(
        "sdio:",
        "SDIO cards: `c` and the class, `v` and the vendor, `d` and the device, in hexadecimal digits in capitals.",
        "sdio:c*v02D0d4329*"
    ),
    entry!(
        "vmbus:",
        "Devices that Hyper-V gives a virtual machine: their class, in 32 hexadecimal digits in small letters.",
        "vmbus:635161f83edfc546913ff2d2f965ed0e*"
    ),
    entry!(
        "dmi:",
        "The machine, by what its firmware tells: `svn` and the vendor, `pn` and the product, each up to a colon.",
        "dmi:*:svnLENOVO*:pn*:*"
    ),
    entry!(
        "evdev:name:",
        "An input device by its name and by the machine, for `KEYBOARD_KEY_*` and `EVDEV_ABS_*`.",
        "evdev:name:Asus WMI hotkeys:dmi:bvn*:bvr*:bd*:svnASUS*:pn*:*"
    ),
    entry!(
        "evdev:atkbd:",
        "The keyboard that is built into a machine, by the machine, for `KEYBOARD_KEY_*`.",
        "evdev:atkbd:dmi:bvn*:bvr*:bd*:svnAcer*:pn*:*"
    ),
    entry!(
        "evdev:input:",
        "An input device by its bus, vendor and product: `b`, `v` and `p`, each with four hexadecimal digits in capitals.",
        "evdev:input:b0003v046DpC31C*"
    ),
    entry!(
        "id-input:modalias:",
        "An input device by its modalias, whose kind the database corrects: `ID_INPUT_*`.",
        "id-input:modalias:input:b0003v5543p0081*"
    ),
    entry!(
        "id-input:",
        "An input device by its bus, vendor and product, in small letters, and by its name, whose kind the database corrects: \
         `ID_INPUT_*`.",
        "id-input:usb:v28bdp0905:name:*:"
    ),
    entry!(
        "mouse:usb:",
        "A mouse on USB: `v` and the vendor, `p` and the product, each in four hexadecimal digits in small letters, and its name.",
        "mouse:usb:v046dpc52b:name:*:"
    ),
    entry!(
        "mouse:bluetooth:",
        "A mouse with Bluetooth: `v` and the vendor, `p` and the product, each in four hexadecimal digits in small letters, and its \
         name.",
        "mouse:bluetooth:v046dpb016:name:*:"
    ),
    entry!(
        "mouse:",
        "A mouse by its bus, vendor and product, and by its name; it ends in a colon.",
        "mouse:*:name:*[tT]rack[bB]all*:*"
    ),
    entry!(
        "touchpad:usb:",
        "A touchpad on USB: `v` and the vendor, `p` and the product, each in four hexadecimal digits in small letters, and its name.",
        "touchpad:usb:v056ap*:name:*:"
    ),
    entry!(
        "touchpad:",
        "A touchpad by its bus, vendor and product, and by its name; it ends in a colon.",
        "touchpad:i8042:*:name:*:"
    ),
    entry!(
        "joystick:usb:",
        "A joystick on USB: `v` and the vendor, `p` and the product, each in four hexadecimal digits in small letters, and its name.",
        "joystick:usb:v28dep1142:name:*:"
    ),
    entry!(
        "joystick:",
        "A joystick by its bus, vendor and product, and by its name; it ends in a colon.",
        "joystick:*:name:*:"
    ),
    entry!(
        "sensor:modalias:",
        "A sensor by its modalias and by the machine, mostly for `ACCEL_MOUNT_MATRIX`.",
        "sensor:modalias:acpi:KIOX000A*:dmi:*:svnAcer*:pn*:*"
    ),
    entry!(
        "sensor:",
        "A sensor, such as one for acceleration, by its modalias or name and by the machine.",
        "sensor:modalias:platform:lis3lv02d:dmi:*svnHewlett-Packard*:pn*:*"
    ),
    entry!(
        "camera:usb:",
        "A camera on USB: `v` and the vendor, `p` and the product, each in four hexadecimal digits in small letters.",
        "camera:usb:v0bdap58f4:name:*:"
    ),
    entry!(
        "ieee1394:",
        "FireWire devices: `node:ven` and the vendor, `mo` and the model, then their units.",
        "ieee1394:node:ven0x00a02dmo0x102800units*"
    ),
    entry!(
        "net:naming:",
        "A network interface by its driver, behind `dr`, for the properties that say which names it may get.",
        "net:naming:drvirtio_net:*"
    ),
    entry!(
        "virtio:",
        "Devices that a virtual machine has from its host: `d` and the device, `v` and the vendor, each in eight hexadecimal digits.",
        "virtio:d00000001v*"
    ),
    entry!(
        "platform:",
        "Devices that are fixed parts of the machine, by their name.",
        "platform:lis3lv02d*"
    ),
    entry!(
        "hid:",
        "Human interface devices: `b` and the bus, `g` and the group in four hexadecimal digits, `v` and the vendor, `p` and the \
         product in eight, all in capitals.",
        "hid:b0003g*v0000046Dp0000C52B"
    ),
    entry!(
        "input:",
        "Input devices by the kernel's modalias: `b` and the bus, `v` and the vendor, `p` and the product, each in four hexadecimal \
         digits in capitals.",
        "input:b0003v046DpC31C*"
    ),
];
