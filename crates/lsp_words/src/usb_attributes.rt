//! Attributes of USB devices and of their interfaces.

use crate::entries::{Entry, entry};

/// What is told about each attribute of a USB device.
pub(crate) const USB_ATTRIBUTES: [Entry; 23] = [
    entry!(
        "idVendor",
        "The vendor of a USB device: four hexadecimal digits in small letters.",
        r#"SUBSYSTEM=="usb", ATTR{idVendor}=="046d", ATTR{idProduct}=="c52b", TAG+="receiver""#
    ),
    entry!(
        "idProduct",
        "The product of a USB device, by its vendor: four hexadecimal digits in small letters.",
        r#"SUBSYSTEM=="usb", ATTR{idVendor}=="046d", ATTR{idProduct}=="c52b", TAG+="receiver""#
    ),
    entry!(
        "bcdDevice",
        "The version of a USB device: four digits.",
        r#"SUBSYSTEM=="usb", ATTR{idVendor}=="0403", ATTR{bcdDevice}=="0600", TAG+="old""#
    ),
    entry!(
        "bDeviceClass",
        "The class of a USB device: two hexadecimal digits, `00` if each interface has its own.",
        r#"SUBSYSTEM=="usb", ENV{DEVTYPE}=="usb_device", ATTR{bDeviceClass}=="09", TAG+="hub""#
    ),
    entry!(
        "bDeviceSubClass",
        "The subclass of a USB device: two hexadecimal digits.",
        r#"SUBSYSTEM=="usb", ATTR{bDeviceClass}=="ef", ATTR{bDeviceSubClass}=="02", TAG+="several""#
    ),
    entry!(
        "bDeviceProtocol",
        "The protocol of a USB device: two hexadecimal digits.",
        r#"SUBSYSTEM=="usb", ATTR{bDeviceClass}=="09", ATTR{bDeviceProtocol}=="03", TAG+="fast-hub""#
    ),
    entry!(
        "bNumConfigurations",
        "How many configurations a USB device has.",
        r#"SUBSYSTEM=="usb", ATTR{bNumConfigurations}!="1", TAG+="switchable""#
    ),
    entry!(
        "bNumInterfaces",
        "How many interfaces a USB device has in its configuration. The kernel writes two characters, the first of which may be a \
         space.",
        r#"SUBSYSTEM=="usb", ATTR{bNumInterfaces}==" 1", TAG+="simple""#
    ),
    entry!(
        "bInterfaceNumber",
        "The number of an interface of a USB device: two hexadecimal digits. It is an attribute of the interface, not of the device.",
        r#"SUBSYSTEM=="tty", ATTRS{bInterfaceNumber}=="01", ENV{.PORT}="second""#
    ),
    entry!(
        "bInterfaceClass",
        "The class of an interface of a USB device: two hexadecimal digits, `03` for input, `08` for storage, `0e` for video.",
        r#"SUBSYSTEM=="usb", ATTR{bInterfaceClass}=="08", TAG+="storage""#
    ),
    entry!(
        "bInterfaceSubClass",
        "The subclass of an interface of a USB device: two hexadecimal digits.",
        r#"SUBSYSTEM=="usb", ATTR{bInterfaceClass}=="03", ATTR{bInterfaceSubClass}=="01", TAG+="boot-input""#
    ),
    entry!(
        "bInterfaceProtocol",
        "The protocol of an interface of a USB device: two hexadecimal digits, of an input device `01` for a keyboard and `02` for a \
         mouse.",
        r#"SUBSYSTEM=="usb", ATTR{bInterfaceClass}=="03", ATTR{bInterfaceProtocol}=="02", TAG+="mouse""#
    ),
    entry!(
        "bAlternateSetting",
        "The setting of an interface of a USB device that is in use. The kernel writes two characters, the first of which may be a \
         space.",
        r#"SUBSYSTEM=="usb", ATTR{bAlternateSetting}==" 0", TAG+="idle""#
    ),
    entry!(
        "bNumEndpoints",
        "How many endpoints an interface of a USB device has: two hexadecimal digits.",
        r#"SUBSYSTEM=="usb", ATTR{bNumEndpoints}=="00", TAG+="idle""#
    ),
    entry!(
        "bConfigurationValue",
        "The number of the configuration that a USB device is in. It can be assigned.",
        r#"SUBSYSTEM=="usb", ATTR{idVendor}=="12d1", ATTR{bConfigurationValue}!="2", ATTR{bConfigurationValue}="2""#
    ),
    entry!(
        "bMaxPower",
        "How much current a USB device may take, with its unit.",
        r#"SUBSYSTEM=="usb", ATTR{bMaxPower}=="500mA", TAG+="hungry""#
    ),
    entry!(
        "authorized",
        "Whether a USB device may be used: `1` or `0`. It can be assigned.",
        r#"SUBSYSTEM=="usb", ATTR{idVendor}=="dead", ATTR{authorized}="0""#
    ),
    entry!(
        "busnum",
        "The number of the bus on which a USB device is.",
        r#"SUBSYSTEM=="usb", ATTR{busnum}=="1", ATTR{devnum}=="1", TAG+="first-hub""#
    ),
    entry!(
        "devnum",
        "The number of a USB device on its bus.",
        r#"SUBSYSTEM=="usb", ATTR{busnum}=="1", ATTR{devnum}=="1", TAG+="first-hub""#
    ),
    entry!(
        "manufacturer",
        "The manufacturer of a USB device, as the device tells it.",
        r#"SUBSYSTEM=="tty", ATTRS{manufacturer}=="FTDI", TAG+="adapter""#
    ),
    entry!(
        "product",
        "The product of a USB device, as the device tells it.",
        r#"SUBSYSTEM=="tty", ATTRS{product}=="FT232R USB UART", SYMLINK+="ttyMINE""#
    ),
    entry!(
        "serial",
        "The serial number of a USB device, as the device tells it. Many have none.",
        r#"SUBSYSTEM=="tty", ATTRS{serial}=="A50285BI", SYMLINK+="ttyMINE""#
    ),
    entry!(
        "speed",
        "How fast a USB device or a network interface is, in megabits in a second.",
        r#"SUBSYSTEM=="usb", ATTR{speed}=="12", TAG+="slow""#
    ),
];
