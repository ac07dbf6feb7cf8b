//! The other properties of database files.

use crate::entries::{Entry, entry};

/// What is told about each of these properties.
pub(crate) const DATABASE: [Entry; 31] = [
    entry!(
        "ID_INTEGRATION",
        "Whether a device is part of the machine: `internal` or `external`.",
        " ID_INTEGRATION=internal"
    ),
    entry!(
        "ID_VENDOR_FROM_DATABASE",
        "The name of the vendor, by the vendor's number.",
        " ID_VENDOR_FROM_DATABASE=Linux Foundation"
    ),
    entry!(
        "ID_MODEL_FROM_DATABASE",
        "The name of the model, by the numbers of vendor and model.",
        " ID_MODEL_FROM_DATABASE=2.0 root hub"
    ),
    entry!(
        "ID_OUI_FROM_DATABASE",
        "The maker of a network interface or a Bluetooth adapter, by its address.",
        " ID_OUI_FROM_DATABASE=Cisco Systems, Inc"
    ),
    entry!(
        "ID_USB_CLASS_FROM_DATABASE",
        "The name of the class of a USB device.",
        " ID_USB_CLASS_FROM_DATABASE=Audio"
    ),
    entry!(
        "ID_PCI_CLASS_FROM_DATABASE",
        "The name of the class of a PCI device.",
        " ID_PCI_CLASS_FROM_DATABASE=Network controller"
    ),
    entry!(
        "ID_AUTOSUSPEND",
        "Whether the device may be suspended while nothing uses it: `1` or `0`.",
        " ID_AUTOSUSPEND=1"
    ),
    entry!(
        "ID_AUTOSUSPEND_DELAY_MS",
        "After how many milliseconds without use the device is suspended.",
        " ID_AUTOSUSPEND_DELAY_MS=2000"
    ),
    entry!(
        "ID_PERSIST",
        "Whether a USB device is taken for the same one after the machine slept: `1` or `0`.",
        " ID_PERSIST=0"
    ),
    entry!(
        "ID_TAG_MASTER_OF_SEAT",
        "Whether a device makes its seat usable, as a graphics card does: `1` or `0`.",
        " ID_TAG_MASTER_OF_SEAT=1"
    ),
    entry!(
        "ID_INFRARED_CAMERA",
        "Whether a camera sees infrared light, so that it is not offered for calls: `1` or `0`.",
        " ID_INFRARED_CAMERA=1"
    ),
    entry!(
        "ID_CAMERA_DIRECTION",
        "Where a camera that is part of the machine looks: `front` or `rear`.",
        " ID_CAMERA_DIRECTION=front"
    ),
    entry!(
        "ID_SIGNAL_ANALYZER",
        "Whether a device analyzes signals, so that the user of the seat may open it: `1` or `0`.",
        " ID_SIGNAL_ANALYZER=1"
    ),
    entry!(
        "ID_HARDWARE_WALLET",
        "Whether a device keeps keys of money, so that the user of the seat may open it: `1` or `0`.",
        " ID_HARDWARE_WALLET=1"
    ),
    entry!(
        "ID_SOFTWARE_RADIO",
        "Whether a device is a radio that programs control, so that the user of the seat may open it: `1` or `0`.",
        " ID_SOFTWARE_RADIO=1"
    ),
    entry!(
        "ID_MAKER_TOOL",
        "Whether a device is a tool such as a cutter or a 3D printer, so that the user of the seat may open it: `1` or `0`.",
        " ID_MAKER_TOOL=1"
    ),
    entry!(
        "ID_AV_PRODUCTION_CONTROLLER",
        "Whether a device controls the production of video or sound, so that the user of the seat may open it: `1` or `0`.",
        " ID_AV_PRODUCTION_CONTROLLER=1"
    ),
    entry!(
        "ID_AV_LIGHTS",
        "Whether a device controls lights for video or a stage, so that the user of the seat may open it: `1` or `0`.",
        " ID_AV_LIGHTS=1"
    ),
    entry!(
        "ID_PDA",
        "Whether a device is a small computer for the hand, so that the user of the seat may open it: `1` or `0`.",
        " ID_PDA=1"
    ),
    entry!(
        "ID_MM_DEVICE_IGNORE",
        "Whether ModemManager is to leave a device alone: `1` or `0`.",
        " ID_MM_DEVICE_IGNORE=1"
    ),
    entry!(
        "ID_MM_DEVICE_MANUAL_SCAN_ONLY",
        "Whether ModemManager is to look at a device only if it is asked to: `1` or `0`.",
        " ID_MM_DEVICE_MANUAL_SCAN_ONLY=1"
    ),
    entry!(
        "ID_NET_NAME_FROM_DATABASE",
        "The name that a network interface is to have.",
        " ID_NET_NAME_FROM_DATABASE=idrac"
    ),
    entry!(
        "ID_NET_NAME_INCLUDE_DOMAIN",
        "Whether the names of network interfaces have the domain of their PCI device: `1` or `0`.",
        " ID_NET_NAME_INCLUDE_DOMAIN=1"
    ),
    entry!(
        "ID_NET_NAME_ALLOW",
        "Whether names for a network interface are made up at all: `1` or `0`.",
        " ID_NET_NAME_ALLOW=0"
    ),
    entry!(
        "SOUND_FORM_FACTOR",
        "What a sound card is: `handset`, `headphone`, `headset`, `internal`, `microphone`, `speaker` or `webcam`.",
        " SOUND_FORM_FACTOR=headset"
    ),
    entry!(
        "XKB_FIXED_LAYOUT",
        "The layout that a keyboard always has, because it sends other keys than others do.",
        " XKB_FIXED_LAYOUT=us"
    ),
    entry!(
        "XKB_FIXED_MODEL",
        "The model that a keyboard always is.",
        " XKB_FIXED_MODEL=pc105"
    ),
    entry!(
        "XKB_FIXED_VARIANT",
        "The variant of its layout that a keyboard always has.",
        " XKB_FIXED_VARIANT="
    ),
    entry!(
        "IEEE1394_UNIT_FUNCTION_AUDIO",
        "Whether a FireWire unit is for sound: `1` or `0`.",
        " IEEE1394_UNIT_FUNCTION_AUDIO=1"
    ),
    entry!(
        "IEEE1394_UNIT_FUNCTION_MIDI",
        "Whether a FireWire unit is for MIDI: `1` or `0`.",
        " IEEE1394_UNIT_FUNCTION_MIDI=1"
    ),
    entry!(
        "IEEE1394_UNIT_FUNCTION_VIDEO",
        "Whether a FireWire unit is for video: `1` or `0`.",
        " IEEE1394_UNIT_FUNCTION_VIDEO=1"
    ),
];
