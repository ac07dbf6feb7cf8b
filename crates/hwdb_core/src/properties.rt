//! The values that properties take, by their names.
//!
//! Taken on 28 November 2026 from the comments in the files of hwdb.d of systemd 252 and from the check that systemd
//! 257 makes of its own files (`hwdb.d/parse_hwdb.py`). A property that is in none of these tables takes any value.

/// Properties that are `1` or `0`.
pub(crate) const FLAGS: [&[u8]; 28] = [
    b"ID_AUTOSUSPEND",
    b"ID_AV_LIGHTS",
    b"ID_AV_PRODUCTION_CONTROLLER",
    b"ID_BOARD_VERSION_IS_RUBBISH",
    b"ID_CHASSIS_ASSET_TAG_IS_RUBBISH",
    b"ID_HARDWARE_WALLET",
    b"ID_INFRARED_CAMERA",
    b"ID_INPUT_3D_MOUSE",
    b"ID_MAKER_TOOL",
    b"ID_MM_DEVICE_IGNORE",
    b"ID_MM_DEVICE_MANUAL_SCAN_ONLY",
    b"ID_NET_NAME_INCLUDE_DOMAIN",
    b"ID_PDA",
    b"ID_PERSIST",
    b"ID_PRODUCT_NAME_IS_RUBBISH",
    b"ID_PRODUCT_SKU_IS_RUBBISH",
    b"ID_PRODUCT_VERSION_IS_RUBBISH",
    b"ID_SIGNAL_ANALYZER",
    b"ID_SOFTWARE_RADIO",
    b"ID_SYS_VENDOR_IS_RUBBISH",
    b"ID_TAG_MASTER_OF_SEAT",
    b"IEEE1394_UNIT_FUNCTION_AUDIO",
    b"IEEE1394_UNIT_FUNCTION_MIDI",
    b"IEEE1394_UNIT_FUNCTION_VIDEO",
    b"KEYBOARD_LED_CAPSLOCK",
    b"KEYBOARD_LED_NUMLOCK",
    b"ID_NET_AUTO_LINK_LOCAL_ONLY",
    b"TPM2_BROKEN_NVPCR",
];

/// Properties that are `1` or `0`, or empty, which takes away what `input_id` found.
pub(crate) const INPUT_FLAGS: [&[u8]; 13] = [
    b"ID_INPUT",
    b"ID_INPUT_ACCELEROMETER",
    b"ID_INPUT_JOYSTICK",
    b"ID_INPUT_KEY",
    b"ID_INPUT_KEYBOARD",
    b"ID_INPUT_MOUSE",
    b"ID_INPUT_POINTINGSTICK",
    b"ID_INPUT_SWITCH",
    b"ID_INPUT_TABLET",
    b"ID_INPUT_TABLET_PAD",
    b"ID_INPUT_TOUCHPAD",
    b"ID_INPUT_TOUCHSCREEN",
    b"ID_INPUT_TRACKBALL",
];

/// Properties that are a whole number.
pub(crate) const NUMBERS: [&[u8]; 7] = [
    b"ID_AUTOSUSPEND_DELAY_MS",
    b"MOUSE_WHEEL_CLICK_ANGLE",
    b"MOUSE_WHEEL_CLICK_ANGLE_HORIZONTAL",
    b"MOUSE_WHEEL_CLICK_COUNT",
    b"MOUSE_WHEEL_CLICK_COUNT_HORIZONTAL",
    b"POINTINGSTICK_SENSITIVITY",
    b"PROXIMITY_NEAR_LEVEL",
];

/// Properties that name a layout, a variant or a model of a keyboard.
pub(crate) const LAYOUTS: [&[u8]; 3] = [
    b"XKB_FIXED_LAYOUT",
    b"XKB_FIXED_MODEL",
    b"XKB_FIXED_VARIANT",
];

/// A property and the words that it takes.
pub(crate) type Choice = (&'static [u8], &'static [&'static [u8]]);

/// Properties that are one of some words.
pub(crate) const CHOICES: [Choice; 6] = [
    (b"ACCEL_LOCATION", &[b"base", b"display"]),
    (b"ID_CAMERA_DIRECTION", &[b"front", b"rear"]),
    (
        b"ID_INPUT_JOYSTICK_INTEGRATION",
        &[b"external", b"internal"],
    ),
    (
        b"ID_INPUT_TOUCHPAD_INTEGRATION",
        &[b"external", b"internal"],
    ),
    (b"ID_INTEGRATION", &[b"external", b"internal"]),
    (
        b"SOUND_FORM_FACTOR",
        // (`controller` is of systemd 262)
        &[
            b"controller",
            b"handset",
            b"headphone",
            b"headset",
            b"internal",
            b"microphone",
            b"speaker",
            b"webcam",
        ],
    ),
];
