//! The properties of database files that are about input devices and sensors.

use crate::entries::{Entry, entry};

/// What is told about each of these properties; one that begins another comes behind it.
pub(crate) const INPUT_DATABASE: [Entry; 30] = [
    entry!(
        "KEYBOARD_KEY_",
        "The key that a scan code stands for: the code follows in hexadecimal digits in small letters, and the value is the kernel's \
         name of the key, without `KEY_` and in small letters. A `!` before it says that the keyboard does not tell when the key is released.",
        " KEYBOARD_KEY_70039=leftctrl"
    ),
    entry!(
        "KEYBOARD_LED_NUMLOCK",
        "Whether the keyboard has a light for Num Lock: `1` or `0`.",
        " KEYBOARD_LED_NUMLOCK=0"
    ),
    entry!(
        "KEYBOARD_LED_CAPSLOCK",
        "Whether the keyboard has a light for Caps Lock: `1` or `0`.",
        " KEYBOARD_LED_CAPSLOCK=0"
    ),
    entry!(
        "EVDEV_ABS_",
        "An axis of an input device: its number follows in two hexadecimal digits, and the value is its least and greatest value, its \
         resolution, its noise and its flatness with colons between, each of which may be left out.",
        " EVDEV_ABS_00=0:4000:40"
    ),
    entry!(
        "MOUSE_DPI",
        "How many counts a mouse sends for an inch, perhaps with `@` and how often it sends in a second. The one with a `*` is the \
         default.",
        " MOUSE_DPI=400@125 *800@125 1600@125"
    ),
    entry!(
        "MOUSE_WHEEL_CLICK_ANGLE",
        "By how many degrees the wheel turns from one click to the next.",
        " MOUSE_WHEEL_CLICK_ANGLE=15"
    ),
    entry!(
        "MOUSE_WHEEL_CLICK_ANGLE_HORIZONTAL",
        "By how many degrees the horizontal wheel turns from one click to the next.",
        " MOUSE_WHEEL_CLICK_ANGLE_HORIZONTAL=26"
    ),
    entry!(
        "MOUSE_WHEEL_CLICK_COUNT",
        "How many clicks a whole turn of the wheel has.",
        " MOUSE_WHEEL_CLICK_COUNT=24"
    ),
    entry!(
        "MOUSE_WHEEL_CLICK_COUNT_HORIZONTAL",
        "How many clicks a whole turn of the horizontal wheel has.",
        " MOUSE_WHEEL_CLICK_COUNT_HORIZONTAL=14"
    ),
    entry!(
        "POINTINGSTICK_SENSITIVITY",
        "How sensitive a pointing stick is made: a number, which is written to its attribute `sensitivity`.",
        " POINTINGSTICK_SENSITIVITY=200"
    ),
    entry!(
        "POINTINGSTICK_CONST_ACCEL",
        "By how much the motion of a pointing stick is multiplied.",
        " POINTINGSTICK_CONST_ACCEL=0.5"
    ),
    entry!(
        "ACCEL_MOUNT_MATRIX",
        "How a sensor for acceleration is mounted: a matrix with `,` between numbers and `;` between rows.",
        " ACCEL_MOUNT_MATRIX=0, 1, 0; -1, 0, 0; 0, 0, 1"
    ),
    entry!(
        "ACCEL_LOCATION",
        "Where a sensor for acceleration is: `display` or `base`.",
        " ACCEL_LOCATION=display"
    ),
    entry!(
        "PROXIMITY_NEAR_LEVEL",
        "From which value on a sensor for proximity has something near.",
        " PROXIMITY_NEAR_LEVEL=200"
    ),
    entry!(
        "ID_INPUT_ACCELEROMETER",
        "Whether an input device is a sensor for acceleration: `1`, or `0` or nothing if udev is wrong about it.",
        " ID_INPUT_ACCELEROMETER=1"
    ),
    entry!(
        "ID_INPUT_JOYSTICK_INTEGRATION",
        "Whether a joystick is part of the machine: `internal` or `external`.",
        " ID_INPUT_JOYSTICK_INTEGRATION=internal"
    ),
    entry!(
        "ID_INPUT_JOYSTICK",
        "Whether an input device is a joystick or a gamepad: `1`, or `0` or nothing if udev is wrong about it.",
        " ID_INPUT_JOYSTICK=1"
    ),
    entry!(
        "ID_INPUT_KEYBOARD",
        "Whether an input device is a whole keyboard: `1`, or `0` or nothing if udev is wrong about it.",
        " ID_INPUT_KEYBOARD=0"
    ),
    entry!(
        "ID_INPUT_KEY",
        "Whether an input device has keys: `1`, or `0` or nothing if udev is wrong about it.",
        " ID_INPUT_KEY=1"
    ),
    entry!(
        "ID_INPUT_MOUSE",
        "Whether an input device is a mouse: `1`, or `0` or nothing if udev is wrong about it.",
        " ID_INPUT_MOUSE=1"
    ),
    entry!(
        "ID_INPUT_POINTINGSTICK",
        "Whether an input device is a pointing stick between the keys: `1`, or `0` or nothing if udev is wrong about it.",
        " ID_INPUT_POINTINGSTICK=1"
    ),
    entry!(
        "ID_INPUT_SWITCH",
        "Whether an input device has switches, such as that of a lid: `1`, or `0` or nothing if udev is wrong about it.",
        " ID_INPUT_SWITCH=1"
    ),
    entry!(
        "ID_INPUT_TABLET_PAD",
        "Whether an input device is the buttons of a drawing tablet: `1`, or `0` or nothing if udev is wrong about it.",
        " ID_INPUT_TABLET_PAD=1"
    ),
    entry!(
        "ID_INPUT_TABLET",
        "Whether an input device is a drawing tablet: `1`, or `0` or nothing if udev is wrong about it.",
        " ID_INPUT_TABLET=1"
    ),
    entry!(
        "ID_INPUT_TOUCHPAD_INTEGRATION",
        "Whether a touchpad is part of the machine: `internal` or `external`.",
        " ID_INPUT_TOUCHPAD_INTEGRATION=external"
    ),
    entry!(
        "ID_INPUT_TOUCHPAD",
        "Whether an input device is a touchpad: `1`, or `0` or nothing if udev is wrong about it.",
        " ID_INPUT_TOUCHPAD=1"
    ),
    entry!(
        "ID_INPUT_TOUCHSCREEN",
        "Whether an input device is a touchscreen: `1`, or `0` or nothing if udev is wrong about it.",
        " ID_INPUT_TOUCHSCREEN=1"
    ),
    entry!(
        "ID_INPUT_TRACKBALL",
        "Whether a mouse is a trackball: `1`, or `0` or nothing if it is none.",
        " ID_INPUT_TRACKBALL=1"
    ),
    entry!(
        "ID_INPUT_3D_MOUSE",
        "Whether a mouse measures more than two directions: `1` or `0`.",
        " ID_INPUT_3D_MOUSE=1"
    ),
    entry!(
        "ID_INPUT",
        "Whether programs are to use this input device at all: `1`, or `0` or nothing to hide it.",
        " ID_INPUT=0"
    ),
];
