//! The sections on lints of the database.
//!
//! `tests/test_explain.sh` compares them with those of `docs/messages.md`.

/// Case of a digit that no modalias has.
pub(crate) const D1: &str = concat!(
    r#"D1 case of a digit that no modalias has

Write the digits in capitals for `usb:`, `pci:` and the kernel's other buses, and in small letters for `mouse:` and the like. The kernel writes the numbers "#,
    r#"of `usb:`, `pci:`, `bluetooth:`, `sdio:`, `evdev:input:` and `id-input:` in capitals, and `OUI:` has capitals, too; the rules that look up `mouse:`, "#,
    r#"`touchpad:`, `joystick:` and `camera:` take small letters, and `vmbus:` has those. Places after a `*` or a set are not looked at.

    $ cat d1.hwdb
    usb:v1d6bp0002*
     ID_AUTOSUSPEND=1

    mouse:usb:v046DpC53F:name:*:
     MOUSE_DPI=800
    $ devdry update --lint d1.hwdb > /dev/null
    d1.hwdb:1: D1 case of a digit that no modalias has: usb:v1d6bp0002*
    d1.hwdb:4: D1 case of a digit that no modalias has: mouse:usb:v046DpC53F:name:*:
    $ cat d1-fixed.hwdb
    usb:v1D6Bp0002*
     ID_AUTOSUSPEND=1

    mouse:usb:v046dpc53f:name:*:
     MOUSE_DPI=800
    $ devdry update --lint d1-fixed.hwdb > /dev/null
"#
);

/// Match that no modalias fits.
pub(crate) const D2: &str = concat!(
    r#"D2 match that no modalias fits

Write the numbers with all their digits, in the order in which the modaliases of the prefix have them. These are `usb:vXXXXpXXXXdXXXX..`, "#,
    r#"`pci:vXXXXXXXXdXXXXXXXXsvXXXXXXXXsdXXXXXXXX..`, `bluetooth:vXXXXpXXXXdXXXX`, `sdio:cXXvXXXXdXXXX`, `OUI:` with twelve digits, "#,
    r#"`evdev:input:bXXXXvXXXXpXXXXeXXXX..` and the same behind `id-input:modalias:input:`. `evdev:` is followed by `input:`, `name:` or `atkbd:`.

    $ cat d2.hwdb
    pci:v8086d1234*
     ID_AUTOSUSPEND=1
    $ devdry update --lint d2.hwdb > /dev/null
    d2.hwdb:1: D2 match that no modalias fits: pci:v8086d1234*
    $ cat d2-fixed.hwdb
    pci:v00008086d00001234*
     ID_AUTOSUSPEND=1
    $ devdry update --lint d2-fixed.hwdb > /dev/null
"#
);

/// End of a match is missing.
pub(crate) const D3: &str = concat!(
    r#"D3 end of a match is missing

End the match with `*`, since modaliases go on behind it. A match is compared with the whole modalias. Those of `acpi:`, `dmi:`, `evdev:name:`, "#,
    r#"`evdev:atkbd:`, `mouse:`, `touchpad:`, `joystick:`, `camera:` and `sensor:` end in `:`, so that a match of theirs ends in `:` or `*`.

    $ cat d3.hwdb
    usb:v1D6Bp0002
     ID_AUTOSUSPEND=1
    $ devdry update --lint d3.hwdb > /dev/null
    d3.hwdb:1: D3 end of a match is missing: usb:v1D6Bp0002
    $ cat d3-fixed.hwdb
    usb:v1D6Bp0002*
     ID_AUTOSUSPEND=1
    $ devdry update --lint d3-fixed.hwdb > /dev/null
"#
);

/// Unknown prefix.
pub(crate) const D4: &str = concat!(
    r#"D4 unknown prefix

Begin the match with a prefix that udev's rules look up, such as `usb:` or `evdev:`. Known are the prefixes in the files of hwdb.d and those of the kernel's "#,
    r#"modaliases. If a rule of your own looks up another one, silence the message.

    $ cat d4.hwdb
    ubs:v1D6Bp0002*
     ID_AUTOSUSPEND=1
    $ devdry update --lint d4.hwdb > /dev/null
    d4.hwdb:1: D4 unknown prefix: ubs:v1D6Bp0002*
    $ cat d4-fixed.hwdb
    usb:v1D6Bp0002*
     ID_AUTOSUSPEND=1
    $ devdry update --lint d4-fixed.hwdb > /dev/null
"#
);

/// Match given twice.
pub(crate) const D5: &str = concat!(
    r#"D5 match given twice

Put the properties of both records into one: where both have a property, the later counts. The match stands in this file already, in the same record or in "#,
    r#"another. (A match of another file is no fault: a file with a later name may override one with an earlier.)

    $ cat d5.hwdb
    usb:v1D6Bp0002*
     ID_AUTOSUSPEND=1

    usb:v1D6Bp0002*
     ID_AUTOSUSPEND=0
    $ devdry update --lint d5.hwdb > /dev/null
    d5.hwdb:4: D5 match given twice: usb:v1D6Bp0002*
    $ cat d5-fixed.hwdb
    usb:v1D6Bp0002*
     ID_AUTOSUSPEND=0
    $ devdry update --lint d5-fixed.hwdb > /dev/null
"#
);

/// Property given twice.
pub(crate) const D6: &str = r#"D6 property given twice

Remove one of the two: the later counts.

    $ cat d6.hwdb
    usb:v1D6Bp0002*
     ID_AUTOSUSPEND=1
     ID_AUTOSUSPEND=0
    $ devdry update --lint d6.hwdb > /dev/null
    d6.hwdb:3: D6 property given twice: ID_AUTOSUSPEND
    $ cat d6-fixed.hwdb
    usb:v1D6Bp0002*
     ID_AUTOSUSPEND=0
    $ devdry update --lint d6-fixed.hwdb > /dev/null
"#;

/// Blank beside the =.
pub(crate) const D7: &str = concat!(
    r#"D7 blank beside the =

Remove the blanks: they belong to the key or to the value. Here the key is `ID_VENDOR` with a blank, which nothing asks for, and the value is a blank and "#,
    r#"`Linux`.

    $ cat d7.hwdb
    usb:v1D6Bp0002*
     ID_VENDOR = Linux
    $ devdry update --lint d7.hwdb > /dev/null
    d7.hwdb:2: D7 blank beside the =: ID_VENDOR = Linux
    $ cat d7-fixed.hwdb
    usb:v1D6Bp0002*
     ID_VENDOR=Linux
    $ devdry update --lint d7-fixed.hwdb > /dev/null
"#
);

/// Key that no program asks for.
pub(crate) const D8: &str = concat!(
    r#"D8 key that no program asks for

Write the key in capitals, digits and `_`, and codes behind `KEYBOARD_KEY_` and `EVDEV_ABS_` in small letters. A capital letter is the first. A scan code is "#,
    r#"hexadecimal, and so is an axis, which has two digits.

    $ cat d8.hwdb
    evdev:input:b0003v05ACp0221*
     Id_Model=keyboard
     KEYBOARD_KEY_700A5=brightnessup
     EVDEV_ABS_0=::40
    $ devdry update --lint d8.hwdb > /dev/null
    d8.hwdb:2: D8 key that no program asks for: Id_Model
    d8.hwdb:3: D8 key that no program asks for: KEYBOARD_KEY_700A5
    d8.hwdb:4: D8 key that no program asks for: EVDEV_ABS_0
    $ cat d8-fixed.hwdb
    evdev:input:b0003v05ACp0221*
     ID_MODEL=keyboard
     KEYBOARD_KEY_700a5=brightnessup
     EVDEV_ABS_00=::40
    $ devdry update --lint d8-fixed.hwdb > /dev/null
"#
);

/// Blank at the end of a match.
pub(crate) const D9: &str = r#"D9 blank at the end of a match

Remove the blank, which is no part of the match. Spaces and tabs at the end of a line are dropped; a match that is to end in one needs a `?` there.

    $ printf 'usb:v1D6Bp0002* \n ID_AUTOSUSPEND=1\n' > d9.hwdb
    $ devdry update --lint d9.hwdb > /dev/null
    d9.hwdb:1: D9 blank at the end of a match: usb:v1D6Bp0002*
    $ cat d9-fixed.hwdb
    usb:v1D6Bp0002*
     ID_AUTOSUSPEND=1
    $ devdry update --lint d9-fixed.hwdb > /dev/null
"#;

/// Byte order mark.
pub(crate) const D10: &str = concat!(
    r#"D10 byte order mark

Save the file as UTF-8 without a byte order mark, which makes its first line a match that fits nothing. If the first line is a comment, it is a match for "#,
    r#"that reason.

    $ printf '\357\273\277usb:v1D6Bp0002*\n ID_AUTOSUSPEND=1\n' > d10.hwdb
    $ devdry update --lint d10.hwdb > /dev/null
    d10.hwdb:1: D10 byte order mark: usb:v1D6Bp0002*
    $ cat d10-fixed.hwdb
    usb:v1D6Bp0002*
     ID_AUTOSUSPEND=1
    $ devdry update --lint d10-fixed.hwdb > /dev/null
"#
);

/// Comment within a word.
pub(crate) const D11: &str = r#"D11 comment within a word

A `#` begins a comment wherever it stands: write something else, or a blank before it. Here the value is `Phantom (`.

    $ cat d11.hwdb
    usb:v1D6Bp0002*
     ID_MODEL=Phantom (#2)
    $ devdry update --lint d11.hwdb > /dev/null
    d11.hwdb:2: D11 comment within a word: #2)
    $ cat d11-fixed.hwdb
    usb:v1D6Bp0002*
     ID_MODEL=Phantom (2)
    $ devdry update --lint d11-fixed.hwdb > /dev/null
"#;

/// Set without ].
pub(crate) const D12: &str = r#"D12 set without ]

Close the set with `]`, or write `[[]` for the bracket itself. Without a `]` the `[` stands for itself.

    $ cat d12.hwdb
    usb:v1D6Bp000[2*
     ID_AUTOSUSPEND=1
    $ devdry update --lint d12.hwdb > /dev/null
    d12.hwdb:1: D12 set without ]: [2*
    $ cat d12-fixed.hwdb
    usb:v1D6Bp000[2]*
     ID_AUTOSUSPEND=1
    $ devdry update --lint d12-fixed.hwdb > /dev/null
"#;

/// Value that the property does not take.
pub(crate) const D13: &str = concat!(
    r#"D13 value that the property does not take

Write a value of the form that the property has in the files of hwdb.d. Known properties are `1` or `0` (such as `ID_AUTOSUSPEND`; those of `ID_INPUT` may "#,
    r#"be empty), a whole number (such as `MOUSE_WHEEL_CLICK_ANGLE`), one of some words (such as `ID_INTEGRATION`), or have a form of their own: `MOUSE_DPI` "#,
    r#"is resolutions such as `400@125 *800@125`, `ACCEL_MOUNT_MATRIX` three rows of three numbers, `KEYBOARD_KEY_..` a key's name in small letters, perhaps "#,
    r#"after a `!`, and `EVDEV_ABS_..` at most five numbers with `:` between them. Properties that are not known may have any value.

    $ cat d13.hwdb
    mouse:usb:v046dpc53f:name:*:
     MOUSE_DPI=800dpi
     MOUSE_WHEEL_CLICK_ANGLE=15 degrees

    evdev:input:b0003v05ACp0221*
     KEYBOARD_KEY_700a5=BRIGHTNESSUP
     EVDEV_ABS_00=0,4095
     ID_INTEGRATION=built-in
    $ devdry update --lint d13.hwdb > /dev/null
    d13.hwdb:2: D13 value that the property does not take: MOUSE_DPI=800dpi
    d13.hwdb:3: D13 value that the property does not take: MOUSE_WHEEL_CLICK_ANGLE=15 degre
    d13.hwdb:6: D13 value that the property does not take: KEYBOARD_KEY_700a5=BRIGHTNESSUP
    d13.hwdb:7: D13 value that the property does not take: EVDEV_ABS_00=0,4095
    d13.hwdb:8: D13 value that the property does not take: ID_INTEGRATION=built-in
    $ cat d13-fixed.hwdb
    mouse:usb:v046dpc53f:name:*:
     MOUSE_DPI=800
     MOUSE_WHEEL_CLICK_ANGLE=15

    evdev:input:b0003v05ACp0221*
     KEYBOARD_KEY_700a5=brightnessup
     EVDEV_ABS_00=0:4095
     ID_INTEGRATION=internal
    $ devdry update --lint d13-fixed.hwdb > /dev/null
"#
);
