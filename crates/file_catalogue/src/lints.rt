//! The sections on lints: rules that are most likely not the ones that were meant.
//!
//! `tests/test_explain.sh` compares them with those of `docs/messages.md`.

/// Mode is not an octal number.
pub(crate) const W1: &str = concat!(
    r#"W1 mode is no octal number

Write the mode in octal digits, such as 0660. udev ignores any other mode when the rule is run. A value with `$` or `%` is not checked, since its text is "#,
    r#"not known before that. With `--udev` blanks before the digits are passed over, as udev does.

    $ cat w1.rules
    KERNEL=="sda", MODE="0888"
    KERNEL=="sdb", MODE="rw-rw----"
    $ devdry verify --lint w1.rules
    w1.rules:1: W1 mode is no octal number: 0888
    w1.rules:2: W1 mode is no octal number: rw-rw----
    1 files checked, 0 good, 1 bad
    $ cat w1-fixed.rules
    KERNEL=="sda", MODE="0660"
    KERNEL=="sdb", MODE="0660"
    $ devdry verify --lint w1-fixed.rules
    1 files checked, 1 good, 0 bad
"#
);

/// Sign of the shell, and no shell.
pub(crate) const W2: &str = concat!(
    r#"W2 sign of the shell, and no shell

No shell runs the command: put `/bin/sh -c` before it, or remove the sign. The program gets the sign among its arguments. Reported, outside of quotes, are "#,
    r#"`|` and `;` at the end of a word, `>` before a space, a `/`, a `&` or another `>`, and `&&`.

    $ cat w2.rules
    KERNEL=="sda", RUN+="/bin/echo disk > /run/disk"
    KERNEL=="sdb", PROGRAM=="/bin/true && /bin/id", TAG+="disk"
    $ devdry verify --lint w2.rules
    w2.rules:1: W2 sign of the shell, and no shell: /bin/echo disk > /run/disk
    w2.rules:2: W2 sign of the shell, and no shell: /bin/true && /bin/id
    1 files checked, 0 good, 1 bad
    $ cat w2-fixed.rules
    KERNEL=="sda", RUN+="/bin/sh -c 'echo disk > /run/disk'"
    KERNEL=="sdb", PROGRAM=="/bin/sh -c '/bin/true && /bin/id'", TAG+="disk"
    $ devdry verify --lint w2-fixed.rules
    1 files checked, 1 good, 0 bad
"#
);

/// Program without a path.
pub(crate) const W3: &str = concat!(
    r#"W3 program without a path

Write the full path of the program. udev looks for a program without a path only in `/usr/lib/udev`. Reported are the names of commands that are elsewhere, "#,
    r#"such as `touch`, `ln` and `systemctl`.

    $ cat w3.rules
    KERNEL=="sda", RUN+="touch /run/disk"
    $ devdry verify --lint w3.rules
    w3.rules:1: W3 program without a path: touch /run/disk
    1 files checked, 0 good, 1 bad
    $ cat w3-fixed.rules
    KERNEL=="sda", RUN+="/usr/bin/touch /run/disk"
    $ devdry verify --lint w3-fixed.rules
    1 files checked, 1 good, 0 bad
"#
);

/// Letter case that the kernel does not write.
pub(crate) const W4: &str = concat!(
    r#"W4 letter case that the kernel does not write

Write lower case in these attributes, and upper case in the numbers of a modalias. The kernel writes them so, and a match is case-sensitive unless an `i` "#,
    r#"comes before its quote. The attributes are the identifiers and classes of USB, PCI and input devices. An alternative in the wrong case never fits, "#,
    r#"and is reported even beside a right one.

    $ cat w4.rules
    ATTRS{idVendor}=="1D6B", TAG+="hub"
    ENV{MODALIAS}=="usb:v1d6bp0002*", TAG+="hub"
    $ devdry verify --lint w4.rules
    w4.rules:1: W4 letter case that the kernel does not write: 1D6B
    w4.rules:2: W4 letter case that the kernel does not write: usb:v1d6bp0002*
    1 files checked, 0 good, 1 bad
    $ cat w4-fixed.rules
    ATTRS{idVendor}=="1d6b", TAG+="hub"
    ENV{MODALIAS}=="usb:v1D6Bp0002*", TAG+="hub"
    $ devdry verify --lint w4-fixed.rules
    1 files checked, 1 good, 0 bad
"#
);

/// Attributes of different devices.
pub(crate) const W5: &str = concat!(
    r#"W5 attributes of different devices

All ATTRS of a rule are compared with one device: use a rule for each device. In the example a USB device has the vendor, and each of its interfaces a "#,
    r#"number: no device has both.

    $ cat w5.rules
    ATTRS{idVendor}=="1d6b", ATTRS{bInterfaceNumber}=="01", TAG+="second"
    $ devdry verify --lint w5.rules
    w5.rules:1: W5 attributes of different devices: bInterfaceNumber
    1 files checked, 0 good, 1 bad
    $ cat w5-fixed.rules
    ATTRS{idVendor}=="1d6b", ENV{.OF_LINUX}="1"
    ENV{.OF_LINUX}=="1", ATTRS{bInterfaceNumber}=="01", TAG+="second"
    $ devdry verify --lint w5-fixed.rules
    1 files checked, 1 good, 0 bad
"#
);

/// Property imported further down.
pub(crate) const W6: &str = concat!(
    r#"W6 property imported further down

Put the rule below the import of the property, in this file or in a later one. The matches of a rule are compared before its imports, so an import in this "#,
    r#"rule comes too late as well. The file is compared by its name with those of systemd and of multipath-tools that first import some properties, too: in "#,
    r#"`10-mine.rules` no `ID_FS_LABEL` is there yet. What other earlier files import is not known: ignore W6 there.

    $ cat w6.rules
    SUBSYSTEM=="block", ENV{ID_FS_TYPE}=="ext4", TAG+="disk"
    SUBSYSTEM=="block", IMPORT{builtin}="blkid"
    $ devdry verify --lint w6.rules
    w6.rules:1: W6 property imported further down: ID_FS_TYPE
    1 files checked, 0 good, 1 bad
    $ cat w6-fixed.rules
    SUBSYSTEM=="block", IMPORT{builtin}="blkid"
    SUBSYSTEM=="block", ENV{ID_FS_TYPE}=="ext4", TAG+="disk"
    $ devdry verify --lint w6-fixed.rules
    1 files checked, 1 good, 0 bad
"#
);

/// Value assigned that others compare.
pub(crate) const W7: &str = concat!(
    r#"W7 value assigned that others compare

Write `==` to compare the value, or put the assignment after the matches. The file has a match of the same property, or of the same attribute, with this "#,
    r#"value. A flag that is set before the matches of its rule is reported, too.

    $ cat w7.rules
    ENV{ID_BUS}=="usb", TAG+="usb"
    ENV{ID_BUS}="usb", KERNEL=="sd*", TAG+="disk"
    $ devdry verify --lint w7.rules
    w7.rules:2: W7 value assigned that others compare: ID_BUS
    1 files checked, 0 good, 1 bad
    $ cat w7-fixed.rules
    ENV{ID_BUS}=="usb", TAG+="usb"
    ENV{ID_BUS}=="usb", KERNEL=="sd*", TAG+="disk"
    $ devdry verify --lint w7-fixed.rules
    1 files checked, 1 good, 0 bad
"#
);

/// Name outside net.
pub(crate) const W8: &str = r#"W8 name outside net

Only network devices can be renamed: give other devices a SYMLINK. The NAME of any other device is ignored.

    $ cat w8.rules
    SUBSYSTEM=="block", KERNEL=="sda", NAME="disk"
    $ devdry verify --lint w8.rules
    w8.rules:1: W8 name outside net: disk
    1 files checked, 0 good, 1 bad
    $ cat w8-fixed.rules
    SUBSYSTEM=="block", KERNEL=="sda", SYMLINK+="disk"
    $ devdry verify --lint w8-fixed.rules
    1 files checked, 1 good, 0 bad
"#;

/// Link begins with /dev/.
pub(crate) const W9: &str = r#"W9 link begins with /dev/

Remove `/dev/`: a link is made there without it. With `--udev` this is not reported, as udev itself leaves `/dev/` out.

    $ cat w9.rules
    KERNEL=="sda", SYMLINK+="/dev/disk"
    $ devdry verify --lint w9.rules
    w9.rules:1: W9 link begins with /dev/: /dev/disk
    1 files checked, 0 good, 1 bad
    $ cat w9-fixed.rules
    KERNEL=="sda", SYMLINK+="disk"
    $ devdry verify --lint w9-fixed.rules
    1 files checked, 1 good, 0 bad
"#;

/// Name in quotes.
pub(crate) const W10: &str = r#"W10 name in quotes

Write the name in braces without quotes. The quotes would be a part of the name.

    $ cat w10.rules
    ATTR{"removable"}=="1", TAG+="stick"
    $ devdry verify --lint w10.rules
    w10.rules:1: W10 name in quotes: "removable"
    1 files checked, 0 good, 1 bad
    $ cat w10-fixed.rules
    ATTR{removable}=="1", TAG+="stick"
    $ devdry verify --lint w10-fixed.rules
    1 files checked, 1 good, 0 bad
"#;

/// Regular expression in a pattern.
pub(crate) const W11: &str = concat!(
    r#"W11 regular expression in a pattern

A pattern has `*`, `?`, `[..]` and `|`, and is compared with the whole value. All other characters stand for themselves, including those of regular "#,
    r#"expressions and of a shell's lists in braces.

    $ cat w11.rules
    KERNEL=="^sd[a-z]$", TAG+="disk"
    KERNEL=="sd{a,b}", TAG+="mine"
    $ devdry verify --lint w11.rules
    w11.rules:1: W11 regular expression in a pattern: ^sd[a-z]$
    w11.rules:2: W11 regular expression in a pattern: sd{a,b}
    1 files checked, 0 good, 1 bad
    $ cat w11-fixed.rules
    KERNEL=="sd[a-z]", TAG+="disk"
    KERNEL=="sda|sdb", TAG+="mine"
    $ devdry verify --lint w11-fixed.rules
    1 files checked, 1 good, 0 bad
"#
);

/// Match that always holds.
pub(crate) const W12: &str = r#"W12 match that always holds

Remove the match, or write `?*` for any value but the empty one. A `*` also fits the empty value, and so a property that is not set.

    $ cat w12.rules
    KERNEL=="*", TAG+="seen"
    ENV{ID_SERIAL}=="*", SYMLINK+="serial/$env{ID_SERIAL}"
    $ devdry verify --lint w12.rules
    w12.rules:1: W12 match that always holds: KERNEL
    w12.rules:2: W12 match that always holds: ENV
    1 files checked, 0 good, 1 bad
    $ cat w12-fixed.rules
    TAG+="seen"
    ENV{ID_SERIAL}=="?*", SYMLINK+="serial/$env{ID_SERIAL}"
    $ devdry verify --lint w12-fixed.rules
    1 files checked, 1 good, 0 bad
"#;

/// Rule never reached.
pub(crate) const W13: &str = concat!(
    r#"W13 rule never reached

Remove this rule, or give the rule above it a match. That rule has none, so it jumps for every device, and this one has no label to jump to. The word is the "#,
    r#"label that it jumps to.

    $ cat w13.rules
    GOTO="disks_end"
    KERNEL=="sd*", TAG+="disk"
    LABEL="disks_end"
    $ devdry verify --lint w13.rules
    w13.rules:2: W13 rule never reached: disks_end
    1 files checked, 0 good, 1 bad
    $ cat w13-fixed.rules
    SUBSYSTEM!="block", GOTO="disks_end"
    KERNEL=="sd*", TAG+="disk"
    LABEL="disks_end"
    $ devdry verify --lint w13-fixed.rules
    1 files checked, 1 good, 0 bad
"#
);

/// No pattern for udev.
pub(crate) const W14: &str = concat!(
    r#"W14 no pattern for udev

Write `*` for any tag, link or property, and the name of a file after TEST. With `--udev` the value `?*` means "not empty", as it does for udev itself. For "#,
    r#"TAG, TAGS and SYMLINK that asks that no tag or link is empty: `==` always holds, even without any, and `!=` never does. For TEST and IMPORT{parent} "#,
    r#"it reverses the operator: with `==` the rule goes on if there is no such file or property. The word is the key.

    $ cat w14.rules
    TAG=="?*", ENV{TAGGED}="1"
    TEST=="?*", ENV{TESTED}="1"
    $ devdry verify --udev --lint w14.rules
    w14.rules:1: W14 no pattern for udev: TAG
    w14.rules:2: W14 no pattern for udev: TEST
    1 files checked, 0 good, 1 bad
    $ cat w14-fixed.rules
    TAG=="*", ENV{TAGGED}="1"
    TEST=="uevent", ENV{TESTED}="1"
    $ devdry verify --udev --lint w14-fixed.rules
    1 files checked, 1 good, 0 bad
"#
);
