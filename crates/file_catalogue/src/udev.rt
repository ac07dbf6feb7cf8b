//! The sections on what only `--udev` reports.
//!
//! `tests/test_explain.sh` compares them with those of `docs/messages.md`.

/// Reserved property.
pub(crate) const V13: &str = concat!(
    r#"V13 reserved property

Only udev itself sets this property: assign another one, or use NAME or SYMLINK. Only `--udev` reports it, and the rule is dropped. The properties are "#,
    r#"ACTION, DEVLINKS, DEVNAME, DEVPATH, DEVTYPE, DRIVER, IFINDEX, MAJOR, MINOR, SEQNUM, SUBSYSTEM and TAGS.

    $ cat v13.rules
    SUBSYSTEM=="net", ENV{DEVNAME}="lan0"
    $ devdry verify --udev v13.rules
    v13.rules:1: V13 reserved property: DEVNAME
    1 files checked, 0 good, 1 bad
    $ cat v13-fixed.rules
    SUBSYSTEM=="net", NAME="lan0"
    $ devdry verify --udev v13-fixed.rules
    1 files checked, 1 good, 0 bad
"#
);

/// Name without effect.
pub(crate) const V14: &str = r#"V14 name without effect

Write a name other than the kernel's, or remove NAME. Only `--udev` reports it, and the rule is dropped. The value is empty, or just `%k`.

    $ cat v14.rules
    SUBSYSTEM=="net", NAME="%k"
    $ devdry verify --udev v14.rules
    v14.rules:1: V14 name without effect: %k
    1 files checked, 0 good, 1 bad
    $ cat v14-fixed.rules
    SUBSYSTEM=="net", NAME="lan%n"
    $ devdry verify --udev v14-fixed.rules
    1 files checked, 1 good, 0 bad
"#;

/// Unknown builtin.
pub(crate) const V15: &str = concat!(
    r#"V15 unknown builtin

Begin the value with the name of one of udev's builtins, such as `usb_id`. Only `--udev` reports it, and the rule is dropped. The builtins are blkid, btrfs, "#,
    r#"hwdb, input_id, keyboard, kmod, net_driver, net_id, net_setup_link, path_id, usb_id and uaccess. The beginning of a name is enough.

    $ cat v15.rules
    SUBSYSTEM=="usb", IMPORT{builtin}="usb-id"
    $ devdry verify --udev v15.rules
    v15.rules:1: V15 unknown builtin: usb-id
    1 files checked, 0 good, 1 bad
    $ cat v15-fixed.rules
    SUBSYSTEM=="usb", IMPORT{builtin}="usb_id"
    $ devdry verify --udev v15-fixed.rules
    1 files checked, 1 good, 0 bad
"#
);

/// Matches exclude each other.
pub(crate) const V16: &str = concat!(
    r#"V16 matches exclude each other

Write the two values as one with `|` between them, or remove one of the matches. Only `--udev` reports it, and the rule is kept. Two tags are reported, too, "#,
    r#"though a device may have both. The word is the key of the later match.

    $ cat v16.rules
    KERNEL=="sda", KERNEL=="sdb", TAG+="disk"
    $ devdry verify --udev v16.rules
    v16.rules:1: V16 matches exclude each other: KERNEL
    1 files checked, 0 good, 1 bad
    $ cat v16-fixed.rules
    KERNEL=="sda|sdb", TAG+="disk"
    $ devdry verify --udev v16-fixed.rules
    1 files checked, 1 good, 0 bad
"#
);

/// Said twice.
pub(crate) const V17: &str = r#"V17 said twice

Remove one of the two. Only `--udev` reports it, and the rule is kept. The two need not be next to each other.

    $ cat v17.rules
    KERNEL=="sda", SUBSYSTEM=="block", KERNEL=="sda", TAG+="disk"
    $ devdry verify --udev v17.rules
    v17.rules:1: V17 said twice: KERNEL
    1 files checked, 0 good, 1 bad
    $ cat v17-fixed.rules
    KERNEL=="sda", SUBSYSTEM=="block", TAG+="disk"
    $ devdry verify --udev v17-fixed.rules
    1 files checked, 1 good, 0 bad
"#;

/// Rule without effect.
pub(crate) const V18: &str = concat!(
    r#"V18 rule without effect

Make the rule assign something, or remove it. Only `--udev` reports it, and the rule is dropped. Each assignment counts, and so do PROGRAM, IMPORT, LABEL "#,
    r#"and GOTO. If the rule has an option that udev does not know, V5 names that instead.

    $ cat v18.rules
    KERNEL=="sda", SUBSYSTEM=="block"
    $ devdry verify --udev v18.rules
    v18.rules:1: V18 rule without effect
    1 files checked, 0 good, 1 bad
    $ cat v18-fixed.rules
    KERNEL=="sda", SUBSYSTEM=="block", TAG+="disk"
    $ devdry verify --udev v18-fixed.rules
    1 files checked, 1 good, 0 bad
"#
);

/// RESULT before PROGRAM.
pub(crate) const V19: &str = r#"V19 RESULT before PROGRAM

Put PROGRAM before RESULT. Only `--udev` reports it, and the rule is kept. PROGRAM is run first, wherever it is in the rule.

    $ cat v19.rules
    RESULT=="disk", PROGRAM="/usr/lib/udev/kind %k", TAG+="disk"
    $ devdry verify --udev v19.rules
    v19.rules:1: V19 RESULT before PROGRAM: PROGRAM
    1 files checked, 0 good, 1 bad
    $ cat v19-fixed.rules
    PROGRAM="/usr/lib/udev/kind %k", RESULT=="disk", TAG+="disk"
    $ devdry verify --udev v19-fixed.rules
    1 files checked, 1 good, 0 bad
"#;

/// Empty value.
pub(crate) const V20: &str = concat!(
    r#"V20 empty value

Write a value, or remove the key. Only `--udev` reports it, and the rule is kept. The key is TEST, PROGRAM or IMPORT, or an assignment of TAG, SECLABEL, "#,
    r#"RUN, OWNER, GROUP or MODE.

    $ cat v20.rules
    KERNEL=="sda", RUN+=""
    $ devdry verify --udev v20.rules
    v20.rules:1: V20 empty value: RUN
    1 files checked, 0 good, 1 bad
    $ cat v20-fixed.rules
    KERNEL=="sda", RUN+="/usr/bin/logger %k"
    $ devdry verify --udev v20-fixed.rules
    1 files checked, 1 good, 0 bad
"#
);

/// Bad substitution in an attribute.
pub(crate) const V21: &str = concat!(
    r#"V21 bad substitution in an attribute

In an attribute's name, too, write one of udev's names or letters after `$` and `%`. Only `--udev` reports it, and the rule is kept. The attribute is one of "#,
    r#"ATTR, ATTRS or SYSCTL.

    $ cat v21.rules
    ATTR{$disk/size}=="0", TAG+="empty"
    $ devdry verify --udev v21.rules
    v21.rules:1: V21 bad substitution in an attribute: $disk/size
    1 files checked, 0 good, 1 bad
    $ cat v21-fixed.rules
    ATTR{$kernel/size}=="0", TAG+="empty"
    $ devdry verify --udev v21-fixed.rules
    1 files checked, 1 good, 0 bad
"#
);

/// Attribute of another device.
pub(crate) const V22: &str = r#"V22 attribute of another device

Leave `device/` and `../` out: ATTRS looks at each parent. Only `--udev` reports it, and the rule is kept.

    $ cat v22.rules
    KERNEL=="sda", ATTRS{device/model}=="Mine", TAG+="disk"
    $ devdry verify --udev v22.rules
    v22.rules:1: V22 attribute of another device: device/model
    1 files checked, 0 good, 1 bad
    $ cat v22-fixed.rules
    KERNEL=="sda", ATTRS{model}=="Mine", TAG+="disk"
    $ devdry verify --udev v22-fixed.rules
    1 files checked, 1 good, 0 bad
"#;

/// Old name of a subsystem.
pub(crate) const V23: &str = concat!(
    r#"V23 old name of a subsystem

Write `subsystem`, which fits the same devices. Only `--udev` reports it, and the rule is kept. A SUBSYSTEM that is compared with `subsystem`, `bus` or "#,
    r#"`class` fits each of the three.

    $ cat v23.rules
    SUBSYSTEM=="bus", TAG+="x"
    $ devdry verify --udev v23.rules
    v23.rules:1: V23 old name of a subsystem: bus
    1 files checked, 0 good, 1 bad
    $ cat v23-fixed.rules
    SUBSYSTEM=="subsystem", TAG+="x"
    $ devdry verify --udev v23-fixed.rules
    1 files checked, 1 good, 0 bad
"#
);

/// Operator read as =.
pub(crate) const V24: &str = r#"V24 operator read as =

The key has no `:=` or `+=` of its own: write `=`. Only `--udev` reports it, in place of S3, and also with `--no-style`. The rule is kept.

    $ cat v24.rules
    KERNEL=="sda", ENV{DISK}:="1"
    $ devdry verify --udev v24.rules
    v24.rules:1: V24 operator read as =: ENV
    1 files checked, 0 good, 1 bad
    $ cat v24-fixed.rules
    KERNEL=="sda", ENV{DISK}="1"
    $ devdry verify --udev v24-fixed.rules
    1 files checked, 1 good, 0 bad
"#;

/// Unknown user or group.
pub(crate) const V25: &str = concat!(
    r#"V25 unknown user or group

Write the name of an existing user or group, or a number. Only `--udev` reports it, and the rule is kept. Names are looked up in the files that `--users` "#,
    r#"and `--groups` name, which have the form of /etc/passwd and /etc/group, and not at all where no file is given: which names exist depends on the "#,
    r#"machine that the rules are for. `udevadm verify` looks at the accounts of its own machine.

    $ cat group
    root:x:0:
    disk:x:6:
    $ cat v25.rules
    KERNEL=="sda", GROUP="disks"
    $ devdry verify --udev --groups group v25.rules
    v25.rules:1: V25 unknown user or group: disks
    1 files checked, 0 good, 1 bad
    $ cat v25-fixed.rules
    KERNEL=="sda", GROUP="disk"
    $ devdry verify --udev --groups group v25-fixed.rules
    1 files checked, 1 good, 0 bad
"#
);

/// File with a line too long.
pub(crate) const V26: &str = concat!(
    r#"V26 file with a line too long

Split the line: udev reads nothing of a file with a line of 16,384 bytes or more. Only `--udev` reports it. The length is that of the line as it is in the "#,
    r#"file, a comment included, and the rules above the line are dropped as well.

    $ printf '#%16383s\n' | tr ' ' - > v26.rules
    $ devdry verify --udev v26.rules
    v26.rules:1: V26 file with a line too long
    1 files checked, 0 good, 1 bad
    $ printf '#%99s\n' | tr ' ' - > v26-fixed.rules
    $ devdry verify --udev v26-fixed.rules
    1 files checked, 1 good, 0 bad
"#
);

/// Comma before the first token.
pub(crate) const S5: &str = r#"S5 comma before the first token

Remove the comma before the first token. Only `--udev` reports it; without that option such a line is V1.

    $ cat s5.rules
    , KERNEL=="sda", TAG+="disk"
    $ devdry verify --udev s5.rules
    s5.rules:1: S5 comma before the first token
    1 files checked, 0 good, 1 bad
    $ cat s5-fixed.rules
    KERNEL=="sda", TAG+="disk"
    $ devdry verify --udev s5-fixed.rules
    1 files checked, 1 good, 0 bad
"#;

/// Blank before a comma.
pub(crate) const S6: &str = r#"S6 blank before a comma

Remove the blank before the comma. Only `--udev` reports it. The word is the token after the comma.

    $ cat s6.rules
    KERNEL=="sda" , TAG+="disk"
    $ devdry verify --udev s6.rules
    s6.rules:1: S6 blank before a comma: TAG
    1 files checked, 0 good, 1 bad
    $ cat s6-fixed.rules
    KERNEL=="sda", TAG+="disk"
    $ devdry verify --udev s6-fixed.rules
    1 files checked, 1 good, 0 bad
"#;
