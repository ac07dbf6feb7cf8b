//! The sections on lints of what rules compare and name, and of rules without a match.
//!
//! `tests/test_explain.sh` compares them with those of `docs/messages.md`.

/// Rule without a match.
pub(crate) const W15: &str = concat!(
    r#"W15 rule without a match

Give the rule a match: without one it is for every device. Most often a `\` is missing at the end of the line above. Reported is the first key that changes "#,
    r#"the device, its node or its names, or runs a command, in a rule without any match, TEST, PROGRAM or IMPORT, if no rule above in the file may jump.

    $ cat w15.rules
    KERNEL=="ttyUSB*", GROUP="dialout"
      MODE="0660", SYMLINK+="modem"
    $ devdry verify --lint w15.rules
    w15.rules:2: W15 rule without a match: MODE
    1 files checked, 0 good, 1 bad
    $ cat w15-fixed.rules
    KERNEL=="ttyUSB*", GROUP="dialout", \
      MODE="0660", SYMLINK+="modem"
    $ devdry verify --lint w15-fixed.rules
    1 files checked, 1 good, 0 bad
"#
);

/// Value that never fits.
pub(crate) const W16: &str = concat!(
    r#"W16 value that never fits

Write the value as the kernel does: no device has this one. ACTION is `add`, `remove`, `change`, `move`, `online`, `offline`, `bind` or `unbind`; KERNEL "#,
    r#"does not begin with `/`, and DEVPATH not with `/sys/` or `/dev/`; the names of subsystems have small letters. The numbers of USB and input devices "#,
    r#"have four hexadecimal digits without `0x`, those of classes and interfaces two; `removable` is 0 or 1, or `removable`, `fixed` or `unknown`; and "#,
    r#"CONST{arch} is a name that systemd has for an architecture. Each of several patterns is looked at.

    $ cat w16.rules
    KERNEL=="/dev/ttyUSB0", SYMLINK+="modem"
    SUBSYSTEM=="usb", ATTR{idVendor}=="0x0421", MODE="0660"
    $ devdry verify --lint w16.rules
    w16.rules:1: W16 value that never fits: /dev/ttyUSB0
    w16.rules:2: W16 value that never fits: 0x0421
    1 files checked, 0 good, 1 bad
    $ cat w16-fixed.rules
    KERNEL=="ttyUSB0", SYMLINK+="modem"
    SUBSYSTEM=="usb", ATTR{idVendor}=="0421", MODE="0660"
    $ devdry verify --lint w16-fixed.rules
    1 files checked, 1 good, 0 bad
"#
);

/// Blank beside a bar.
pub(crate) const W17: &str = r#"W17 blank beside a bar

Remove the blanks beside `|`: they are compared too. Blanks before each pattern or after each are taken to be meant.

    $ cat w17.rules
    KERNEL=="ttyACM0 | ttyACM1", SYMLINK+="modem"
    $ devdry verify --lint w17.rules
    w17.rules:1: W17 blank beside a bar: ttyACM0 | ttyACM1
    1 files checked, 0 good, 1 bad
    $ cat w17-fixed.rules
    KERNEL=="ttyACM0|ttyACM1", SYMLINK+="modem"
    $ devdry verify --lint w17-fixed.rules
    1 files checked, 1 good, 0 bad
"#;

/// Name near a known one.
pub(crate) const W18: &str = concat!(
    r#"W18 name near a known one

Write the known name or key, if that was meant. The name of an attribute or a property is written as a known one with another case, or differs in one letter "#,
    r#"from a known one of at least eight; or an attribute of USB devices is in the braces of ENV, or a property `ID_..` in those of ATTR or ATTRS.

    $ cat w18.rules
    SUBSYSTEM=="usb", ATTR{idvendor}=="0421", MODE="0660"
    SUBSYSTEM=="usb", ENV{SYSTEMD_WANT}+="a.service", TAG+="systemd"
    $ devdry verify --lint w18.rules
    w18.rules:1: W18 name near a known one: idVendor
    w18.rules:2: W18 name near a known one: SYSTEMD_WANTS
    1 files checked, 0 good, 1 bad
    $ cat w18-fixed.rules
    SUBSYSTEM=="usb", ATTR{idVendor}=="0421", MODE="0660"
    SUBSYSTEM=="usb", ENV{SYSTEMD_WANTS}+="a.service", TAG+="systemd"
    $ devdry verify --lint w18-fixed.rules
    1 files checked, 1 good, 0 bad
"#
);

/// No substitution.
pub(crate) const W19: &str = concat!(
    r#"W19 no substitution

Write `$name` or `%c{1}`; in a match nothing is substituted. Reported are a match with a substitution in its value, a `%` before a long name such as "#,
    r#"`kernel`, of which only the first letter is read, a word of the result without braces: `%c1`, `$result[1]`, and an attribute among the properties or "#,
    r#"the other way round: `$env{idVendor}`, `$attr{ID_BUS}`. A value with `%%` or `$$` is left alone.

    $ cat w19.rules
    KERNEL=="%k", SYMLINK+="disk"
    KERNEL=="sda", SYMLINK+="disk/%name"
    KERNEL=="sda", PROGRAM=="/bin/info", SYMLINK+="disk/%c1"
    $ devdry verify --lint w19.rules
    w19.rules:1: W19 no substitution: %k
    w19.rules:2: W19 no substitution: disk/%name
    w19.rules:3: W19 no substitution: disk/%c1
    1 files checked, 0 good, 1 bad
    $ cat w19-fixed.rules
    KERNEL=="sda", SYMLINK+="disk"
    KERNEL=="sda", SYMLINK+="disk/$name"
    KERNEL=="sda", PROGRAM=="/bin/info", SYMLINK+="disk/%c{1}"
    $ devdry verify --lint w19-fixed.rules
    1 files checked, 1 good, 0 bad
"#
);

/// Name of a network device too long.
pub(crate) const W22: &str = r#"W22 name of a network device too long

Choose a name of at most 15 bytes. The kernel takes no longer one. A value with substitutions is not checked, since its text is not known before that.

    $ cat w22.rules
    SUBSYSTEM=="net", ATTR{address}=="02:00:00:00:00:01", NAME="office-network-first"
    $ devdry verify --lint w22.rules
    w22.rules:1: W22 name of a network device too long: office-network-first
    1 files checked, 0 good, 1 bad
    $ cat w22-fixed.rules
    SUBSYSTEM=="net", ATTR{address}=="02:00:00:00:00:01", NAME="office1"
    $ devdry verify --lint w22-fixed.rules
    1 files checked, 1 good, 0 bad
"#;

/// Result before its program.
pub(crate) const W25: &str = concat!(
    r#"W25 result before its program

Move PROGRAM to this rule, or to one above. RESULT is compared with the output of the last PROGRAM before it, and neither this rule nor one above has one. "#,
    r#"What an earlier file runs is not known: ignore W25 there.

    $ cat w25.rules
    KERNEL=="sda", RESULT=="disk", SYMLINK+="disk"
    KERNEL=="sda", PROGRAM=="/bin/info"
    $ devdry verify --lint w25.rules
    w25.rules:1: W25 result before its program: RESULT
    1 files checked, 0 good, 1 bad
    $ cat w25-fixed.rules
    KERNEL=="sda", PROGRAM=="/bin/info"
    KERNEL=="sda", RESULT=="disk", SYMLINK+="disk"
    $ devdry verify --lint w25-fixed.rules
    1 files checked, 1 good, 0 bad
"#
);
