//! The sections on faults of `.link` files.
//!
//! `tests/test_explain.sh` compares them with those of `docs/messages.md`.

/// Unknown section.
pub(crate) const L1: &str = r#"L1 unknown section

Write [Match], [Link], [SR-IOV] or [EnergyEfficientEthernet]: all of another section is skipped, and names that begin with X- are free to use. Case counts.

    $ cat l1.link
    [Match]
    OriginalName=eth0

    [Links]
    Name=lan0
    $ devdry verify --links l1.link
    l1.link:4: L1 unknown section: Links
    1 files checked, 0 good, 1 bad
    $ cat l1-fixed.link
    [Match]
    OriginalName=eth0

    [Link]
    Name=lan0
    $ devdry verify --links l1-fixed.link
    1 files checked, 1 good, 0 bad
"#;

/// Unknown key.
pub(crate) const L2: &str = r#"L2 unknown key

Write a key that systemd.link(5) has for the section, with its capitals: a line of another one is skipped. Keys that begin with `X-` are free to use.

    $ cat l2.link
    [Match]
    OriginalName=eth0

    [Link]
    name=lan0
    Driver=e1000e
    $ devdry verify --links l2.link
    l2.link:5: L2 unknown key: name
    l2.link:6: L2 unknown key: Driver
    1 files checked, 0 good, 1 bad
    $ cat l2-fixed.link
    [Match]
    OriginalName=eth0
    Driver=e1000e

    [Link]
    Name=lan0
    $ devdry verify --links l2-fixed.link
    1 files checked, 1 good, 0 bad
"#;

/// Bad line.
pub(crate) const L3: &str = concat!(
    r#"L3 bad line

Write KEY=VALUE below a section, [SECTION], or a comment that begins with # or ;. A line without `=` or without a key, and one before the first section, is "#,
    r#"skipped. A section without its `]`, and a line that is not UTF-8, keep the whole file from being used, with its drop-ins.

    $ cat l3.link
    [Match]
    OriginalName eth0
    MACAddress=00:50:b6:aa:bb:cc

    [Link
    Name=lan0
    $ devdry verify --links l3.link
    l3.link:2: L3 bad line: OriginalName eth0
    l3.link:5: L3 bad line: [Link
    1 files checked, 0 good, 1 bad
    $ cat l3-fixed.link
    [Match]
    OriginalName=eth0
    MACAddress=00:50:b6:aa:bb:cc

    [Link]
    Name=lan0
    $ devdry verify --links l3-fixed.link
    1 files checked, 1 good, 0 bad
"#
);

/// Bad value.
pub(crate) const L4: &str = concat!(
    r#"L4 bad value

Write a value that systemd.link(5) has for the key: any other has no effect. The name of an interface has 1 to 15 bytes and none of `:`, `/` and `%`, and is "#,
    r#"not only digits; `OriginalName=` drops words that could not be one. Of a value with a quote that is not closed the last word is dropped. An empty "#,
    r#"value is fine for each key: it takes back the values before it.

    $ cat l4.link
    [Match]
    OriginalName=enx[[:xdigit:]]*
    Path=pci-0000:00:* "usb-1

    [Link]
    NamePolicy=kernel datebase
    Name=a-name-that-is-too-long
    AutoNegotiation=maybe
    $ devdry verify --links l4.link
    l4.link:2: L4 bad value: enx[[:xdigit:]]*
    l4.link:3: L4 bad value: pci-0000:00:* "usb-1
    l4.link:6: L4 bad value: kernel datebase
    l4.link:7: L4 bad value: a-name-that-is-too-long
    l4.link:8: L4 bad value: maybe
    1 files checked, 0 good, 1 bad
    $ cat l4-fixed.link
    [Match]
    OriginalName=enx[0-9a-f]*
    Path=pci-0000:00:* usb-1

    [Link]
    NamePolicy=kernel database
    Name=lan0
    AutoNegotiation=yes
    $ devdry verify --links l4-fixed.link
    1 files checked, 1 good, 0 bad
"#
);

/// File for no interface.
pub(crate) const L5: &str = concat!(
    r#"L5 file for no interface

Give a key of [Match], such as OriginalName=*, by which the file is for an interface. A file without one, together with its drop-ins, is for none, though "#,
    r#"systemd.link(5) says that it is for all. Words that are dropped as bad values don't count.

    $ cat l5.link
    [Match]

    [Link]
    WakeOnLan=magic
    $ devdry verify --links l5.link
    l5.link:1: L5 file for no interface
    1 files checked, 0 good, 1 bad
    $ cat l5-fixed.link
    [Match]
    OriginalName=*

    [Link]
    WakeOnLan=magic
    $ devdry verify --links l5-fixed.link
    1 files checked, 1 good, 0 bad
"#
);
