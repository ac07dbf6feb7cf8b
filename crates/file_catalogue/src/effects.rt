//! The sections on lints of what rules assign.
//!
//! `tests/test_explain.sh` compares them with those of `docs/messages.md`.

/// List replaced.
pub(crate) const W20: &str = concat!(
    r#"W20 list replaced

Write `+=` to add, or `:=` if no other value is wanted. After RUN, SYMLINK and TAG the operator `=` takes away what earlier rules added, also those of other "#,
    r#"files. An empty value is taken to be meant.

    $ cat w20.rules
    KERNEL=="sda", RUN="/bin/info"
    $ devdry verify --lint w20.rules
    w20.rules:1: W20 list replaced: RUN
    1 files checked, 0 good, 1 bad
    $ cat w20-fixed.rules
    KERNEL=="sda", RUN+="/bin/info"
    $ devdry verify --lint w20-fixed.rules
    1 files checked, 1 good, 0 bad
"#
);

/// Value assigned instead of compared.
pub(crate) const W21: &str = concat!(
    r#"W21 value assigned instead of compared

Write `==` to compare the value. Reported are an attribute that the kernel lets no one write, and a property by which rules tell devices apart, such as "#,
    r#"ID_BUS, that gets a constant in a rule that changes its device: its link, name, owner, group, mode, security label or an attribute, a kernel "#,
    r#"parameter, or by a command.

    $ cat w21.rules
    KERNEL=="sd?", ATTR{removable}="1", GROUP="plugdev"
    KERNEL=="sd?", ENV{ID_BUS}="usb", GROUP="plugdev"
    $ devdry verify --lint w21.rules
    w21.rules:1: W21 value assigned instead of compared: ATTR
    w21.rules:2: W21 value assigned instead of compared: ENV
    1 files checked, 0 good, 1 bad
    $ cat w21-fixed.rules
    KERNEL=="sd?", ATTR{removable}=="1", GROUP="plugdev"
    KERNEL=="sd?", ENV{ID_BUS}=="usb", GROUP="plugdev"
    $ devdry verify --lint w21-fixed.rules
    1 files checked, 1 good, 0 bad
"#
);

/// Unit wanted without a tag.
pub(crate) const W23: &str = concat!(
    r#"W23 unit wanted without a tag

Add `TAG+="systemd"` to the rule. systemd sees tagged devices only, and its own rules do not tag those of this subsystem. Not reported if any rule of the "#,
    r#"file gives or compares a tag.

    $ cat w23.rules
    SUBSYSTEM=="usb", ATTR{idVendor}=="0421", ENV{SYSTEMD_WANTS}+="phone.service"
    $ devdry verify --lint w23.rules
    w23.rules:1: W23 unit wanted without a tag: ENV
    1 files checked, 0 good, 1 bad
    $ cat w23-fixed.rules
    SUBSYSTEM=="usb", ATTR{idVendor}=="0421", ENV{SYSTEMD_WANTS}+="phone.service", TAG+="systemd"
    $ devdry verify --lint w23-fixed.rules
    1 files checked, 1 good, 0 bad
"#
);

/// Command that cannot work.
pub(crate) const W24: &str = r#"W24 command that cannot work

Start a service by SYSTEMD_WANTS, or run `systemd-mount`. udev runs commands in a sandbox, in which they neither mount nor use the network.

    $ cat w24.rules
    KERNEL=="sda1", RUN+="/bin/mount /dev/sda1 /media/disk"
    $ devdry verify --lint w24.rules
    w24.rules:1: W24 command that cannot work: /bin/mount /dev/sda1 /media/disk
    1 files checked, 0 good, 1 bad
    $ cat w24-fixed.rules
    KERNEL=="sda1", RUN+="/usr/bin/systemd-mount /dev/sda1 /media/disk"
    $ devdry verify --lint w24-fixed.rules
    1 files checked, 1 good, 0 bad
"#;

/// Link of a network device.
pub(crate) const W26: &str = concat!(
    r#"W26 link of a network device

Give the interface a NAME: it has no node, and so no links. udev makes links in `/dev` to nodes, and an interface of the network is no file there. A `.link` "#,
    r#"file can give it a name, too, and other names that `ip` knows.

    $ cat w26.rules
    SUBSYSTEM=="net", ATTR{address}=="02:00:00:00:00:01", SYMLINK+="lan"
    $ devdry verify --lint w26.rules
    w26.rules:1: W26 link of a network device: lan
    1 files checked, 0 good, 1 bad
    $ cat w26-fixed.rules
    SUBSYSTEM=="net", ATTR{address}=="02:00:00:00:00:01", NAME="lan"
    $ devdry verify --lint w26-fixed.rules
    1 files checked, 1 good, 0 bad
"#
);

/// Tag uaccess in a late file.
pub(crate) const W27: &str = concat!(
    r#"W27 tag uaccess in a late file

Give the file a name before 73-seat-late.rules, such as 70-mine.rules. udev evaluates rules files in the order of their names, and that one gives users at "#,
    r#"the machine access to devices that have the tag by then. The first rule of the file that gives it is reported. A file with a rule that runs the "#,
    r#"builtin `uaccess` itself is not reported, nor one whose name does not end in `.rules`.

    $ cat 99-mine.rules
    SUBSYSTEM=="usb", ATTR{idVendor}=="0421", TAG+="uaccess"
    $ devdry verify --lint 99-mine.rules
    99-mine.rules:1: W27 tag uaccess in a late file: TAG
    1 files checked, 0 good, 1 bad
    $ mv 99-mine.rules 70-mine.rules
    $ devdry verify --lint 70-mine.rules
    1 files checked, 1 good, 0 bad
"#
);
