//! The sections on faults of rules.
//!
//! `tests/test_explain.sh` compares them with those of `docs/messages.md`.

/// Bad syntax.
pub(crate) const V1: &str = concat!(
    r#"V1 bad syntax

No `KEY{attribute} operator "value"` begins here: most often a quote is missing. In the example it is the one after `sd*`: the value then ends at the next "#,
    r#"quote, and the rest makes no sense.

    $ cat v1.rules
    KERNEL=="sd*, TAG+="disk"
    SUBSYSTEM==block, TAG+="disk"
    $ devdry verify v1.rules
    v1.rules:1: V1 bad syntax: disk"
    v1.rules:2: V1 bad syntax: SUBSYSTEM==block, TAG+="disk"
    1 files checked, 0 good, 1 bad
    $ cat v1-fixed.rules
    KERNEL=="sd*", TAG+="disk"
    SUBSYSTEM=="block", TAG+="disk"
    $ devdry verify v1-fixed.rules
    1 files checked, 1 good, 0 bad

A word that begins with `\x0D` is the carriage return of a file with the line ends of another system.

    $ printf 'KERNEL=="sd*", TAG+="disk"\r\n' > v1-ends.rules
    $ devdry verify --no-summary v1-ends.rules
    v1-ends.rules:1: V1 bad syntax: \x0D
    $ tr -d '\r' < v1-ends.rules > v1-ends-fixed.rules
    $ devdry verify v1-ends-fixed.rules
    1 files checked, 1 good, 0 bad
"#
);

/// Unknown key.
pub(crate) const V2: &str = r#"V2 unknown key

Keys are written in capitals, and those that look at a parent end in `S`.

    $ cat v2.rules
    subsystem=="block", KERNEL=="sd*", TAG+="disk"
    SUBSYSTEMM=="block", TAG+="disk"
    $ devdry verify v2.rules
    v2.rules:1: V2 unknown key: subsystem
    v2.rules:2: V2 unknown key: SUBSYSTEMM
    1 files checked, 0 good, 1 bad
    $ cat v2-fixed.rules
    SUBSYSTEM=="block", KERNEL=="sd*", TAG+="disk"
    SUBSYSTEM=="block", TAG+="disk"
    $ devdry verify v2-fixed.rules
    1 files checked, 1 good, 0 bad
"#;

/// Operator not allowed.
pub(crate) const V3: &str = concat!(
    r#"V3 operator not allowed

Use `==` or `!=` to compare, and another operator to assign: this key takes only some of them. A key that looks at the device can't be assigned; OWNER, "#,
    r#"GROUP, MODE and RUN can't be compared.

    $ cat v3.rules
    KERNEL="sd*", TAG+="disk"
    KERNEL=="sd*", GROUP=="disk"
    $ devdry verify v3.rules
    v3.rules:1: V3 operator not allowed: KERNEL
    v3.rules:2: V3 operator not allowed: GROUP
    1 files checked, 0 good, 1 bad
    $ cat v3-fixed.rules
    KERNEL=="sd*", TAG+="disk"
    KERNEL=="sd*", GROUP="disk"
    $ devdry verify v3-fixed.rules
    1 files checked, 1 good, 0 bad
"#
);

/// Attribute missing or not allowed.
pub(crate) const V4: &str = concat!(
    r#"V4 attribute missing or not allowed

ATTR, ENV and a few more need a name in braces; most other keys take none. The few are ATTRS, SYSCTL, SECLABEL, CONST and IMPORT. RUN and TEST take only "#,
    r#"certain names. With `--udev` CONST takes only `arch` and `virt`, and TEST any mode up to 7777.

    $ cat v4.rules
    ATTR=="1", TAG+="x"
    KERNEL{name}=="sda", TAG+="x"
    KERNEL=="sda", RUN{shell}+="/bin/true"
    TEST{999}=="/run/x", TAG+="x"
    $ devdry verify v4.rules
    v4.rules:1: V4 attribute missing or not allowed: ATTR
    v4.rules:2: V4 attribute missing or not allowed: KERNEL
    v4.rules:3: V4 attribute missing or not allowed: RUN
    v4.rules:4: V4 attribute missing or not allowed: TEST
    1 files checked, 0 good, 1 bad
    $ cat v4-fixed.rules
    ATTR{removable}=="1", TAG+="x"
    KERNEL=="sda", TAG+="x"
    KERNEL=="sda", RUN{program}+="/bin/true"
    TEST{0444}=="/run/x", TAG+="x"
    $ devdry verify v4-fixed.rules
    1 files checked, 1 good, 0 bad
"#
);

/// Bad value.
pub(crate) const V5: &str = concat!(
    r#"V5 bad value

Use one of the values that this key takes. The value is an unknown option of OPTIONS, an empty name of LABEL or GOTO, or `i"..."` where it has no meaning. "#,
    r#"`last_rule` of old versions of udev has no replacement; a jump to the end of the file at least skips the other rules of this file. With `--udev` a "#,
    r#"rule with an unknown option is kept if it has another effect, an empty name is a name like any other, and the value of `log_level` is checked, too.

    $ cat v5.rules
    KERNEL=="sda", OPTIONS+="last_rule"
    KERNEL=="sdb", OPTIONS+="link_priority=high"
    PROGRAM==i"/bin/id", TAG+="x"
    $ devdry verify v5.rules
    v5.rules:1: V5 bad value: last_rule
    v5.rules:2: V5 bad value: link_priority=high
    v5.rules:3: V5 bad value: /bin/id
    1 files checked, 0 good, 1 bad
    $ cat v5-fixed.rules
    KERNEL=="sda", GOTO="end"
    KERNEL=="sdb", OPTIONS+="link_priority=100"
    PROGRAM=="/bin/id", TAG+="x"
    LABEL="end"
    $ devdry verify v5-fixed.rules
    1 files checked, 1 good, 0 bad
"#
);

/// Bad substitution.
pub(crate) const V6: &str = concat!(
    r#"V6 bad substitution

Write one of udev's names or letters after `$` and `%`; the signs themselves are `$$` and `%%`. They are listed in behaviour.md. Of those that udev still "#,
    r#"accepts, write `$devnode` for `$tempnode` and `$attr{..}` for `$sysfs{..}`; for `%d`, `%D` and `%L` see differences.md. With `--udev` all of these "#,
    r#"are substitutions, and a rule with a bad one is kept.

    $ cat v6.rules
    KERNEL=="sda", SYMLINK+="disk/$device"
    KERNEL=="sda", ENV{LABEL}="100%"
    KERNEL=="sda", ENV{VENDOR}="$attr"
    $ devdry verify v6.rules
    v6.rules:1: V6 bad substitution: disk/$device
    v6.rules:2: V6 bad substitution: 100%
    v6.rules:3: V6 bad substitution: $attr
    1 files checked, 0 good, 1 bad
    $ cat v6-fixed.rules
    KERNEL=="sda", SYMLINK+="disk/$kernel"
    KERNEL=="sda", ENV{LABEL}="100%%"
    KERNEL=="sda", ENV{VENDOR}="$attr{vendor}"
    $ devdry verify v6-fixed.rules
    1 files checked, 1 good, 0 bad
"#
);

/// No later label.
pub(crate) const V7: &str = r#"V7 no later label

A jump goes forward only, and stays in its file: give a later rule this label. The jump is dropped, and the rule is kept.

    $ cat v7.rules
    LABEL="disks"
    SUBSYSTEM!="block", GOTO="end_of_disks"
    KERNEL=="sd*", TAG+="disk"
    LABEL="disks_end"
    $ devdry verify v7.rules
    v7.rules:1: S4 label unused: disks
    v7.rules:2: V7 no later label: end_of_disks
    v7.rules:4: S4 label unused: disks_end
    1 files checked, 0 good, 1 bad
    $ cat v7-fixed.rules
    SUBSYSTEM!="block", GOTO="disks_end"
    KERNEL=="sd*", TAG+="disk"
    LABEL="disks_end"
    $ devdry verify v7-fixed.rules
    1 files checked, 1 good, 0 bad
"#;

/// Label or goto given twice.
pub(crate) const V8: &str = r#"V8 label or goto given twice

A rule has one label and one jump; the later ones are dropped. With `--udev` the earlier labels are dropped, and the later jumps.

    $ cat v8.rules
    KERNEL=="sd*", GOTO="disk"
    KERNEL=="sr*", GOTO="optical"
    LABEL="disk", LABEL="optical", TAG+="x"
    $ devdry verify v8.rules
    v8.rules:2: V7 no later label: optical
    v8.rules:3: V8 label or goto given twice: optical
    1 files checked, 0 good, 1 bad
    $ cat v8-fixed.rules
    KERNEL=="sd*|sr*", GOTO="disk"
    LABEL="disk", TAG+="x"
    $ devdry verify v8-fixed.rules
    1 files checked, 1 good, 0 bad
"#;

/// Line too long.
pub(crate) const V9: &str = concat!(
    r#"V9 line too long

A rule has at most 16,384 bytes, its continued lines together. With `--udev` continued lines have at most 16,383 together, and a single line that is longer "#,
    r#"is V26.

    $ { printf 'KERNEL=="sda"'; for i in $(seq 1000); do printf ', ENV{NUMBER_%s}="1"' $i; done; echo; } > v9.rules
    $ devdry verify v9.rules
    v9.rules:1: V9 line too long
    1 files checked, 0 good, 1 bad
    $ for i in $(seq 1000); do echo "KERNEL==\"sda\", ENV{NUMBER_$i}=\"1\""; done > v9-fixed.rules
    $ devdry verify v9-fixed.rules
    1 files checked, 1 good, 0 bad
"#
);

/// Bad quote prefix.
pub(crate) const V10: &str = r#"V10 bad quote prefix

Only `e`, for escapes, may come before the quotes, and after `==` and `!=` also `i`, to ignore case.

    $ cat v10.rules
    KERNEL=="sda", SYMLINK+=i"disk"
    KERNEL==r"sda", TAG+="disk"
    $ devdry verify v10.rules
    v10.rules:1: V10 bad quote prefix: i
    v10.rules:2: V10 bad quote prefix: r
    1 files checked, 0 good, 1 bad
    $ cat v10-fixed.rules
    KERNEL==i"sda", SYMLINK+="disk"
    KERNEL==e"sd\x61", TAG+="disk"
    $ devdry verify v10-fixed.rules
    1 files checked, 1 good, 0 bad
"#;

/// Set not supported.
pub(crate) const V11: &str = r#"V11 set not supported

A class of the C library depends on the locale: write its members out. With `--udev` classes are read as udev reads them, and no match is refused.

    $ cat v11.rules
    KERNEL=="sd[[:alpha:]]", TAG+="disk"
    $ devdry verify v11.rules
    v11.rules:1: V11 set not supported: sd[[:alpha:]]
    1 files checked, 0 good, 1 bad
    $ cat v11-fixed.rules
    KERNEL=="sd[a-zA-Z]", TAG+="disk"
    $ devdry verify v11-fixed.rules
    1 files checked, 1 good, 0 bad
"#;

/// Line continuation at the file's end.
pub(crate) const V12: &str = concat!(
    r#"V12 line continuation at the file's end

Remove the backslash, or add the line that should follow. A backslash at the end means that the rule goes on, but nothing follows: half a rule could do the "#,
    r#"wrong thing, so it is dropped. With `--udev` the number is that of the file's last line.

    $ cat v12.rules
    KERNEL=="sd*", \
      TAG+="disk", \
    $ devdry verify v12.rules
    v12.rules:1: V12 line continuation at the file's end
    1 files checked, 0 good, 1 bad
    $ cat v12-fixed.rules
    KERNEL=="sd*", \
      TAG+="disk"
    $ devdry verify v12-fixed.rules
    1 files checked, 1 good, 0 bad
"#
);
