//! The sections on remarks on how rules are written.
//!
//! `tests/test_explain.sh` compares them with those of `docs/messages.md`.

/// One comma expected.
pub(crate) const S1: &str = r#"S1 one comma expected

Put one comma between two tokens, and none after the last. The word is the second of the two; without a word the rule ends in a comma.

    $ cat s1.rules
    KERNEL=="sda" TAG+="disk"
    KERNEL=="sdb",, TAG+="disk"
    KERNEL=="sdc", TAG+="disk",
    $ devdry verify s1.rules
    s1.rules:1: S1 one comma expected: TAG
    s1.rules:2: S1 one comma expected: TAG
    s1.rules:3: S1 one comma expected
    1 files checked, 0 good, 1 bad
    $ cat s1-fixed.rules
    KERNEL=="sda", TAG+="disk"
    KERNEL=="sdb", TAG+="disk"
    KERNEL=="sdc", TAG+="disk"
    $ devdry verify s1-fixed.rules
    1 files checked, 1 good, 0 bad
"#;

/// Blank after a comma expected.
pub(crate) const S2: &str = r#"S2 blank after a comma expected

Put a space after the comma.

    $ cat s2.rules
    KERNEL=="sda",TAG+="disk"
    $ devdry verify s2.rules
    s2.rules:1: S2 blank after a comma expected: TAG
    1 files checked, 0 good, 1 bad
    $ cat s2-fixed.rules
    KERNEL=="sda", TAG+="disk"
    $ devdry verify s2-fixed.rules
    1 files checked, 1 good, 0 bad
"#;

/// Operator read as =.
pub(crate) const S3: &str = r#"S3 operator read as =

The key has no `:=` or `+=` of its own: write `=`. With `--udev` this is V24.

    $ cat s3.rules
    KERNEL=="sda", ENV{ID_MINE}:="1"
    KERNEL=="sda", MODE+="0660"
    $ devdry verify s3.rules
    s3.rules:1: S3 operator read as =: ENV
    s3.rules:2: S3 operator read as =: MODE
    1 files checked, 0 good, 1 bad
    $ cat s3-fixed.rules
    KERNEL=="sda", ENV{ID_MINE}="1"
    KERNEL=="sda", MODE="0660"
    $ devdry verify s3-fixed.rules
    1 files checked, 1 good, 0 bad
"#;

/// Label unused.
pub(crate) const S4: &str = r#"S4 label unused

Remove the label, or correct the GOTO that should go to it. No jump of this file goes to the label. After a rename the jump is reported too, as V7.

    $ cat s4.rules
    SUBSYSTEM=="block", TAG+="disk"
    LABEL="disks_end"
    $ devdry verify s4.rules
    s4.rules:2: S4 label unused: disks_end
    1 files checked, 0 good, 1 bad
    $ cat s4-fixed.rules
    SUBSYSTEM!="block", GOTO="disks_end"
    TAG+="disk"
    LABEL="disks_end"
    $ devdry verify s4-fixed.rules
    1 files checked, 1 good, 0 bad
"#;
