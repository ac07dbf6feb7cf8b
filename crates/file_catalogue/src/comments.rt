//! The sections on remarks on comments that ignore messages.
//!
//! `tests/test_explain.sh` compares them with those of `docs/messages.md`.

/// Nothing to ignore.
pub(crate) const I1: &str = r#"I1 nothing to ignore

Remove the code from the comment, which silences nothing.

    $ cat i1.rules
    # devdry: ignore V6,S2
    KERNEL=="sda",TAG+="disk"
    $ devdry verify --ignore comments i1.rules
    i1.rules:1: I1 nothing to ignore: V6
    1 files checked, 0 good, 1 bad
    $ cat i1-fixed.rules
    # devdry: ignore S2
    KERNEL=="sda",TAG+="disk"
    $ devdry verify --ignore comments i1-fixed.rules
    1 files checked, 1 good, 0 bad
"#;

/// Unknown code.
pub(crate) const I2: &str = concat!(
    r#"I2 unknown code

Write "ignore" or "ignore-file", a space, and codes such as V6,S2. A comment that begins with `# devdry:` and goes on in another way is I2, too, with what "#,
    r#"follows the colon.

    $ cat i2.rules
    # devdry: ignore X2
    KERNEL=="sda",TAG+="disk"
    $ devdry verify --ignore comments i2.rules
    i2.rules:1: I2 unknown code: X2
    i2.rules:2: S2 blank after a comma expected: TAG
    1 files checked, 0 good, 1 bad
    $ cat i2-fixed.rules
    # devdry: ignore S2
    KERNEL=="sda",TAG+="disk"
    $ devdry verify --ignore comments i2-fixed.rules
    1 files checked, 1 good, 0 bad
"#
);
