//! What may stand between a key and its value.

use crate::entries::{Entry, entry};

/// What is told about each operator, in the order of `rule_tokens`.
pub(crate) const OPERATORS: [Entry; 6] = [
    entry!(
        "==",
        "Compares: the key holds if what it looks at fits the pattern. Patterns with `|` between them are alternatives.",
        r#"KERNEL=="sd*|nvme*", SUBSYSTEM=="block", TAG+="disk""#
    ),
    entry!(
        "!=",
        "Compares: the key holds if what it looks at fits none of the patterns.",
        r#"ACTION!="remove", SUBSYSTEM=="net", TAG+="systemd""#
    ),
    entry!(
        "+=",
        "Adds the value to those that are there: to the links, the tags, the commands, or the text of a property.",
        r#"SUBSYSTEM=="block", SYMLINK+="disk/mine/%k", TAG+="mine""#
    ),
    entry!(
        "-=",
        "Takes the value away from the tags or the links.",
        r#"SUBSYSTEM=="input", TAG-="seat""#
    ),
    entry!(
        ":=",
        "Sets the key to this value for good: later rules, in whatever file, can't change it.",
        r#"KERNEL=="ttyUSB0", GROUP:="dialout", MODE:="0660""#
    ),
    entry!(
        "=",
        "Sets the key to this value alone. For a key that holds a list, such as `SYMLINK`, `TAG` or `RUN`, it takes away what earlier \
         rules added.",
        r#"KERNEL=="ttyUSB*", GROUP="dialout", ENV{PORT_OF}="me""#
    ),
];
