//! The sections on faults of the database.
//!
//! `tests/test_explain.sh` compares them with those of `docs/messages.md`.

/// Property without a match.
pub(crate) const H1: &str = r#"H1 property without a match

Put the match above its properties. There is no empty line between them.

    $ cat h1.hwdb
     ID_VENDOR=Linux
    usb:v1D6B*
     ID_AUTOSUSPEND=1
    $ devdry query usb:v1D6Bp0002 h1.hwdb
    h1.hwdb:1: H1 property without a match: ID_VENDOR=Linux
    ID_AUTOSUSPEND=1
    $ cat h1-fixed.hwdb
    usb:v1D6B*
     ID_VENDOR=Linux
     ID_AUTOSUSPEND=1
    $ devdry query usb:v1D6Bp0002 h1-fixed.hwdb
    ID_AUTOSUSPEND=1
    ID_VENDOR=Linux
"#;

/// Match without a property.
pub(crate) const H2: &str = r#"H2 match without a property

Put the properties below the match, each after a space. Most often that space is missing, so that the property counts as another match.

    $ cat h2.hwdb
    usb:v1D6B*
    ID_VENDOR=Linux
    $ devdry query usb:v1D6Bp0002 h2.hwdb
    h2.hwdb:1: H2 match without a property: usb:v1D6B*
    $ cat h2-fixed.hwdb
    usb:v1D6B*
     ID_VENDOR=Linux
    $ devdry query usb:v1D6Bp0002 h2-fixed.hwdb
    ID_VENDOR=Linux
"#;

/// Unindented line after properties.
pub(crate) const H3: &str = r#"H3 unindented line after properties

Put an empty line between two records. The unindented line and the rest of its record are ignored.

    $ cat h3.hwdb
    usb:v1D6Bp0001*
     ID_MODEL=hub 1
    usb:v1D6Bp0002*
     ID_MODEL=hub 2
    $ devdry query usb:v1D6Bp0002 h3.hwdb
    h3.hwdb:3: H3 unindented line after properties: usb:v1D6Bp0002*
    $ cat h3-fixed.hwdb
    usb:v1D6Bp0001*
     ID_MODEL=hub 1

    usb:v1D6Bp0002*
     ID_MODEL=hub 2
    $ devdry query usb:v1D6Bp0002 h3-fixed.hwdb
    ID_MODEL=hub 2
"#;

/// No =.
pub(crate) const H4: &str = r#"H4 no =

A property is written `KEY=VALUE`.

    $ cat h4.hwdb
    usb:v1D6B*
     ID_VENDOR Linux
     ID_AUTOSUSPEND=1
    $ devdry query usb:v1D6Bp0002 h4.hwdb
    h4.hwdb:2: H4 no =: ID_VENDOR Linux
    ID_AUTOSUSPEND=1
    $ cat h4-fixed.hwdb
    usb:v1D6B*
     ID_VENDOR=Linux
     ID_AUTOSUSPEND=1
    $ devdry query usb:v1D6Bp0002 h4-fixed.hwdb
    ID_AUTOSUSPEND=1
    ID_VENDOR=Linux
"#;

/// Empty key.
pub(crate) const H5: &str = r#"H5 empty key

Write the property's key before the `=`.

    $ cat h5.hwdb
    usb:v1D6B*
     =Linux
     ID_AUTOSUSPEND=1
    $ devdry query usb:v1D6Bp0002 h5.hwdb
    h5.hwdb:2: H5 empty key: =Linux
    ID_AUTOSUSPEND=1
    $ cat h5-fixed.hwdb
    usb:v1D6B*
     ID_VENDOR=Linux
     ID_AUTOSUSPEND=1
    $ devdry query usb:v1D6Bp0002 h5-fixed.hwdb
    ID_AUTOSUSPEND=1
    ID_VENDOR=Linux
"#;

/// Pattern not supported.
pub(crate) const H6: &str = r#"H6 pattern not supported

A class of the C library depends on the locale: write its members out.

    $ cat h6.hwdb
    usb:v1D6Bp000[[:digit:]]*
     ID_VENDOR=Linux
    $ devdry query usb:v1D6Bp0002 h6.hwdb
    h6.hwdb:1: H6 pattern not supported: usb:v1D6Bp000[[:digit:]]*
    $ cat h6-fixed.hwdb
    usb:v1D6Bp000[0-9]*
     ID_VENDOR=Linux
    $ devdry query usb:v1D6Bp0002 h6-fixed.hwdb
    ID_VENDOR=Linux
"#;
