//! How many bytes a text may have.

/// The most bytes of a rendered text.
pub const MAX_BYTES: usize = 16384;

/// The most bytes that udev (systemd 257) has room for in a value: a name, an owner, a property, an attribute or a
/// parameter.
pub const MAX_VALUE_BYTES: usize = 511;

/// The most bytes that it has room for in a path, and in texts that it treats alike: links, tags and names of devices.
pub const MAX_PATH_BYTES: usize = 1023;

/// The most bytes that it has room for in a command and in a label.
pub const MAX_COMMAND_BYTES: usize = 16383;
