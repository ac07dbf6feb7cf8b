//! The two readings of rules that can be asked for.

/// Which authority is followed where the manual and udev differ.
#[derive(Clone, Copy, PartialEq, Eq)]
pub enum Profile {
    /// The manual pages udev(7) and udevadm(8).
    Manual,
    /// udev as systemd 257 has it.
    Udev,
}
