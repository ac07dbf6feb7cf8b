//! What is true of the definitions of usb_id, whatever the device.
//!
//! Each function here is empty: its contract is the law.
ghost use Rattle.std.specs.Prelude.{◌≤◌, List, ℕ, length};
ghost use Rattle.device_core.specs.Values.{EventValue};
ghost use Rattle.builtin_usb.specs.Identities.{IdentityValue, full_serial};
ghost use Rattle.builtin_usb.specs.Interfaces.{interfaces, most_interfaces};
ghost use Rattle.builtin_usb.specs.Laws.{BusDoesNotMatter, IsBetweenColons, ReportedTwice};

/// ID_SERIAL has at most 255 bytes.
pub fn serials_are_short()
    ensures { (i : IdentityValue) → length (full_serial i) ≤ 255 }
{}

/// At most 72 interfaces are reported.
pub fn interfaces_are_few()
    ensures { (file : List ℕ) → length (interfaces file) ≤ most_interfaces }
{}

/// If the descriptors end as they should, a text of interfaces begins with a colon and ends in one.
pub fn interfaces_are_between_colons()
    ensures { (file : List ℕ) → IsBetweenColons file }
{}

/// What is reported after `ID_` is also reported after `ID_USB_`, with the same values in the same order.
pub fn properties_are_reported_twice()
    ensures { (i : IdentityValue) → ReportedTwice i }
{}

/// Whether ID_BUS was set before decides neither whether the builtin succeeds, nor which `ID_USB_` properties it
/// sets, nor what the block would have to report.
pub fn bus_does_not_matter()
    ensures { (event : EventValue) → BusDoesNotMatter event }
{}
