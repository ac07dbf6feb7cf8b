//! What the command of an IMPORT{builtin} asks for: its words, the builtin that it names, and the options of `hwdb`; and
//! what the kernel's command line gives an IMPORT{cmdline}.
//!
//! For `hwdb` also what it looks up: the devices, their modaliases, what the database has for these, and what a block would
//! have to report for it.
#![tactic(auto)]

mod builtin;
mod candidates;
mod cmdline;
mod hwdb;
mod laws;
mod lookups;
mod needs;
mod request;
mod seen;
mod udev_hwdb;
mod unquoted;
mod usb_modalias;
mod words;

pub use builtin::{Builtin, builtin_question};
pub use cmdline::{cmdline_value, has_word};
pub use hwdb::Hwdb;
pub use laws::a_modalias_is_looked_up_whatever_device_is_named;
pub use lookups::look_up;
pub use needs::lookup_needs;
pub use request::{Request, other_name, request_of};
pub use words::is_quote;
