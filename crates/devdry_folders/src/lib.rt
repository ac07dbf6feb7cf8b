//! Reading that continues after files that can't be read, and the report on the folders that are read.
//!
//! `devdry_files` stops at the first file that can't be read, as the commands do by default. This crate visits every
//! file and folder that a command line asks for: it keeps what it found there, or why it could not be read, and makes
//! the whole report from that.
#![tactic(auto)]

mod advice;
mod elsewhere;
mod files;
mod indexes;
mod laws;
mod lying;
mod meetings;
mod missing;
mod nothing;
mod reading;
mod reasons;
mod sight_status;
mod sights;
mod unread;
mod visiting;

pub use advice::advice_at;
pub use laws::{
    a_link_to_nothing_is_told, a_path_leads_to_a_place_inside_its_root,
    each_reason_has_its_own_advice, no_file_is_reported_where_none_is_handed_on,
    the_file_that_counts_is_the_one_that_is_read, what_could_not_be_read_makes_the_status,
};
pub use lying::rules_lying;
pub use reading::{
    Listed, ReadSome, Report, least_status, list_files, read_files_that_can, read_what_can,
    report_on_files,
};
pub use reasons::{Reason, push_escaped};
pub use sights::{Met, Scan, Sight, Spot};
pub use unread::push_on_scan;
pub use visiting::scan_folder;
