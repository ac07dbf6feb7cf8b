//! Laws of what is read: of texts and patterns, of rules files and all their parts, and of the database, its trie and its index.
//!
//! A law is the contract of a function with an empty body. No crate with code depends on this one.
#![tactic(auto)]

mod bounds;
mod checks;
mod drafts;
mod files;
mod images;
mod indexes;
mod jumps;
mod layout;
mod lines;
mod nodes;
mod parts;
mod paths;
mod patterns;
mod reading;
mod rules;
mod sources;
mod templates;
mod text_lines;
mod tokens;
mod tries;
mod udev;
mod udev_patterns;
mod written;
