//! Bytes, words and files: what every layer above uses to read and write texts.
//!
//! A text is bytes, and need not be UTF-8. This crate has the search for a byte, what readers share (lines and their
//! numbers, decimal numbers, blanks), and the input files with their order. It also has what udev makes of texts that devices
//! report about themselves: safe for links and attributes, joined to one word, encoded; and the names that the kernel gives
//! devices.
#![tactic(auto)]

mod bytes;
mod characters;
mod encodings;
mod escapes;
mod file_order;
mod kernels;
mod lines;
mod link_characters;
mod numbers;
mod profile;
mod safe;
mod search;
mod source_file;
mod texts;
mod underscores;

pub use bytes::Bytes;
pub use characters::{has_control, is_utf8, small};
pub use encodings::encoded;
pub use escapes::{escape, escaped_byte};
pub use file_order::order_files;
pub use kernels::{kernel_name, last_component, last_component_len, last_digits, trailing_digits};
pub use lines::{Line, Lines, first_line};
pub use link_characters::{no_character_has_these_numbers, value_safe};
pub use numbers::{capped, decimal_below, has_digits, is_decimal, is_digit, is_hexadecimal};
pub use profile::Profile;
pub use safe::{attribute_safe, link_safe};
pub use search::find;
pub use source_file::{FileKind, SourceFile};
pub use texts::{
    begins_with, ends_in, following, is_blank, is_whitespace, split_once, trimmed, unindented,
    up_to, without_last, word_of,
};
pub use underscores::{Word, underscored};
