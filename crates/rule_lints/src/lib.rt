//! Warnings about rules that are probably not what their author meant, rule by rule.
//!
//! Each lint looks at the tokens of one rule after they were read, and never rejects a rule: combinations of tokens, patterns
//! that fit nothing that the kernel writes, names that are near known ones, substitutions that are none, and what is assigned
//! where more was wanted. What the kernel and udev write and read, as far as the lints know it, is in `specs/Tables.antt` and
//! `specs/Kernel.antt`. Lints that need the other rules of a file are in `rule_file_lints`.
#![tactic(auto)]

mod assignments;
mod commands;
mod devices;
mod laws;
mod letter_case;
mod lint;
mod lints;
mod modes;
mod names;
mod near;
mod never;
mod parts;
mod patterns;
mod subjects;
mod tables;
mod texts;
mod value_laws;
mod value_lints;
mod value_texts;
mod values;

pub use assignments::{changes_device, has_key, is_about_tags};
pub use commands::first_word;
pub use laws::{
    braces_have_a_comma, capital_letters_are_never_written, modes_are_octal_numbers,
    open_parentheses_are_not_closed, rules_of_network_devices_ask_for_one,
    signs_are_outside_of_quotes, small_digits_of_aliases_are_never_written, some_aliases,
    some_commands, some_kinds_of_devices, some_links, some_modes, some_numbers, some_patterns,
    some_stars, something_of_members_is_no_pattern, strangers_are_of_two_groups,
    the_first_stranger_is_reported, what_always_holds_fits_each_text,
};
pub use lint::Lint;
pub use lints::{add_word, lints_of_rule};
pub use texts::rest_after_last;
pub use value_laws::{
    each_lint_of_a_value_has_its_reason, nothing_that_the_kernel_writes_fits, some_assignments,
    some_blanks_beside_bars, some_names, some_substitutions, some_values,
};
pub use value_lints::add_value_lints;
pub use value_texts::begins_with_one;
