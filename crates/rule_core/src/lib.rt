//! Rules, as described in udev(7): the crate with which the crates above read rules.
//!
//! A file is joined into lines, each line is read as a draft of a rule, and the jumps of a file are resolved once for
//! all its rules. The crates below come with this one.
//!
//! Where udev(7) and udev itself differ, a `Profile` says which of them to follow. For udev, line ends have to be
//! turned into newlines first, by `files_as_read`.
#![tactic(auto)]

mod counts;
mod draft;
mod draft_reading;
mod effects;
mod fault;
mod findings;
mod gathered;
mod joined;
mod joining;
mod kinds;
mod landed_lines;
mod letters;
mod line_ends;
mod line_fault;
mod messages;
mod names;
mod notes;
mod pieces;
mod places;
mod read_set;
mod reading;
mod readings;
mod spot;
mod style;
mod sums;
mod turns;

pub use counts::{MAX_TOKENS, token_count};
pub use draft::Draft;
pub use fault::RulesFault;
pub use findings::line_findings;
pub use joined::{JoinedLine, JoinedLines};
pub use joining::joined_lines;
pub use landed_lines::LandedLines;
pub use line_ends::{abandoned_at, file_as_read, files_as_read, is_too_long};
pub use names::NamePlace;
pub use notes::{LineNotes, note_lines};
pub use places::{between, following};
pub use read_set::ReadRules;
pub use reading::{read_rules, read_rules_as};
pub use readings::{LandedReading, Reading, read_line, read_lines};
pub use rule_tokens::{
    Operator, Piece, Quote, Span, Template, TemplateFault, Token, TokenFault, TokenFaultKind,
    Tokens, unquote,
};
pub use rule_types::{
    Act, ActKind, AssignOperator, Assignment, Change, Comparison, Import, ImportType, Key,
    MatchOperator, PlainKey, PlainMatch, Rule, RuleOption, RuleSet, RunType, Spot, Target, UpKey,
    UpMatch, WrittenPart, spot_at_key, value_spot,
};
pub use spot::{attribute_spot, key_spot};
pub use style::{commas, has_blank_before_comma};
pub use sums::sum_of;
