//! Diagnostics beside a count of tokens.

use engine_formats::Diagnostic;

/// Diagnostics of rules files, and how many tokens are left in their rules.
#[derive(Drop)]
pub(crate) struct Counted<'r> {
    /// The diagnostics.
    pub(crate) diagnostics: Vec<Diagnostic<'r>>,
    /// How many tokens are left in the rules.
    pub(crate) tokens: usize,
}
