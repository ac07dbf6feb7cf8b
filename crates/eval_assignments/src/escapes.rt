//! What becomes of bytes of links and names that do not belong there, as OPTIONS of a rule has it.
ghost use Rattle.std.specs.Prelude.{◌≡◌, IfOk};
ghost use Rattle.eval_assignments.specs.Escapes.{escape_after, escape_of, mode_of, underscored_byte, with_underscores};

use eval_rendering::Mode;
use rule_types::{Assignment, Change, RuleOption, Target};
use std::alloc::{AllocError, Global};
use text_bytes::Profile;

/// How a rule treats bytes of links and names.
#[derive(Clone, Copy, PartialEq, Eq)]
pub enum Escape {
    /// Bytes that do not belong there are replaced; spaces separate links.
    Usual,
    /// `string_escape=none`: nothing is replaced; spaces separate links.
    Keep,
    /// `string_escape=replace`: spaces in links are replaced, too.
    Replace,
}

/// How a rule treats bytes after one more assignment.
fn escape_after(escape: Escape, change: &Change) -> Escape
    ensures { result ≡ escape_after escape change.now }
{
    match change {
        Change::Option(RuleOption::KeepEscapes) => Escape::Keep,
        Change::Option(RuleOption::ReplaceEscapes) => Escape::Replace,
        _ => escape,
    }
}

/// How a rule with these assignments treats bytes: by its last `string_escape`, wherever it is.
#[tactic(auto, unfolding(crate::specs::Escapes::escape_of))]
pub(crate) fn escape_of(sets: &[Assignment]) -> Escape
    ensures { result ≡ escape_of sets.now }
{
    let mut escape = Escape::Usual;
    for assignment in sets {
        escape = escape_after(escape, &assignment.change);
    }
    escape
}

/// What a text is rendered for: links and names are made safe unless the rule keeps their bytes; udev has a replacement
/// of its own for bytes of a name.
pub(crate) fn mode_of(profile: Profile, target: &Target, escape: Escape) -> Mode
    ensures { result ≡ mode_of profile target.now escape }
{
    match escape {
        Escape::Keep => Mode::Plain,
        _ => match target {
            Target::Symlink => Mode::Link,
            Target::Name => match profile {
                Profile::Manual => Mode::Link,
                Profile::Udev => Mode::Plain,
            },
            _ => Mode::Plain,
        },
    }
}

/// A byte, with `_` for a space.
fn underscored_byte(byte: u8) -> u8
    ensures { result ≡ underscored_byte byte }
{
    if byte == b' ' { b'_' } else { byte }
}

/// A text with `_` for its spaces.
pub(crate) fn with_underscores(alloc: Global, text: &[u8]) -> Result<Vec<u8>, AllocError>
    ensures { IfOk result (λ whole. whole.items ≡ with_underscores text.now) }
{
    text.iter()
        .map(|byte| underscored_byte(*byte))
        .collect(alloc)
}
