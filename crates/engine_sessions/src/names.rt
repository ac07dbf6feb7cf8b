//! The options that a file may give, by what they have after their name.
ghost use Rattle.std.specs.Prelude.{◌≡◌, map};
ghost use Rattle.engine_sessions.specs.Names.{flag_names, repeated_names, valued_names};

/// Options without a value.
const FLAGS: &[&str] = &[
    "all",
    "check",
    "links",
    "lint",
    "no-style",
    "no-summary",
    "questions",
    "rules",
    "sources",
    "strict",
    "udev",
    "unused",
];

/// Options with a value, each of which can be given once.
const VALUED: &[&str] = &[
    "color",
    "format",
    "groups",
    "index",
    "root",
    "stdin-name",
    "users",
];

/// Options with a value, each of which can be given any number of times.
const REPEATED: &[&str] = &["ignore", "why", "with"];

/// Options without a value.
#[tactic(auto, unfolding(crate::specs::Names::flag_names))]
pub fn flag_names() -> &'static [&'static str]
    ensures { map (λ n. n.now) result.now ≡ flag_names }
{
    FLAGS
}

/// Options with a value, each of which can be given once.
#[tactic(auto, unfolding(crate::specs::Names::valued_names))]
pub fn valued_names() -> &'static [&'static str]
    ensures { map (λ n. n.now) result.now ≡ valued_names }
{
    VALUED
}

/// Options with a value, each of which can be given any number of times.
#[tactic(auto, unfolding(crate::specs::Names::repeated_names))]
pub(crate) fn repeated_names() -> &'static [&'static str]
    ensures { map (λ n. n.now) result.now ≡ repeated_names }
{
    REPEATED
}
