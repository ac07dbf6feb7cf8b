//! What a rule can have changed.
//!
//! A rule that adds links and tags, sets properties, attributes, parameters or items of the node, or adds what is to be run
//! changes a few items, and these can be named. What another rule changes is not told apart: for udev the name of a parameter
//! is rendered before the rule is done.
ghost use Rattle.std.specs.Prelude.{◌≡◌};
ghost use Rattle.std.specs.List.{list_any};
ghost use Rattle.eval_sources.specs.Touched as names;

use eval_state::Scene;
use rule_tokens::has_sign;
use rule_types::{AssignOperator, Assignment, Change, Rule, Target};
use text_bytes::Profile;

/// How many links and tags a scene has, and how many of its tags were removed.
#[derive(Clone, Copy)]
pub(crate) struct Sizes {
    pub(crate) links: usize,
    pub(crate) tags: usize,
    gone: usize,
}

impl Sizes {
    /// Those of a scene.
    pub(crate) fn of(scene: &Scene<'_>) -> Sizes
        ensures { result ≡ names.sizes scene.now }
    {
        Sizes {
            links: scene.state.links.as_slice().len(),
            tags: scene.state.tags.as_slice().len(),
            gone: scene.gone.as_slice().len(),
        }
    }
}

/// Whether an operator only adds.
fn only_adds(operator: AssignOperator) -> bool
    ensures { result ≡ names.only_adds operator }
{
    match operator {
        AssignOperator::Add => true,
        _ => false,
    }
}

/// Whether a profile is udev's.
fn is_udev(profile: Profile) -> bool
    ensures { result ≡ names.is_udev profile }
{
    match profile {
        Profile::Manual => false,
        Profile::Udev => true,
    }
}

/// Whether a text that is assigned can change more items than those that are added and the one that it names.
fn is_wide_text(profile: Profile, operator: AssignOperator, target: &Target) -> bool
    ensures { result ≡ names.is_wide_text profile operator target.now }
{
    match target {
        Target::Symlink | Target::Tag => !only_adds(operator),
        Target::Sysctl(name) => is_udev(profile) && has_sign(name.as_slice()),
        Target::Seclabel(_) => true,
        _ => false,
    }
}

/// Whether an assignment can change more items than that.
fn is_wide(profile: Profile, operator: AssignOperator, change: &Change) -> bool
    ensures { result ≡ names.is_wide profile operator change.now }
{
    match change {
        Change::Text(target, _) => is_wide_text(profile, operator, target),
        _ => false,
    }
}

/// Whether one of several assignments can.
fn any_is_wide(profile: Profile, sets: &[Assignment]) -> bool
    ensures { result ≡ list_any (λ a. names.is_wide profile a.operator a.change) sets.now }
{
    sets.iter()
        .any(|set| is_wide(profile, set.operator, &set.change))
}

/// Whether a rule can have changed more items than that, by what was there before it.
pub(crate) fn changes_more(rule: &Rule, was: Sizes, scene: &Scene<'_>) -> bool
    ensures { result ≡ names.changes_more rule.now was scene.now }
{
    let profile = scene.state.event.event().profile();
    any_is_wide(profile, &rule.sets) || Sizes::of(scene).gone != was.gone
}
