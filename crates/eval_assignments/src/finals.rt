//! Which key an assignment makes final after `:=`.
ghost use Rattle.std.specs.Prelude.{◌≡◌};
ghost use Rattle.eval_assignments.specs.Finality.{final_key, final_option, final_priority, final_target, finally, is_settled, settled};

use eval_state::{FinalKey, Finals, Scene};
use rule_types::{AssignOperator, Change, RuleOption, Target};
use text_bytes::Profile;

/// The key of a text that `:=` makes final, if there is one.
pub(crate) fn final_target(target: &Target) -> Option<FinalKey>
    ensures { result ≡ final_target target.now }
{
    match target {
        Target::Owner => Some(FinalKey::Owner),
        Target::Group => Some(FinalKey::Group),
        Target::Mode => Some(FinalKey::Mode),
        Target::Name => Some(FinalKey::Name),
        Target::Symlink => Some(FinalKey::Symlink),
        _ => None,
    }
}

/// The key of the priority of links that `:=` makes final: for udev it never is.
fn final_priority(profile: Profile) -> Option<FinalKey>
    ensures { result ≡ final_priority profile }
{
    match profile {
        Profile::Manual => Some(FinalKey::Priority),
        Profile::Udev => None,
    }
}

/// The key of an option that `:=` makes final, if there is one.
pub(crate) fn final_option(profile: Profile, option: RuleOption) -> Option<FinalKey>
    ensures { result ≡ final_option profile option }
{
    match option {
        RuleOption::LinkPriority(_) => final_priority(profile),
        RuleOption::Watch => Some(FinalKey::Watch),
        RuleOption::NoWatch => Some(FinalKey::Watch),
        _ => None,
    }
}

/// The key of an assignment that `:=` makes final by a profile, if there is one: for udev (systemd 257) the
/// priority of links is never final.
pub fn final_key(profile: Profile, change: &Change) -> Option<FinalKey>
    ensures { result ≡ final_key profile change.now }
{
    match change {
        Change::Option(option) => final_option(profile, *option),
        Change::Text(target, _) => final_target(target),
        Change::Run(_, _) => Some(FinalKey::Run),
    }
}

/// Whether a key, if there is one, no longer changes.
pub fn is_settled(key: Option<FinalKey>, finals: Finals) -> bool
    ensures { result ≡ is_settled key finals }
{
    match key {
        Some(key) => finals.contains(key),
        None => false,
    }
}

/// Makes a key final, if there is one.
fn settle(key: Option<FinalKey>, scene: &mut Scene<'_>)
    ensures { scene.new ≡ settled key scene.old }
{
    if let Some(key) = key {
        scene.finals.add(key);
    }
}

/// What follows an assignment that was made: `:=` makes its key final.
pub(crate) fn finish(operator: AssignOperator, key: Option<FinalKey>, scene: &mut Scene<'_>)
    ensures { scene.new ≡ finally operator key scene.old }
{
    match operator {
        AssignOperator::AssignFinal => settle(key, scene),
        _ => {}
    }
}
