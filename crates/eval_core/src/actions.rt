//! For which actions a rule's first match holds, decided before any event comes.
//!
//! Most files begin with a rule that leaves them unless the action is one of a few. The kernel reports eight actions, so
//! for each of them it is known in advance whether a match of the action holds.
ghost use Rattle.std.specs.Prelude.{◌≡◌, position};
ghost use Rattle.text_tables.specs.Texts.{same_text};
ghost use Rattle.eval_rendering.specs.Holding.{holds, one};
ghost use Rattle.eval_core.specs.Actions.{action_place, actions, by_action, has_no_more, held_for, is_guard, with_action};

use eval_rendering::agrees;
use rule_types::{Comparison, PlainKey, PlainMatch, Rule};

/// The actions that the kernel reports.
const ACTIONS: [&[u8]; 8] = [
    b"add", b"bind", b"change", b"move", b"offline", b"online", b"remove", b"unbind",
];

/// What is known of a rule whose first match is one of the action.
#[derive(Clone, Copy)]
pub(crate) struct ByAction {
    /// Whether the match holds, for each of the known actions.
    pub held: [bool; 8],
    /// Whether the rule has nothing but this match.
    pub is_guard: bool,
}

/// The place of a name among others, if it is there.
fn place_among(names: &[&[u8]], name: &[u8]) -> Option<usize>
    ensures { result ≡ position (λ known. same_text name.now known.now) names.now }
{
    names.iter().position(|known| name == *known)
}

/// The place of an action among those that are known, if it is one of them.
pub(crate) fn action_place(action: &[u8]) -> Option<usize>
    ensures { result ≡ action_place action.now }
{
    place_among(&ACTIONS, action)
}

/// Whether a match of the action holds for one action.
#[tactic(auto, unfolding(eval_rendering::specs::Holding::holds))]
fn holds_for(wanted: &Comparison, action: &[u8]) -> bool
    ensures { result ≡ holds (one action.now) wanted.now }
{
    agrees(wanted.operator, wanted.choice.fits(action))
}

/// Whether a match of the action holds, for each of the known actions.
fn held_for(wanted: &Comparison) -> [bool; 8]
    ensures { result ≡ held_for wanted.now }
{
    let [add, bind, change, moved, offline, online, remove, unbind] = ACTIONS;
    [
        holds_for(wanted, add),
        holds_for(wanted, bind),
        holds_for(wanted, change),
        holds_for(wanted, moved),
        holds_for(wanted, offline),
        holds_for(wanted, online),
        holds_for(wanted, remove),
        holds_for(wanted, unbind),
    ]
}

/// What is known of a rule with this first match, if it is one of the action.
fn with_action(part: &PlainMatch, is_guard: bool) -> Option<ByAction>
    ensures { result ≡ with_action part.now.key part.now.wanted is_guard }
{
    match &part.key {
        PlainKey::Action => Some(ByAction {
            held: held_for(&part.wanted),
            is_guard,
        }),
        _ => None,
    }
}

/// Whether a rule has nothing after its matches of the event and of a device.
pub(crate) fn has_no_more(rule: &Rule) -> bool
    ensures { result ≡ has_no_more rule.now }
{
    rule.acts.is_empty() && rule.results.is_empty() && rule.sets.is_empty()
}

/// Whether a rule has nothing but its first match of the event, after which it has these.
fn is_guard(rule: &Rule, others: &[PlainMatch]) -> bool
    ensures { result ≡ is_guard rule.now others.now }
{
    others.is_empty() && rule.up.is_empty() && has_no_more(rule)
}

/// What is known of a rule, if its first match is one of the action.
pub(crate) fn by_action(rule: &Rule) -> Option<ByAction>
    ensures { result ≡ by_action rule.now }
{
    match rule.plain.split_first() {
        Some((part, others)) => with_action(part, is_guard(rule, others)),
        None => None,
    }
}
