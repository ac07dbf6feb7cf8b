//! What each option of OPTIONS changes.
ghost use Rattle.std.specs.Prelude.{◌≡◌};
ghost use Rattle.eval_assignments.specs.Assigning.{with_option};

use eval_state::Scene;
use rule_types::RuleOption;

/// Makes the change that an option asks for.
pub(crate) fn set_option(option: RuleOption, scene: &mut Scene<'_>)
    ensures { scene.new ≡ with_option option scene.old }
{
    match option {
        RuleOption::LinkPriority(priority) => scene.priority = Some(priority),
        RuleOption::Watch => scene.watch = Some(true),
        RuleOption::NoWatch => scene.watch = Some(false),
        RuleOption::DbPersist => scene.persist = true,
        _ => {}
    }
}
