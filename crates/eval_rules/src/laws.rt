//! What holds for rules that are skipped, whatever the rule. Each function here is empty: its contract is the law.
ghost use Rattle.std.specs.Prelude.{◌≡◌, true, false};
ghost use Rattle.text_bytes.specs.declared.profile.Profile.TheVariants.{Manual};
ghost use Rattle.builtin_devices.specs.Knowledge.{Known};
ghost use Rattle.rule_types.specs.Rules as rules;
ghost use Rattle.eval_state.specs.declared.scene.Scene.{Scene};
ghost use Rattle.eval_acts.specs.Stored.{is_removal};
ghost use Rattle.eval_rules.specs.Idle.{is_idle};
ghost use Rattle.eval_rules.specs.Steps.{apply, steps, with_selected};

/// By the manual no rule is skipped.
pub fn manual_evaluates_every_rule()
    ensures { (known : Known) (r : rules.Rule) (s : Scene) → s.state.event.profile ≡ Manual → apply known r s ≡ steps known r s }
{}

/// Unless the device is removed, a rule that is skipped leaves what it would leave if it were evaluated, apart from
/// the device that is selected and the keys that are final, and its end is not reached.
pub fn skipped_rule_lacks_nothing()
    ensures { (known : Known) (r : rules.Rule) (s : Scene) → is_idle r s.state.event ≡ true → is_removal s.state.event ≡ false
        → apply known r s ≡ (record (steps known r s).0 { finals = s.finals; state = with_selected s.state.selected (steps known r s).0.state }, false) }
{}
