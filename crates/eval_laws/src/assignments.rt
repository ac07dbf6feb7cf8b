//! What an author of rules relies on, whatever the rules and the event are.
//!
//! Each function here is empty: its contract is the law.
ghost use Rattle.std.specs.Prelude.{◌≡◌, ◌≢◌, true, false, List, fold};
ghost use Rattle.std.specs.List.{All, list_any};
ghost use Rattle.text_bytes.specs.Texts.{is_empty};
ghost use Rattle.text_bytes.specs.declared.profile.Profile.TheVariants.{Udev};
ghost use Rattle.text_bytes.specs.Text.{Text};
ghost use Rattle.text_tables.specs.Texts.{is_among};
ghost use Rattle.rule_tokens.specs.Template as templates;
ghost use Rattle.rule_types.specs.declared.roles.AssignOperator.{AssignOperator};
ghost use Rattle.rule_types.specs.declared.roles.AssignOperator.TheVariants.{Add, Remove};
ghost use Rattle.rule_types.specs.declared.part.Assignment.{Assignment};
ghost use Rattle.rule_types.specs.declared.part.Change.TheVariants as change;
ghost use Rattle.rule_types.specs.declared.roles.Target.TheVariants as target;
ghost use Rattle.rule_types.specs.Rules.{Rule};
ghost use Rattle.eval_state.specs.Finals.{is_final};
ghost use Rattle.eval_state.specs.Runs.{RunValue, runs_after, same_run};
ghost use Rattle.eval_state.specs.declared.finals.FinalKey.{FinalKey};
ghost use Rattle.eval_state.specs.declared.scene.Scene.{Scene};
ghost use Rattle.eval_laws.specs.AssignmentLaws.{Keeps, may_be_final};
ghost use Rattle.eval_rendering.specs.Bounds.{most_path_bytes, within};
ghost use Rattle.eval_rendering.specs.Rendering.{render};
ghost use Rattle.eval_rendering.specs.declared.rendered.Mode.TheVariants.{Plain};
ghost use Rattle.eval_rendering.specs.declared.rendered.Rendered.TheVariants as rendered;
ghost use Rattle.eval_assignments.specs.Lists.{changed};
ghost use Rattle.eval_assignments.specs.Tags.{current_tags, is_tag};
ghost use Rattle.eval_assignments.specs.Steps.{set_step};

/// A key that is final keeps its value through any further assignments of any rule, and stays final. For udev the
/// priority of links is never final.
pub fn final_keys_stay()
    ensures { (r : Rule) (key : FinalKey) (sets : List Assignment) (s : Scene) → may_be_final s.state.event.profile key ≡ true
        → is_final s.finals key ≡ true → Keeps key s (fold (set_step r) s sets) }
{}

/// Tags and links that are all there are not added again.
pub fn additions_that_are_there_change_nothing()
    ensures { (more texts : List Text) → All (λ t. is_among texts t ≡ true) more → changed Add more texts ≡ texts }
{}

/// Tags and links that were removed are not there.
pub fn removed_texts_are_gone()
    ensures { (gone texts : List Text) (t : Text) → is_among gone t ≡ true → is_among (changed Remove gone texts) t ≡ false }
{}

/// A RUN that is there, of the same type and written text, is not added again.
pub fn runs_that_are_there_stay_alone()
    ensures { (runs : List RunValue) (run : RunValue) → list_any (same_run run) runs ≡ true → runs_after Add runs run ≡ runs }
{}

/// With udev a tag that `-=` removes is not in the answer, but matches of tags still find it. `+=` leaves a tag
/// that is in the answer and found, whether it was removed before or not, and so does `=`.
pub fn a_tag_that_is_taken_away_is_met_and_not_reported()
    ensures met { (r : Rule) (template : templates.Parts) (s : Scene) (t : Text) → s.state.event.profile ≡ Udev
        → within most_path_bytes (render template s.state Plain) ≡ rendered.Text t
        → (set_step r s (record { operator = Remove; change = change.Text target.Tag template })).state.tags ≡ s.state.tags }
    ensures not_reported { (r : Rule) (template : templates.Parts) (s : Scene) (t : Text) → s.state.event.profile ≡ Udev
        → within most_path_bytes (render template s.state Plain) ≡ rendered.Text t
        → is_among (current_tags (set_step r s (record { operator = Remove; change = change.Text target.Tag template }))) t ≡ false }
    ensures reported { (r : Rule) (o : AssignOperator) (template : templates.Parts) (s : Scene) (t : Text) → s.state.event.profile ≡ Udev
        → within most_path_bytes (render template s.state Plain) ≡ rendered.Text t → o ≢ Remove → is_empty t ≡ false → is_tag t ≡ true
        → is_among (current_tags (set_step r s (record { operator = o; change = change.Text target.Tag template }))) t ≡ true }
{}
