//! What is true of acts, whatever the rules are. Each function here is empty: its contract is the law.
ghost use Rattle.std.specs.Prelude.{◌≡◌, ◌==◌, ◌&&◌, ◌||◌, ◌++◌, ◌∷◌, [], not, true, false, filter, is_none, is_some, length, List, None, Option, Some, codes};
ghost use Rattle.std.specs.List.{list_all};
ghost use Rattle.text_bytes.specs.Names.{slash};
ghost use Rattle.text_bytes.specs.Texts.{begins_with};
ghost use Rattle.text_bytes.specs.declared.profile.Profile.TheVariants.{Manual};
ghost use Rattle.text_tables.specs.Pairs.{value_of, with_values};
ghost use Rattle.text_bytes.specs.Text.{Text};
ghost use Rattle.text_core.specs.Choices.{choice_fits};
ghost use Rattle.text_core.specs.declared.item.Item.{Item};
ghost use Rattle.builtin_devices.specs.Knowledge.{Known};
ghost use Rattle.builtin_devices.specs.Outcomes.{failing, succeeding};
ghost use Rattle.device_core.specs.Values.{DeviceValue};
ghost use Rattle.rule_tokens.specs.Template as templates;
ghost use Rattle.rule_tokens.specs.declared.piece.Piece.{Piece};
ghost use Rattle.rule_tokens.specs.declared.piece.Piece.TheVariants as piece;
ghost use Rattle.rule_types.specs.declared.roles.MatchOperator.TheVariants.{Equal, NotEqual};
ghost use Rattle.rule_types.specs.declared.part.ActKind.{ActKind};
ghost use Rattle.rule_types.specs.declared.part.Import.{Import};
ghost use Rattle.rule_types.specs.Rules.{Rule};
ghost use Rattle.eval_state.specs.Chains.{device_at};
ghost use Rattle.eval_state.specs.Notes.{note_about};
ghost use Rattle.eval_state.specs.Scenes.{noted, with_env};
ghost use Rattle.eval_state.specs.declared.note_kind.NoteKind.TheVariants.{AttributeNotRead, TestNotMade, BuiltinNeeds};
ghost use Rattle.eval_state.specs.declared.scene.Scene.{Scene};
ghost use Rattle.eval_rendering.specs.Rendering.{render};
ghost use Rattle.eval_rendering.specs.declared.rendered.Mode.TheVariants.{Plain};
ghost use Rattle.eval_rendering.specs.declared.rendered.Rendered.TheVariants as rendered;
ghost use Rattle.eval_commands.specs.Builtins.{builtin};
ghost use Rattle.eval_commands.specs.declared.builtin.Builtin.TheVariants as asked;
ghost use Rattle.eval_commands.specs.declared.hwdb.Hwdb.{Hwdb};
ghost use Rattle.eval_rendering.specs.Attributes.{is_not_read};
ghost use Rattle.eval_acts.specs.Acts.{act_step, import_reached};
ghost use Rattle.eval_acts.specs.BuiltinRuns.{outcome_taken};
ghost use Rattle.eval_commands.specs.LookUps.{found};
ghost use Rattle.eval_acts.specs.Unread.{unread_in, unread_noted};
ghost use Rattle.eval_laws.specs.Acting.{builtin_import, parent_import, test};

/// `!=` changes just what `==` changes, and the rule goes on if it would not with `==`. With udev a rule goes on
/// with at most one of the two: a text that is too long stops it with either.
pub fn an_operator_decides_only_whether_a_rule_goes_on()
    ensures changes { (known : Known) (rule : Rule) (act_kind : ActKind) (scene : Scene)
        → (act_step known rule (record { operator = NotEqual; kind = act_kind }) scene).0
        ≡ (act_step known rule (record { operator = Equal; kind = act_kind }) scene).0 }
    ensures proceeds { (known : Known) (rule : Rule) (act_kind : ActKind) (scene : Scene) → scene.state.event.profile ≡ Manual
        → (act_step known rule (record { operator = NotEqual; kind = act_kind }) scene).1
        ≡ not (act_step known rule (record { operator = Equal; kind = act_kind }) scene).1 }
    ensures one { (known : Known) (rule : Rule) (act_kind : ActKind) (scene : Scene)
        → ((act_step known rule (record { operator = NotEqual; kind = act_kind }) scene).1
        && (act_step known rule (record { operator = Equal; kind = act_kind }) scene).1) ≡ false }
{}

/// By the manual TEST changes nothing and holds if and only if the event device has an attribute of this path, which is
/// relative. With a mask or an absolute path it is not made: it leaves a note and does not hold.
pub fn a_test_holds_where_the_attribute_is_there()
    ensures made { (known : Known) (rule : Rule) (template : templates.Parts) (scene : Scene) (path : Text) → scene.state.event.profile ≡ Manual
        → render template scene.state Plain ≡ rendered.Text path → begins_with slash path ≡ false
        → act_step known rule (test None template) scene ≡ (scene, is_some (value_of scene.state.event.device.attrs path)) }
    ensures unmade { (known : Known) (rule : Rule) (mask : Option Text) (template : templates.Parts) (scene : Scene) (path : Text)
        → scene.state.event.profile ≡ Manual → render template scene.state Plain ≡ rendered.Text path → (is_some mask || begins_with slash path) ≡ true
        → act_step known rule (test mask template) scene ≡ (noted rule TestNotMade path scene, false) }
{}

/// By the manual IMPORT{parent} sets those properties of the next device above whose names fit, one after another; without
/// such a device it is not done.
pub fn the_properties_of_the_parent_whose_names_fit_are_set()
    ensures there { (known : Known) (rule : Rule) (names : List (List Item)) (written : Text) (scene : Scene) (parent : DeviceValue)
        → scene.state.event.profile ≡ Manual → device_at scene.state.event 1 ≡ Some parent
        → act_step known rule (parent_import names written) scene
        ≡ (with_env (with_values scene.state.env (filter (λ property. choice_fits names property.0) parent.env)) scene, true) }
    ensures absent { (known : Known) (rule : Rule) (names : List (List Item)) (written : Text) (scene : Scene) → scene.state.event.profile ≡ Manual
        → device_at scene.state.event 1 ≡ None → act_step known rule (parent_import names written) scene ≡ (scene, false) }
{}

/// By the manual IMPORT{builtin} of `hwdb` sets what is found, one property after another, and is done if anything is found.
pub fn what_the_database_has_is_set()
    ensures { (known : Known) (rule : Rule) (template : templates.Parts) (scene : Scene) (command : Text) (hwdb : Hwdb)
        → scene.state.event.profile ≡ Manual → render template scene.state Plain ≡ rendered.Text command → builtin Manual command ≡ asked.Hwdb hwdb
        → act_step known rule (builtin_import template) scene
        ≡ (with_env (with_values scene.state.env (found known hwdb scene.state)) scene, not (length (found known hwdb scene.state) == 0)) }
{}

/// By the manual an IMPORT leaves nothing by being reached. For udev the command of a builtin leaves one note if an attribute
/// in it is not read: the first of these, whatever is before it. If all are read, it leaves nothing.
#[tactic(auto, using(crate::proofs::Unread::manual_leaves, crate::proofs::Unread::noted_first, crate::proofs::Unread::noted_none))]
pub fn a_command_notes_its_first_unread_attribute()
    ensures manual { (rule : Rule) (from : Import) (scene : Scene) → import_reached Manual rule from scene ≡ scene }
    ensures noted { (rule : Rule) (template : templates.Parts) (scene : Scene) (before following : List Piece) (name : Text)
        → template.pieces ≡ before ++ piece.Attr name ∷ following → list_all (λ p. is_none (unread_in scene.state.event p)) before ≡ true
        → is_not_read name scene.state.event ≡ true → (unread_noted rule template scene).notes ≡ scene.notes ++ note_about rule AttributeNotRead name ∷ [] }
    ensures read { (rule : Rule) (template : templates.Parts) (scene : Scene)
        → list_all (λ p. is_none (unread_in scene.state.event p)) template.pieces ≡ true → unread_noted rule template scene ≡ scene }
{}

/// All that a builtin needs is told in one note, with commas between; without needs there is none.
pub fn all_that_a_builtin_needs_is_noted()
    ensures none { (rule : Rule) (scene : Scene) → (outcome_taken rule (codes "net_id") (succeeding [] []) scene).0.notes ≡ scene.notes }
    ensures one { (rule : Rule) (scene : Scene)
        → (outcome_taken rule (codes "net_id") (failing (codes "type" ∷ [])) scene).0.notes
        ≡ scene.notes ++ record { file = rule.file; line = rule.line; kind = BuiltinNeeds; word = codes "net_id: type" } ∷ [] }
    ensures three { (rule : Rule) (scene : Scene)
        → (outcome_taken rule (codes "net_id") (succeeding [] (codes "type" ∷ codes "config" ∷ codes "slots" ∷ [])) scene).0.notes
        ≡ scene.notes ++ record { file = rule.file; line = rule.line; kind = BuiltinNeeds; word = codes "net_id: type, config, slots" } ∷ [] }
{}
