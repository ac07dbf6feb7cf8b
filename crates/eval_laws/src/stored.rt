//! What is true of IMPORT{db}, whatever the rules are. Each function here is empty: its contract is the law.
ghost use Rattle.std.specs.Prelude.{◌≡◌, ◌≢◌, ◌∷◌, ℕ, [], codes, false, true, None, Some};
ghost use Rattle.text_bytes.specs.declared.profile.Profile.TheVariants.{Manual, Udev};
ghost use Rattle.text_bytes.specs.Text.{Text};
ghost use Rattle.text_tables.specs.Pairs.{value_of, with_value};
ghost use Rattle.builtin_devices.specs.Knowledge.{Known};
ghost use Rattle.rule_types.specs.declared.part.ActKind.TheVariants as act_kind;
ghost use Rattle.rule_types.specs.declared.part.Import.TheVariants as import;
ghost use Rattle.rule_types.specs.Rules.{Rule};
ghost use Rattle.eval_state.specs.Scenes.{noted, with_env};
ghost use Rattle.eval_state.specs.declared.note_kind.NoteKind.TheVariants.{ImportNotRun};
ghost use Rattle.eval_state.specs.declared.scene.Scene.{Scene};
ghost use Rattle.eval_acts.specs.Acts.{performed};

/// With udev what the block says was stored under a name is set, if it has a byte, and the import is done; it is not done
/// if the block says of other names that they were stored.
pub fn what_was_stored_is_set()
    ensures set { (known : Known) (rule : Rule) (name : Text) (b : ℕ) (t : Text) (scene : Scene)
        → scene.state.event.profile ≡ Udev → scene.state.event.action ≡ codes "change"
        → value_of scene.state.event.device.stored name ≡ Some (b ∷ t)
        → performed known rule (act_kind.Import (import.Db name)) scene ≡ (with_env (with_value scene.state.env name (b ∷ t)) scene, Some true) }
    ensures absent { (known : Known) (rule : Rule) (name : Text) (scene : Scene)
        → scene.state.event.profile ≡ Udev → scene.state.event.device.stored ≢ [] → value_of scene.state.event.device.stored name ≡ None
        → performed known rule (act_kind.Import (import.Db name)) scene ≡ (scene, Some false) }
{}

/// On `remove` udev imports nothing that was stored, whatever the block says.
pub fn nothing_stored_is_imported_on_remove()
    ensures { (known : Known) (rule : Rule) (name : Text) (scene : Scene)
        → scene.state.event.profile ≡ Udev → scene.state.event.action ≡ codes "remove"
        → performed known rule (act_kind.Import (import.Db name)) scene ≡ (scene, Some false) }
{}

/// By the manual nothing stored is looked up, and udev does not know what was stored if the block does not say anything
/// of it: the import leaves a note and is not done.
pub fn what_is_not_known_to_be_stored_is_noted()
    ensures manual { (known : Known) (rule : Rule) (name : Text) (scene : Scene) → scene.state.event.profile ≡ Manual
        → performed known rule (act_kind.Import (import.Db name)) scene ≡ (noted rule ImportNotRun (codes "db") scene, Some false) }
    ensures udev { (known : Known) (rule : Rule) (name : Text) (scene : Scene)
        → scene.state.event.profile ≡ Udev → scene.state.event.action ≡ codes "change" → scene.state.event.device.stored ≡ []
        → performed known rule (act_kind.Import (import.Db name)) scene ≡ (noted rule ImportNotRun (codes "db") scene, Some false) }
{}
