//! What is true of the texts about what an assignment changed and left out.
//!
//! Each function here is empty: its contract is the law.
ghost use Rattle.std.specs.Prelude.{◌≡◌, ◌∷◌, ◌++◌, [], Contains, codes, false, is_some, true};
ghost use Rattle.text_tables.specs.Pairs.{Pair, value_of};
ghost use Rattle.text_bytes.specs.Text.{Text};
ghost use Rattle.rule_types.specs.declared.part.Change.{Change};
ghost use Rattle.eval_state.specs.Runs.{RunValue};
ghost use Rattle.eval_state.specs.declared.note_kind.NoteKind.TheVariants as note_kind;
ghost use Rattle.eval_state.specs.declared.scene.Scene.{Scene};
ghost use Rattle.eval_assignments.specs.Names.{is_net};
ghost use Rattle.eval_effects.specs.Changes.{Snapshot, changes, is_kept, removed_text, run_text, set_text};
ghost use Rattle.eval_effects.specs.Effects.{said_of};
ghost use Rattle.eval_effects.specs.Items.{is_present};
ghost use Rattle.eval_effects.specs.Named.{change_key};
ghost use Rattle.eval_effects.specs.Shown.{shown};

/// An item that is there now and was not there like this is said to be set, one whose name is no longer there to be removed,
/// and a RUN that is new to be added.
pub fn what_appears_and_disappears_is_said()
    ensures set { (was now : Snapshot) (item : Pair) → Contains now.items item → is_present item was.items ≡ false
        → Contains (changes was now) (set_text item) }
    ensures removed { (was now : Snapshot) (item : Pair) → Contains was.items item → is_some (value_of now.items item.0) ≡ false
        → Contains (changes was now) (removed_text item.0) }
    ensures added { (was now : Snapshot) (run : RunValue) → Contains now.runs run → is_kept was.runs run ≡ false
        → Contains (changes was now) (run_text run ++ codes " added") }
{}

/// What is said of each kind of note that an assignment leaves.
pub fn each_kind_of_note_is_said_in_its_own_words()
    ensures too_long { (c : Change) (s : Scene) (word : Text) → said_of c s note_kind.TextTooLong word ≡ (change_key c ++ codes " left out, too long") ∷ [] }
    ensures name { (c : Change) (s : Scene) (word : Text) → is_net s.state.event.device.subsystem ≡ false
        → said_of c s note_kind.NameIgnored word ≡ codes "NAME ignored, no network device" ∷ [] }
    ensures interface { (c : Change) (s : Scene) (word : Text) → is_net s.state.event.device.subsystem ≡ true
        → said_of c s note_kind.NameIgnored word ≡ codes "NAME ignored, no interface (IFINDEX)" ∷ [] }
    ensures no_number { (c : Change) (s : Scene) (word : Text)
        → said_of c s note_kind.NoDeviceNumber word ≡ (change_key c ++ codes " ignored, no device number") ∷ [] }
    ensures no_value { (c : Change) (s : Scene) (word : Text) → said_of c s note_kind.NoValue word ≡ (change_key c ++ codes " ignored, no value") ∷ [] }
    ensures link { (c : Change) (s : Scene) (word : Text) → said_of c s note_kind.LinkIgnored word ≡ (shown word ++ codes " ignored, no link") ∷ [] }
    ensures mode { (c : Change) (s : Scene) (word : Text) → said_of c s note_kind.ModeIgnored word ≡ (change_key c ++ codes " ignored, no mode") ∷ [] }
    ensures tag { (c : Change) (s : Scene) (word : Text) → said_of c s note_kind.TagIgnored word ≡ (change_key c ++ codes " ignored, no tag") ∷ [] }
    ensures attribute { (c : Change) (s : Scene) (word : Text) → said_of c s note_kind.AttributeNotFound word
        ≡ (change_key c ++ codes " ignored, no such attribute") ∷ [] }
    ensures others { (c : Change) (s : Scene) (word : Text) → said_of c s note_kind.NoAnswer word ≡ [] }
{}
