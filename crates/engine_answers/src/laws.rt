//! What an answer is, by examples. Each is the contract of a function with an empty body.
ghost use Rattle.std.specs.Prelude.{◌≡◌, ◌^◌, ◌<◌, pos, List, [], ◌∷◌, All, None, Some, IfSome, true, false, codes};
ghost use Rattle.std.specs.Int.Signed.{mag};
ghost use Rattle.json.specs.Json.{Json, boolean, document, number};
ghost use Rattle.json.specs.Print.{print};
ghost use Rattle.json.specs.Tree.{json_tokens};
ghost use Rattle.text_tables.specs.Pairs.{Pair};
ghost use Rattle.text_bytes.specs.Text.{Text};
ghost use Rattle.text_json.specs.Told.{told, told_text};
ghost use Rattle.text_json.specs.Values.{array_of, number_value, object_of};
ghost use Rattle.rule_types.specs.Rules.{Rule};
ghost use Rattle.rule_types.specs.declared.types.RunType.TheVariants.{Program};
ghost use Rattle.device_core.specs.Values.{EventValue};
ghost use Rattle.device_core.specs.Notes.{block_notes};
ghost use Rattle.device_core.specs.declared.kinds.BlockNoteKind.TheVariants.{UnknownAction};
ghost use Rattle.device_core.specs.declared.notes.BlockNote.{BlockNote};
ghost use Rattle.eval_state.specs.declared.notes.Note.{Note};
ghost use Rattle.eval_state.specs.declared.note_kind.NoteKind.TheVariants.{BuiltinNotRun};
ghost use Rattle.eval_rules.specs.declared.outcome.Command.{Command};
ghost use Rattle.eval_rules.specs.declared.outcome.Outcome.{Outcome};
ghost use Rattle.eval_sources.specs.Sources.{Source};
ghost use Rattle.engine_answers.specs.JsonAnswers.{answer_members, plain_object};
ghost use Rattle.engine_answers.specs.Members.{block_note_value, note_value, note_values, sourced, sourced_runs};

/// An answer in which each part is there once, and nothing is noted about the block. A property whose name begins with a dot is left out.
pub fn an_answer_has_all_its_parts()
    ensures { (event : EventValue) → block_notes event ≡ [] → plain_object (codes "why r.rules:1: said\n") event (record {
      name = Some (codes "n");
      owner = Some (codes "o");
      group = Some (codes "g");
      mode = Some (codes "0660");
      priority = Some (pos 7);
      watch = Some false;
      persist = true;
      labels = (codes "smack", codes "u") ∷ [];
      links = codes "l" ∷ codes "k" ∷ [];
      tags = codes "t" ∷ [];
      env = (codes ".H", codes "0") ∷ (codes "A", codes "1") ∷ [];
      attrs = (codes "x", codes "2") ∷ [];
      sysctls = (codes "s", codes "3") ∷ [];
      runs = (record { kind = Program; text = codes "/bin/a" }) ∷ [];
      notes = (record { file = codes "r.rules"; line = 4; kind = BuiltinNotRun; word = codes "blkid" }) ∷ [];
    }) ≡ object_of (
        (codes "event", told event.action)
        ∷ (codes "path", told event.device.path)
        ∷ (codes "name", told (codes "n"))
        ∷ (codes "owner", told (codes "o"))
        ∷ (codes "group", told (codes "g"))
        ∷ (codes "mode", told (codes "0660"))
        ∷ (codes "priority", number (codes "7"))
        ∷ (codes "watch", boolean false)
        ∷ (codes "persist", boolean true)
        ∷ (codes "labels", array_of (object_of ((codes "module", told (codes "smack")) ∷ (codes "label", told (codes "u")) ∷ []) ∷ []))
        ∷ (codes "links", array_of (told (codes "l") ∷ told (codes "k") ∷ []))
        ∷ (codes "tags", array_of (told (codes "t") ∷ []))
        ∷ (codes "env", object_of ((told_text (codes "A"), told (codes "1")) ∷ []))
        ∷ (codes "attr", object_of ((told_text (codes "x"), told (codes "2")) ∷ []))
        ∷ (codes "sysctl", object_of ((told_text (codes "s"), told (codes "3")) ∷ []))
        ∷ (codes "run", array_of (object_of ((codes "type", told (codes "program")) ∷ (codes "command", told (codes "/bin/a")) ∷ []) ∷ []))
        ∷ (
          codes "notes",
          array_of (object_of (
              (codes "file", told (codes "r.rules"))
              ∷ (codes "line", number (codes "4"))
              ∷ (codes "text", told (codes "builtin not run"))
              ∷ (codes "word", told (codes "blkid"))
              ∷ []) ∷ []),
        )
        ∷ (codes "why", array_of (told (codes "r.rules:1: said") ∷ []))
        ∷ []) }
{}

/// An answer of nothing still has the members of which there can be several.
pub fn an_empty_answer_has_its_arrays_and_objects()
    ensures { (event : EventValue) → block_notes event ≡ [] → plain_object [] event (record {
      name = None;
      owner = None;
      group = None;
      mode = None;
      priority = None;
      watch = None;
      persist = false;
      labels = [];
      links = [];
      tags = [];
      env = [];
      attrs = [];
      sysctls = [];
      runs = [];
      notes = [];
    }) ≡ object_of (
        (codes "event", told event.action)
        ∷ (codes "path", told event.device.path)
        ∷ (codes "labels", array_of [])
        ∷ (codes "links", array_of [])
        ∷ (codes "tags", array_of [])
        ∷ (codes "env", object_of [])
        ∷ (codes "attr", object_of [])
        ∷ (codes "sysctl", object_of [])
        ∷ (codes "run", array_of [])
        ∷ (codes "notes", array_of [])
        ∷ (codes "why", array_of [])
        ∷ []) }
{}

/// A note about the block is an object without a rule, in front of the notes about rules.
pub fn a_note_about_the_block_names_no_rule()
    ensures value { block_note_value (record { kind = UnknownAction; word = codes "plug" })
        ≡ object_of ((codes "text", told (codes "unknown action")) ∷ (codes "word", told (codes "plug")) ∷ []) }
    ensures first { (event : EventValue) (about : BlockNote) (note : Note) → block_notes event ≡ about ∷ []
        → note_values event (note ∷ []) ≡ block_note_value about ∷ note_value note ∷ [] }
{}

/// A value with its rule is an object of both; without a rule it has the value alone.
pub fn a_value_is_beside_its_rule()
    ensures rule { (rule : Rule) (value : Json) → sourced (Some rule) value
        ≡ object_of ((codes "value", value) ∷ (codes "file", told rule.file) ∷ (codes "line", number_value rule.line) ∷ []) }
    ensures none { (value : Json) → sourced None value ≡ object_of ((codes "value", value) ∷ []) }
{}

/// A reader of JSON reads from the text of an answer the object that it is, if its lines and its priority are numbers that
/// a machine holds; so it does of an answer whose values have their rules.
pub fn answers_are_read_back()
    ensures plain { (why : Text) (event : EventValue) (outcome : Outcome) → IfSome outcome.priority (λ p. mag p < 2 ^ 63)
        → All (λ n. n.line < 2 ^ 64) outcome.notes
        → document (print (json_tokens (plain_object why event outcome))) ≡ Some (plain_object why event outcome) }
    ensures sourced { (source : Pair → Source) (commands : List (Command × Rule)) (why : Text) (event : EventValue) (outcome : Outcome)
        → ((item : Pair) → IfSome (source item) (λ r. r.line < 2 ^ 64)) → All (λ c. c.1.line < 2 ^ 64) commands
        → IfSome outcome.priority (λ p. mag p < 2 ^ 63) → All (λ n. n.line < 2 ^ 64) outcome.notes
        → document (print (json_tokens (object_of (answer_members (λ item value. sourced (source item) value) (sourced_runs commands) why event outcome))))
        ≡ Some (object_of (answer_members (λ item value. sourced (source item) value) (sourced_runs commands) why event outcome)) }
{}
