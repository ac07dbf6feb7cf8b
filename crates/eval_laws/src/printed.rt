//! What IMPORT{program} takes from the answer to its command. Each function here is empty: its contract is the law.
ghost use Rattle.std.specs.Prelude.{◌≡◌, ◌↔◌, ◌==◌, [], ◌∷◌, ◌++◌, ℕ, All, Some, None, List, true, false, filter_map, flat_map};
ghost use Rattle.std.specs.List.{list_any};
ghost use Rattle.text_bytes.specs.Names.{equals, hash, is_blank};
ghost use Rattle.text_bytes.specs.declared.profile.Profile.TheVariants.{Udev};
ghost use Rattle.text_bytes.specs.Text.{Text};
ghost use Rattle.text_tables.specs.Pairs.{Pair};
ghost use Rattle.builtin_devices.specs.Knowledge.{Known};
ghost use Rattle.rule_tokens.specs.Template as templates;
ghost use Rattle.rule_types.specs.Rules.{Rule};
ghost use Rattle.rule_types.specs.declared.roles.MatchOperator.{MatchOperator};
ghost use Rattle.rule_types.specs.declared.roles.MatchOperator.TheVariants.{Equal};
ghost use Rattle.eval_state.specs.Properties.{properties_set};
ghost use Rattle.eval_state.specs.Scenes.{with_env};
ghost use Rattle.eval_state.specs.declared.scene.Scene.{Scene};
ghost use Rattle.eval_acts.specs.Acts.{act_step};
ghost use Rattle.eval_acts.specs.Printed.{line_property, printed_properties};
ghost use Rattle.eval_rendering.specs.Pieces.{ends_line};
ghost use Rattle.eval_laws.specs.PrintedLines.{IsGiven, IsPrinted, program_import};

/// A text is read line by line, and its properties come in the order of its lines, whichever byte ends them.
pub fn a_printed_text_is_read_line_by_line()
    ensures { (end : ℕ) (lines : List Text) → ends_line end ≡ true → All (λ line. All (λ b. ends_line b ≡ false) line) lines
        → printed_properties (flat_map (λ line. line ++ end ∷ []) lines) ≡ filter_map line_property lines }
{}

/// What is read of a line is just what is written in it: a name and a value with blanks around them, the value as it is
/// or between quotes. A line without `=` and a comment give nothing.
pub fn a_written_property_is_read_back()
    ensures given { (line : Text) (property : Pair) → (line_property line ≡ Some property) ↔ IsGiven line property }
    ensures bare { (line : Text) → list_any (λ b. b == equals) line ≡ false → line_property line ≡ None }
    ensures comment { (blanks rest : Text) → All (λ b. is_blank b ≡ true) blanks → line_property (blanks ++ hash ∷ rest) ≡ None }
{}

/// With udev IMPORT{program} sets the properties of what its command printed, if the event's block answers it with
/// status 0, and nothing else: neither the result of a PROGRAM nor a link, with either operator. If it fails, the
/// properties are as they were.
pub fn a_program_that_is_imported_sets_what_it_printed()
    ensures answered { (known : Known) (rule : Rule) (operator : MatchOperator) (template : templates.Parts) (scene : Scene) (text : Text)
        → scene.state.event.profile ≡ Udev → IsPrinted template scene text
        → (act_step known rule (program_import operator template) scene).0 ≡ with_env (properties_set scene.state.env (printed_properties text)) scene }
    ensures holds { (known : Known) (rule : Rule) (template : templates.Parts) (scene : Scene) → scene.state.event.profile ≡ Udev
        → ((act_step known rule (program_import Equal template) scene).1 ≡ true) ↔ ((text : Text) × IsPrinted template scene text) }
    ensures failed { (known : Known) (rule : Rule) (template : templates.Parts) (scene : Scene) → scene.state.event.profile ≡ Udev
        → (act_step known rule (program_import Equal template) scene).1 ≡ false
        → (act_step known rule (program_import Equal template) scene).0.state ≡ scene.state }
{}
