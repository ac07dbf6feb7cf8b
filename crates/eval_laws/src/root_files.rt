//! What IMPORT{file} takes from a file of the root. Each function here is empty: its contract is the law.
ghost use Rattle.std.specs.Prelude.{◌≡◌, ◌∷◌, ◌++◌, ℕ, All, List, None, Some, [], false, filter_map, flat_map, length, nat_le, true};
ghost use Rattle.std.specs.Prelude.{codes};
ghost use Rattle.text_bytes.specs.declared.profile.Profile.TheVariants.{Manual, Udev};
ghost use Rattle.text_bytes.specs.Text.{Text};
ghost use Rattle.builtin_devices.specs.Knowledge.{Known};
ghost use Rattle.builtin_devices.specs.declared.root_files.RootFile.TheVariants.{Absent, Read};
ghost use Rattle.rule_tokens.specs.Template as templates;
ghost use Rattle.rule_types.specs.declared.part.ActKind.TheVariants as act_kind;
ghost use Rattle.rule_types.specs.declared.part.Import.TheVariants as import;
ghost use Rattle.rule_types.specs.Rules.{Rule};
ghost use Rattle.eval_rendering.specs.declared.rendered.Rendered.TheVariants as rendered;
ghost use Rattle.eval_state.specs.Properties.{properties_set};
ghost use Rattle.eval_state.specs.Scenes.{noted, with_env};
ghost use Rattle.eval_state.specs.declared.note_kind.NoteKind.TheVariants.{ImportNotRun};
ghost use Rattle.eval_state.specs.declared.scene.Scene.{Scene};
ghost use Rattle.eval_acts.specs.ActTexts.{import_text};
ghost use Rattle.eval_acts.specs.Acts.{performed};
ghost use Rattle.eval_acts.specs.Printed.{line_property};
ghost use Rattle.eval_acts.specs.RootImports.{ends_file_line, file_properties};

/// A file is read line by line, and its properties come in the order of its lines, whichever byte ends them: a newline, a
/// carriage return or a NUL. Each line gives what one does that a program prints.
pub fn a_file_is_read_line_by_line()
    ensures { (end : ℕ) (lines : List Text) → ends_file_line end ≡ true → All (λ line. All (λ b. ends_file_line b ≡ false) line) lines
        → file_properties (flat_map (λ line. line ++ end ∷ []) lines) ≡ filter_map line_property lines }
{}

/// A newline, a carriage return and a NUL end a line of a file, and a letter does not.
pub fn three_bytes_end_a_line_of_a_file()
    ensures newline { ends_file_line 10 ≡ true }
    ensures carriage_return { ends_file_line 13 ≡ true }
    ensures nul { ends_file_line 0 ≡ true }
    ensures letter { ends_file_line 65 ≡ false }
{}

/// With udev the properties that a file gives are set, if it was found at the path and is not too long, and the import is
/// done. It is not done if nothing was found there.
pub fn what_a_file_gives_is_set()
    ensures set { (known : Known) (rule : Rule) (template : templates.Parts) (path bytes : Text) (scene : Scene)
        → scene.state.event.profile ≡ Udev → import_text 1023 template scene.state ≡ rendered.Text path
        → known.file path ≡ Some (Read bytes) → nat_le (length bytes) 65536 ≡ true
        → performed known rule (act_kind.Import (import.File template)) scene
        ≡ (with_env (properties_set scene.state.env (file_properties bytes)) scene, Some true) }
    ensures absent { (known : Known) (rule : Rule) (template : templates.Parts) (path : Text) (scene : Scene)
        → scene.state.event.profile ≡ Udev → import_text 1023 template scene.state ≡ rendered.Text path
        → known.file path ≡ Some Absent
        → performed known rule (act_kind.Import (import.File template)) scene ≡ (scene, Some false) }
{}

/// By the manual no file is read. With udev a path that was not looked at, or at which something can't be read, and a file
/// that is too long leave a note, and the import is not done.
pub fn a_file_that_was_not_read_is_noted()
    ensures manual { (known : Known) (rule : Rule) (template : templates.Parts) (scene : Scene) → scene.state.event.profile ≡ Manual
        → performed known rule (act_kind.Import (import.File template)) scene ≡ (noted rule ImportNotRun (codes "file") scene, Some false) }
    ensures unread { (known : Known) (rule : Rule) (template : templates.Parts) (path : Text) (scene : Scene)
        → scene.state.event.profile ≡ Udev → import_text 1023 template scene.state ≡ rendered.Text path → known.file path ≡ None
        → performed known rule (act_kind.Import (import.File template)) scene ≡ (noted rule ImportNotRun (codes "file") scene, Some false) }
    ensures long { (known : Known) (rule : Rule) (template : templates.Parts) (path bytes : Text) (scene : Scene)
        → scene.state.event.profile ≡ Udev → import_text 1023 template scene.state ≡ rendered.Text path
        → known.file path ≡ Some (Read bytes) → nat_le (length bytes) 65536 ≡ false
        → performed known rule (act_kind.Import (import.File template)) scene ≡ (noted rule ImportNotRun (codes "file") scene, Some false) }
{}
