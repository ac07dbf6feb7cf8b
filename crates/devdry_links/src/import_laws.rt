//! What is true of the files that rules import, whatever a disk answers.
//!
//! Each function here is empty: its contract is the law.
ghost use Rattle.std.specs.Prelude.{◌≡◌, ◌∷◌, [], Contains, List, None, Some, codes, false, true};
ghost use Rattle.text_bytes.specs.Text.{Text};
ghost use Rattle.rule_tokens.specs.declared.piece.Piece.TheVariants.{Kernel, Plain};
ghost use Rattle.rule_types.specs.Rules.{Rule};
ghost use Rattle.rule_types.specs.declared.part.Act.{Act};
ghost use Rattle.builtin_devices.specs.declared.root_files.RootFile.TheVariants.{Absent, Read};
ghost use Rattle.devdry_files.specs.Answers.Answer.{Content, Looked};
ghost use Rattle.devdry_files.specs.declared.look.Look.TheVariants as look;
ghost use Rattle.devdry_links.specs.Naming.{mentions, path_of_kind, path_of_pieces, paths_of};
ghost use Rattle.devdry_links.specs.ImportReading.{IsFound};

use devdry_files::Disk;

/// A path is one text that begins with a slash: neither a path below another folder nor one with a substitution is.
pub fn files_are_named_in_full()
    ensures whole { path_of_pieces (Plain (codes "/run/x") ∷ []) ≡ Some (codes "/run/x") }
    ensures below { path_of_pieces (Plain (codes "run/x") ∷ []) ≡ None }
    ensures rendered { path_of_pieces (Plain (codes "/run/") ∷ Kernel ∷ []) ≡ None }
    ensures mentioned { mentions (codes "A, IMPORT{file}=x") ≡ true }
    ensures unmentioned { mentions (codes "A, IMPORT{files}=x") ≡ false }
{}

/// Each act of each rule that imports a file by a path in full has that path among those that are looked at, whatever else its
/// rule does.
pub fn each_import_is_looked_at()
    ensures { (rules : List Rule) (rule : Rule) (act : Act) (path : Text) → Contains rules rule → Contains rule.acts act
        → path_of_kind act.kind ≡ Some path → Contains (paths_of rules) path }
{}

/// A file that a disk shows and reads is found with its bytes, and a path at which it shows nothing is found to be empty.
pub fn what_is_there_decides<D: Disk>()
    ensures read { (disk : D) (path bytes : Text) → D.may_answer disk (Looked path look.File) → D.may_answer disk (Content path bytes)
        → IsFound (D.may_answer disk) path (Some (Read bytes)) }
    ensures absent { (disk : D) (path : Text) → D.may_answer disk (Looked path look.Absent) → IsFound (D.may_answer disk) path (Some Absent) }
    ensures folder { (disk : D) (path : Text) → D.may_answer disk (Looked path look.Folder) → IsFound (D.may_answer disk) path None }
{}
