//! Laws of the definitions that the reading is proved against.

ghost use Rattle.std.specs.Prelude.{◌≡◌, ◌↔◌, ◌<◌, ◌-◌, ◌^◌, ◌∷◌, ◌++◌, [], List, All, AllPairs, length};
ghost use Rattle.text_bytes.specs.declared.SourceFile.{SourceFile};
ghost use Rattle.text_bytes.specs.Lines.{NumberedLine};
ghost use Rattle.rule_laws.specs.MessageLaws.{ComesBefore};
ghost use Rattle.hwdb_core.specs.Paragraphs.{Cut, IsCut, cut};
ghost use Rattle.hwdb_core.specs.Sources.{messages_of};

/// A paragraph has just one cut into its four parts.
pub fn a_paragraph_is_cut_one_way()
    ensures { (p : List NumberedLine) (c : Cut) → IsCut p c ↔ (c ≡ cut p) }
{}

/// Messages are sorted by file, in the order of the files, by line and by code. A file whose last lines have
/// numbers over 2^32 - 1, which are all reported as that number, is left out of the second law.
pub fn database_messages_are_in_order()
    ensures files { (files later : List SourceFile) → messages_of (files ++ later) ≡ messages_of files ++ messages_of later }
    ensures rise { (file : SourceFile) → length file.bytes < 2 ^ 32 - 1 → AllPairs ComesBefore (messages_of (file ∷ [])) }
    ensures named { (file : SourceFile) → All (λ m. m.file ≡ file.name) (messages_of (file ∷ [])) }
{}
