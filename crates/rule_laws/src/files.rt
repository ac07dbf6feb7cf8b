//! What holds for the order of files and of escaped texts, whichever they are.
//!
//! Each function has an empty body, and its contract is a law of the definitions that the other contracts cite.
ghost use Rattle.std.specs.Prelude.{◌≡◌, ◌<◌, List, All, Any};
ghost use Rattle.text_bytes.specs.Text.{Text};
ghost use Rattle.text_bytes.specs.Escapes.{escape_text, unescaped};
ghost use Rattle.text_bytes.specs.FileOrder.{ordered, with_suffix};
ghost use Rattle.text_bytes.specs.OrderLaws.{IsFirstOfLeastRank, NamesRise};
ghost use Rattle.text_bytes.specs.declared.source_file.SourceFile.{SourceFile};

/// In the order of files the names rise, each file is the first of least rank of its name among
/// those that end in the suffix, and each name of those is there.
pub fn kept_files()
    ensures rise { (suffix : Text) (files : List SourceFile) → NamesRise (ordered suffix files) }
    ensures first { (suffix : Text) (files : List SourceFile) → All (IsFirstOfLeastRank (with_suffix suffix files)) (ordered suffix files) }
    ensures there { (suffix : Text) (files : List SourceFile) → All (λ g. Any (λ f. f.name ≡ g.name) (ordered suffix files)) (with_suffix suffix files) }
{}

/// An escaped text is read back as the text that it was made from, so that no two texts are written alike.
pub fn escaped_is_read_back()
    ensures { (text : Text) → All (λ b. b < 256) text → unescaped (escape_text text) ≡ text }
{}
