//! The law of the bounds.
ghost use Rattle.std.specs.Prelude.{List};
ghost use Rattle.hwdb_core.specs.Sources.{WithinBounds, entries_of};
ghost use Rattle.text_bytes.specs.declared.SourceFile.{SourceFile};
ghost use Rattle.trie_build.specs.Sizes.{KeepsBounds};

/// The entries of files that are not too many are never too large for a trie: neither by their
/// number, nor by its nodes, nor by the bytes of its index.
pub fn what_is_read_is_never_too_large()
    ensures { (files : List SourceFile) → WithinBounds files → KeepsBounds (entries_of files) }
{}
