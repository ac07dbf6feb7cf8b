//! Laws that show the definition of the index of files to be right.
//!
//! Each function here has an empty body, and its contract is a fact about the definitions.
ghost use Rattle.std.specs.Prelude.{◌≡◌, ◌≤◌, List, length};
ghost use Rattle.std.specs.List.Sorted.{IsPermutation};
ghost use Rattle.text_bytes.specs.Text.{Text};
ghost use Rattle.text_bytes.specs.declared.SourceFile.{SourceFile};
ghost use Rattle.hwdb_core.specs.Sources.{WithinBounds, entries_of};
ghost use Rattle.trie_nodes.specs.Query.{query, sourced};
ghost use Rattle.trie_nodes.specs.Values.{listed};
ghost use Rattle.trie_build.specs.Sizes.{max_index_len};
ghost use Rattle.trie_build.specs.Accepted.{Accepted};
ghost use Rattle.trie_build.specs.Contents.{contents};
ghost use Rattle.trie_build.specs.Entries.{AreTyped};
ghost use Rattle.trie_build.specs.Image.{image};

/// The entries of files that are not too many have orders and lines of 32 bits and sets of 32 bytes,
/// as the types of their fields have.
pub fn what_is_read_has_the_types_of_entries()
    ensures { (files : List SourceFile) → WithinBounds files → AreTyped (entries_of files) }
{}

/// The law of the index of files.
///
/// For files that are not too many, the image of their entries is an index of at most 2^32 - 1 bytes. What it lists
/// are the entries, each once, with its file and line, and it answers every modalias as they do.
pub fn what_is_read_makes_an_index()
    ensures accepted { (files : List SourceFile) → WithinBounds files → Accepted (image (entries_of files)) }
    ensures length { (files : List SourceFile) → WithinBounds files → length (image (entries_of files)) ≤ max_index_len }
    ensures listed { (files : List SourceFile) → WithinBounds files
        → let index = contents (image (entries_of files)) in IsPermutation (entries_of files) (listed index.nodes index.values) }
    ensures query { (files : List SourceFile) → WithinBounds files → (modalias : Text)
        → let index = contents (image (entries_of files)) in query (listed index.nodes index.values) modalias ≡ query (entries_of files) modalias }
    ensures sources { (files : List SourceFile) → WithinBounds files → (modalias : Text)
        → let index = contents (image (entries_of files)) in sourced (listed index.nodes index.values) modalias ≡ sourced (entries_of files) modalias }
{}
