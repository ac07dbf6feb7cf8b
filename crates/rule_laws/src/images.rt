//! Laws that show the definition of an image to be right.
//!
//! Each function here has an empty body, and its contract is a fact about the definitions.
ghost use Rattle.std.specs.Prelude.{◌≡◌, ◌∷◌, [], List, length, map};
ghost use Rattle.std.specs.List.Sorted.{IsPermutation};
ghost use Rattle.trie_nodes.specs.Orders.{Rising};
ghost use Rattle.trie_nodes.specs.declared.entry.Entry.{Entry};
ghost use Rattle.trie_nodes.specs.Tree.{numbers, path};
ghost use Rattle.trie_nodes.specs.Values.{listed};
ghost use Rattle.trie_build.specs.Paths.{paths_of};
ghost use Rattle.trie_build.specs.Sizes.{KeepsBounds, index_len};
ghost use Rattle.trie_build.specs.Accepted.{Accepted};
ghost use Rattle.trie_build.specs.Contents.{contents};
ghost use Rattle.trie_build.specs.Entries.{AreTyped};
ghost use Rattle.trie_build.specs.Image.{by_nodes, image};
ghost use Rattle.rule_laws.specs.Rows.{empty_index, one_entry, one_entry_index};

/// The index of no entries, and that of one, byte by byte.
pub fn two_images()
    ensures none { image [] ≡ empty_index }
    ensures one { image (one_entry ∷ []) ≡ one_entry_index }
{}

/// The law of images.
///
/// For entries whose orders rise and whose keys are not empty, and that keep the bounds of a trie, the image is an
/// index of the length that the bounds speak of, and what it lists are the entries, each once, with its file and
/// line. Its nodes have the paths of the entries, in their order; and node by node it lists the entries that end
/// there, in theirs: so each text is where its value says.
pub fn images_are_indexes()
    ensures accepted { (es : List Entry) → Rising es → KeepsBounds es → AreTyped es → Accepted (image es) }
    ensures length { (es : List Entry) → Rising es → KeepsBounds es → AreTyped es → length (image es) ≡ index_len es }
    ensures listed { (es : List Entry) → Rising es → KeepsBounds es → AreTyped es
        → IsPermutation es (listed (contents (image es)).nodes (contents (image es)).values) }
    ensures paths { (es : List Entry) → Rising es → KeepsBounds es → AreTyped es
        → map (path (contents (image es)).nodes) (numbers (contents (image es)).nodes) ≡ paths_of es }
    ensures in_order { (es : List Entry) → Rising es → KeepsBounds es → AreTyped es
        → listed (contents (image es)).nodes (contents (image es)).values ≡ by_nodes es }
{}
