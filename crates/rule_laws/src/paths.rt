//! Laws that show the definitions of paths and tries to be right.
//!
//! Each function here has an empty body, and its contract is a fact about the definitions.
ghost use Rattle.std.specs.Prelude.{◌≡◌, ◌+◌, ◌<◌, ◌≤◌, ℕ, List, [], ◌∷◌, flat_map, length, sum_by, count_by, take};
ghost use Rattle.text_bytes.specs.Text.{Text};
ghost use Rattle.text_core.specs.declared.item.Item.{Item};
ghost use Rattle.trie_nodes.specs.declared.entry.Entry.{Entry};
ghost use Rattle.trie_build.specs.Distinct.{IsDistinctOf, IsIn};
ghost use Rattle.trie_build.specs.Order.{path_cmp};
ghost use Rattle.trie_build.specs.Paths.{is_child, paths_among, paths_of, prefixes};
ghost use Rattle.trie_build.specs.Sizes.{names_of, sets_of};
ghost use Rattle.trie_build.specs.Tree.{IsLevelByLevel, IsTree};

/// The nodes' paths are the prefixes of the patterns, each once, by their length and then label by
/// label.
pub fn paths_occur_once()
    ensures { (patterns : List (List Item)) → IsDistinctOf path_cmp ([] ∷ flat_map prefixes patterns) (paths_among patterns) }
{}

/// The children of a tree's paths, path by path, are all its paths but the root's: so nodes that
/// are in the order of their paths have their children one after another.
pub fn trees_are_laid_out_level_by_level()
    ensures { (ps : List (List Item)) → IsTree ps → IsLevelByLevel ps }
{}

/// The paths of patterns are those of a tree; all of them but the root's are children, and the
/// children of each follow it.
pub fn paths_are_a_tree()
    ensures tree { (patterns : List (List Item)) → IsTree (paths_among patterns) }
    ensures children { (patterns : List (List Item)) → 1 + sum_by (λ p. count_by (is_child p) (paths_among patterns)) (paths_among patterns)
        ≡ length (paths_among patterns) }
    ensures later { (patterns : List (List Item)) (i : ℕ) → i < length (paths_among patterns)
        → i < 1 + sum_by (λ p. count_by (is_child p) (paths_among patterns)) (take i (paths_among patterns)) }
{}

/// A trie has at most one node more than its patterns have labels, a pattern that is there twice counted once; at
/// most as many sets as nodes; and its files' names are no longer than those of the files that it comes from.
pub fn a_trie_is_small()
    ensures nodes { (patterns listed : List (List Item)) → ((p : List Item) → IsIn p patterns → IsIn p listed)
        → length (paths_among patterns) ≤ 1 + sum_by length listed }
    ensures sets { (entries : List Entry) → length (sets_of entries) ≤ length (paths_of entries) }
    ensures names { (entries : List Entry) (names : List Text) → ((e : Entry) → IsIn e entries → IsIn e.file names)
        → sum_by length (names_of entries) ≤ sum_by length names }
{}
