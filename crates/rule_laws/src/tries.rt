//! The law of the definition of a trie.
ghost use Rattle.std.specs.Prelude.{◌≡◌, ◌<◌, ℕ, length, map};
ghost use Rattle.trie_nodes.specs.Tree.{numbers, path};
ghost use Rattle.trie_nodes.specs.Values.{values_of};
ghost use Rattle.trie_build.specs.Content.{Content, IsTrie, all_values, value_of};
ghost use Rattle.trie_build.specs.Paths.{ending_at, paths_of};

/// The law of tries.
///
/// The nodes of a trie have the paths of its entries, in their order, and what a node holds are the
/// entries whose pattern is its path, in theirs.
pub fn tries_hold_their_entries()
    ensures paths { (t : Content) → IsTrie t → map (path t.nodes) (numbers t.nodes) ≡ paths_of t.entries }
    ensures values { (t : Content) (i : ℕ) → IsTrie t → i < length t.nodes
        → values_of t.nodes (all_values t) i ≡ map value_of (ending_at t.entries (path t.nodes i)) }
{}
