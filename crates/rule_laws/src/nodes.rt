//! The law of the paths of nodes, also of nodes that come from elsewhere.
ghost use Rattle.std.specs.Prelude.{◌≡◌, ◌<◌, ℕ, List, length, Contains};
ghost use Rattle.text_core.specs.declared.item.Item.{Item};
ghost use Rattle.trie_nodes.specs.declared.node.Node.{Node};
ghost use Rattle.trie_nodes.specs.Tree.{Shape, children, path};
ghost use Rattle.rule_laws.specs.TreePaths.{ArePaths, HasOneParent};

/// The law of paths.
///
/// For any nodes that have the shape of a tree: the root's path is empty, and that of a child is its parent's and
/// after it the child's own label; no other paths are so. Each node but the root is the child of just one node,
/// which comes before it, and the root is the child of none.
pub fn paths_lead_from_the_root()
    ensures paths { (nodes : List Node) → Shape nodes → ArePaths nodes (path nodes) }
    ensures no_others { (nodes : List Node) (other : ℕ → List Item) → Shape nodes → ArePaths nodes other → (i : ℕ) → i < length nodes → other i ≡ path nodes i }
    ensures parent { (nodes : List Node) (i : ℕ) → Shape nodes → 0 < i → i < length nodes → HasOneParent nodes i }
    ensures root { (nodes : List Node) (i : ℕ) → Shape nodes → Contains (children nodes i) 0 → ⊥ }
{}
