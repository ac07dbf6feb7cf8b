//! What an index of either version says.
ghost use Rattle.std.specs.Prelude.{◌≡◌, ◌↔◌, ◌∷◌, [], ℕ, List, All};
ghost use Rattle.trie_nodes.specs.Bounds.{first_version};
ghost use Rattle.trie_nodes.specs.Query.{query, sourced};
ghost use Rattle.trie_nodes.specs.Values.{listed};
ghost use Rattle.trie_build.specs.Accepted.{Accepted, Holds};
ghost use Rattle.trie_build.specs.declared.index_fault.IndexFault.{IndexFault};
ghost use Rattle.trie_build.specs.Header.{header_of};
ghost use Rattle.trie_build.specs.Contents.{contents, value_of};
ghost use Rattle.rule_laws.specs.Version1.{Accepted1, Holds1, listed_1, nodes_1};
ghost use Rattle.rule_laws.specs.Parts.{IsFoundIn, IsPartOf};
ghost use Rattle.rule_laws.specs.Rows.{bare_entry, bare_entry_index};

/// The law of version 1.
///
/// A value of an index of version 1 has no file and no line.
pub fn values_of_version_1_have_no_file()
    ensures file { (bytes : List ℕ) (j : ℕ) → (header_of bytes).version ≡ first_version → (value_of bytes j).file ≡ [] }
    ensures line { (bytes : List ℕ) (j : ℕ) → (header_of bytes).version ≡ first_version → (value_of bytes j).line ≡ 0 }
{}

/// An index of version 1, byte by byte, and what it lists.
pub fn an_index_of_version_1()
    ensures accepted { Accepted1 bare_entry_index }
    ensures listed { listed_1 bare_entry_index ≡ bare_entry ∷ [] }
{}

/// The law of files of version 1.
///
/// What is said about version 1 by itself, with no word of version 2, is what the definitions for both say. A file of
/// version 1 passes the same checks, so that the same files are an index. Such a file has the same nodes, lists the
/// same entries, each with no file and line 0, and answers as these do.
pub fn indexes_of_version_1_are_kept()
    ensures checks { (bytes : List ℕ) (check : IndexFault) → (header_of bytes).version ≡ first_version → (Holds1 check bytes ↔ Holds check bytes) }
    ensures accepted { (bytes : List ℕ) → Accepted1 bytes ↔ (Accepted bytes × ((header_of bytes).version ≡ first_version)) }
    ensures nodes { (bytes : List ℕ) → Accepted1 bytes → (contents bytes).nodes ≡ nodes_1 bytes }
    ensures listed { (bytes : List ℕ) → Accepted1 bytes → listed (contents bytes).nodes (contents bytes).values ≡ listed_1 bytes }
    ensures query { (bytes modalias : List ℕ) → Accepted1 bytes
        → query (listed (contents bytes).nodes (contents bytes).values) modalias ≡ query (listed_1 bytes) modalias }
    ensures sources { (bytes modalias : List ℕ) → Accepted1 bytes
        → sourced (listed (contents bytes).nodes (contents bytes).values) modalias ≡ sourced (listed_1 bytes) modalias }
{}

/// The law of the texts of answers.
///
/// Each text of an answer, the names of files too, is in the bytes of the file that was queried.
pub fn answers_are_in_the_file()
    ensures query { (bytes modalias : List ℕ)
        → All (λ p. IsPartOf bytes p.0 × IsPartOf bytes p.1) (query (listed (contents bytes).nodes (contents bytes).values) modalias) }
    ensures sources { (bytes modalias : List ℕ) → All (IsFoundIn bytes) (sourced (listed (contents bytes).nodes (contents bytes).values) modalias) }
{}
