//! What the definition of a fault means.
ghost use Rattle.std.specs.Prelude.{◌≡◌, ℕ, List};
ghost use Rattle.trie_build.specs.Accepted.{Accepted, FailsFirst};
ghost use Rattle.trie_build.specs.declared.index_fault.IndexFault.{IndexFault};

/// The law of faults.
///
/// A file has one fault at most, and an index has none.
pub fn a_file_fails_one_check_first()
    ensures one { (bytes : List ℕ) (fault other : IndexFault) → FailsFirst bytes fault → FailsFirst bytes other → fault ≡ other }
    ensures none { (bytes : List ℕ) (fault : IndexFault) → Accepted bytes → FailsFirst bytes fault → ⊥ }
{}
