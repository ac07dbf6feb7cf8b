//! What is true of the answer to a query, in terms of the entries and not of how they are gathered.
ghost use Rattle.std.specs.Prelude.{◌≡◌, ◌↔◌, List};
ghost use Rattle.text_bytes.specs.Text.{Text};
ghost use Rattle.trie_nodes.specs.Query.{winners};
ghost use Rattle.trie_nodes.specs.Winning.{IsAnswer};
ghost use Rattle.trie_nodes.specs.declared.entry.Entry.{Entry};

/// The law of a query, for any list of entries and any modalias.
///
/// The keys of the answer strictly rise. Each property of it is that of an entry that fits, of the greatest order
/// among the entries that fit and have its key, and of equal orders the last listed. And each key of an entry that
/// fits is there. No other list has all this.
pub fn winners_are_the_answer()
    ensures { (entries : List Entry) (modalias : Text) (won : List Entry) → IsAnswer entries modalias won ↔ (won ≡ winners entries modalias) }
{}
