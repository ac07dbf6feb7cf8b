//! What an index answers.
ghost use Rattle.std.specs.Prelude.{◌≡◌, List};
ghost use Rattle.text_bytes.specs.Text.{Text};
ghost use Rattle.trie_nodes.specs.Orders.{Rising};
ghost use Rattle.trie_nodes.specs.Query.{query, sourced};
ghost use Rattle.trie_nodes.specs.declared.entry.Entry.{Entry};
ghost use Rattle.trie_nodes.specs.Values.{listed};
ghost use Rattle.trie_build.specs.Sizes.{KeepsBounds};
ghost use Rattle.trie_build.specs.Contents.{contents};
ghost use Rattle.trie_build.specs.Entries.{AreTyped};
ghost use Rattle.trie_build.specs.Image.{image};

/// The law of an index's answers.
///
/// The index that is written from some entries answers every modalias as the entries do, with the same files and
/// lines.
pub fn indexes_answer_as_their_entries()
    ensures query { (es : List Entry) → Rising es → KeepsBounds es → AreTyped es → (modalias : Text)
        → query (listed (contents (image es)).nodes (contents (image es)).values) modalias ≡ query es modalias }
    ensures sources { (es : List Entry) → Rising es → KeepsBounds es → AreTyped es → (modalias : Text)
        → sourced (listed (contents (image es)).nodes (contents (image es)).values) modalias ≡ sourced es modalias }
{}
