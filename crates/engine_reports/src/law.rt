//! Why an index has one meaning.
ghost use Rattle.std.specs.Prelude.{◌≡◌, Option, Result};
ghost use Rattle.text_bytes.specs.Text.{Text};
ghost use Rattle.trie_build.specs.declared.index_fault.IndexFault.{IndexFault};
ghost use Rattle.trie_build.specs.Contents.{Contents};
ghost use Rattle.engine_reports.specs.Indexes.{Opens};

/// The law of opening an index.
///
/// The same bytes never open to two different things, so that what is said about them is a function of them.
pub fn an_index_opens_to_one_thing()
    ensures { (index : Option Text) (one other : Option (Result Contents IndexFault)) → Opens index one → Opens index other → one ≡ other }
{}
