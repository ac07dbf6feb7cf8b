//! The law of the format: what is written is read again.
ghost use Rattle.trie_build.specs.Written.{Draft, IsWritable, SaysDraft, written};

/// The law of the format.
///
/// The bytes of any records and any text whose numbers can be written have the length that follows from their
/// header, and say the same records, each by its number, and the same text.
pub fn what_is_written_is_read()
    ensures { (d : Draft) → IsWritable d → SaysDraft (written d) d }
{}
