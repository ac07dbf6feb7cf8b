//! How much a database may hold.
//!
//! The bounds are beside the entries, since whatever reads entries from files, builds a trie of them or writes them
//! as an index keeps to the same bounds.

/// How many entries there may be.
pub const MAX_ENTRIES: usize = 1 << 24;

/// How many nodes its trie may have, and how many sets by which some of these are reached.
pub const MAX_NODES: usize = 1 << 26;

/// How many bytes the matches that give an entry may have.
pub const MAX_MATCH_BYTES: usize = (1 << 25) - 1;

/// How many bytes the keys and values of all entries may have.
pub const MAX_TEXT_BYTES: usize = 1 << 30;

/// How many bytes the names of the files that were read may have.
pub const MAX_NAME_BYTES: usize = 1 << 28;
