//! Whether a list of entries is as the reading of database files gives it.
ghost use Rattle.std.specs.Prelude.{◌↔◌, IsTrue};
ghost use Rattle.trie_nodes.specs.Orders.{Rising};

use crate::entry::Entry;

/// Whether the orders of the entries rise strictly and no key is empty; true of the empty list.
///
/// A database is made only of such a list, so this is the test for entries that do not come from the reading of
/// files.
pub fn rising(entries: &[Entry]) -> bool
    ensures { IsTrue result ↔ Rising entries.now }
{
    entries.iter().all(|entry| !entry.key.as_slice().is_empty())
        && entries.is_sorted_by(|entry, next| entry.order < next.order)
}
