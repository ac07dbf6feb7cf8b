//! The database as a trie in memory, and as an index file.
//!
//! A trie is built from the entries that were read: which nodes it has, in which order. An index is read instead of one, and
//! written from one. It is checked once, when it is opened; every later lookup relies on that, and allocates nothing for
//! what it finds.
#![tactic(auto)]

mod build;
mod checked_records;
mod checks;
mod fault;
mod file_order;
mod first_labels;
mod groups;
mod header;
mod index;
mod index_fault;
pub mod kinds;
mod labels;
mod made;
mod nodes;
mod numbers;
mod order;
mod records;
mod rows;
mod size;
mod texts;
mod tree;
mod trie;
mod values;
mod write;

pub use checked_records::Records;
pub use checks::check;
pub use fault::TrieFault;
pub use header::{HEADER_LEN, Header, MAGIC, NODE_LEN, Places, SET_LEN, VERSION};
pub use index::Index;
pub use index_fault::IndexFault;
pub use made::trie_of;
pub use order::{compare_from, compare_labels};
pub use records::{NodeRecord, Span, ValueRecord};
pub use trie::Trie;
pub use trie_nodes::{Database, Found, Node, Nodes};
pub use write::write_index;
