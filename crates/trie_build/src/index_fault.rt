//! Why a file is not an index.

use std::error::Error;
use std::fmt;

/// The first check that a file fails, in the order in which they are made.
#[derive(Clone, Copy, Debug, PartialEq, Eq)]
pub enum IndexFault {
    /// 1: it is shorter than a header.
    Short,
    /// 2: it does not begin with `devdryhw`.
    Magic,
    /// 3: its version is neither 1 nor 2.
    Version,
    /// 4: it has no node, or more than 2^26 nodes, 2^24 values or 2^26 sets, the last field of its header is not 0,
    /// or its length is not what the header says.
    Size,
    /// 5: the children or the values of its nodes do not follow one another.
    Shape,
    /// 6: a node has an invalid label.
    Label,
    /// 7: a key, a value or a file's name is not within the text, or a key is empty.
    Text,
    /// 8: the orders of a node's values do not rise.
    Order,
}

impl IndexFault {
    ghost use Rattle.std.specs.Prelude.{◌≡◌};
    ghost use Rattle.trie_build.specs.IndexFaultTexts.{fault_text};

    /// The check in a word, as the line on a refused index names it.
    pub fn text(self) -> &'static str
        ensures { result.now ≡ fault_text self }
    {
        match self {
            IndexFault::Short => "short",
            IndexFault::Magic => "magic",
            IndexFault::Version => "version",
            IndexFault::Size => "size",
            IndexFault::Shape => "shape",
            IndexFault::Label => "label",
            IndexFault::Text => "text",
            IndexFault::Order => "order",
        }
    }
}

impl fmt::Display for IndexFault {
    ghost use Rattle.std.specs.Prelude.{Some};
    ghost use Rattle.trie_build.specs.IndexFaultTexts.{fault_text};

    ghost output = { λ fault. Some (fault_text fault) };

    fn fmt<W: fmt::Write>(&self, f: &mut fmt::Formatter<W>) -> fmt::Result {
        f.write_str(self.text())
    }
}

impl Error for IndexFault {}
