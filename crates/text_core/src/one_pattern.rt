//! A whole text as one pattern of fnmatch(3).
ghost use Rattle.std.specs.Prelude.{◌≡◌, IfOk};
ghost use Rattle.text_core.specs.Fnmatch.{fnmatch_items};

use crate::fnmatch::read_part;
use crate::pattern::Pattern;
use crate::reading::Reading;
use std::alloc::{AllocError, Global};

impl Pattern {
    /// Reads a whole text as one pattern of fnmatch(3) in the C locale, in which a bar is a byte and a backslash
    /// quotes the byte after it. No text has a fault; the error means that memory ran out.
    pub fn read_fnmatch(alloc: Global, reading: Reading, text: &[u8]) -> Result<Pattern, AllocError>
        ensures { IfOk result (λ p. p ≡ fnmatch_items reading text.now 0) }
    {
        read_part(alloc, reading, true, text)
    }
}
