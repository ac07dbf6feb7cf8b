//! Sorted texts, each once: the names of files, and the bytes of sets.
ghost use Rattle.std.specs.Prelude.{◌≡◌, ◌++◌, IfOk, OnOk, length};
ghost use Rattle.trie_build.specs.Distinct.{IsIn, number_in};
ghost use Rattle.text_bytes.specs.Insertion.{text_order};
ghost use Rattle.trie_build.specs.Image.{all_names};
ghost use Rattle.trie_build.specs.Content.{shown};
ghost use Rattle.trie_build.specs.Writing.{AreTexts};

use std::alloc::AllocError;

/// The number of a text among some that include it.
pub(crate) fn number_of(texts: &[&[u8]], text: &[u8]) -> u32
    requires texts { AreTexts (shown texts.now) }
    requires there { IsIn text.now (shown texts.now) }
    ensures { result ≡ number_in text_order (shown texts.now) text.now }
{
    match texts.binary_search_by(|other| (*other).cmp(text)) {
        Ok(number) => number as u32,
        Err(_) => 0,
    }
}

/// Adds texts, one after another.
pub(crate) fn push_all(out: &mut Vec<u8>, texts: &[&[u8]]) -> Result<(), AllocError>
    ensures { OnOk result (out.new.items ≡ out.old.items ++ all_names (shown texts.now)) }
{
    for text in texts {
        out.extend_from_slice(text)?;
    }
    Ok(())
}
