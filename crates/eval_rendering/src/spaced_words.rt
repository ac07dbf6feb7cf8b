//! Texts as one word.
ghost use Rattle.std.specs.Prelude.{◌≡◌, map, IfOk};
ghost use Rattle.text_bytes.specs.Underscores.{underscored};
ghost use Rattle.eval_rendering.specs.Bounds.{bounded};
ghost use Rattle.eval_rendering.specs.Words.{spaced};

use crate::bounds::MAX_BYTES;
use std::alloc::{AllocError, Global};
use text_bytes::Word;

/// Texts joined by spaces, as one word; if that is too long, only so much of it that it is still too long.
pub(crate) fn spaced_word(alloc: Global, texts: &[Vec<u8>]) -> Result<Vec<u8>, AllocError>
    ensures { IfOk result (λ word. bounded word.items ≡ bounded (underscored (spaced (map (λ t. t.items) texts.now)))) }
{
    let mut word = Word::new(alloc);
    for text in texts {
        if word.len() > MAX_BYTES {
            return Ok(word.into_bytes());
        }
        word.push(b" ")?;
        word.push(text)?;
    }
    Ok(word.into_bytes())
}
