//! What a diagnostic says.
ghost use Rattle.std.specs.Prelude.{◌≡◌, IfOk};
ghost use Rattle.engine_formats.specs.Diagnostics.{shown};
ghost use Rattle.lsp_answers.specs.Diagnostics.{said_of};

use engine_formats::{Diagnostic, push_advice_for};
use engine_sessions::push_word;
use std::alloc::{AllocError, Global};

/// What a diagnostic says: its text with the word that it is about, and on the next line how to mend it.
#[tactic(auto, unfolding(crate::specs::Diagnostics::said_of))]
pub(crate) fn said_of(alloc: Global, diagnostic: &Diagnostic<'_>) -> Result<Vec<u8>, AllocError>
    ensures { IfOk result (λ text. text.items ≡ said_of (shown diagnostic.now)) }
{
    let mut text = Vec::from_slice(alloc, diagnostic.remark.text())?;
    push_word(alloc, &mut text, diagnostic.word.as_slice())?;
    text.push(b'\n')?;
    push_advice_for(alloc, &mut text, diagnostic)?;
    Ok(text)
}
