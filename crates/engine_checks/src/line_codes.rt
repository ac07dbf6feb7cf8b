//! Codes at lines, each once, so that a long file is searched only once.
ghost use Rattle.std.specs.Prelude.{◌≡◌, ◌||◌, [], ℕ, OnOk};
ghost use Rattle.text_bytes.specs.Text.{Text};
ghost use Rattle.engine_checks.specs.Tables.{has_code_at, is_code_at};

use indexmap::IndexSet;
use std::alloc::{AllocError, Global};
use std::marker::Model;

/// Codes, each with the number of a line.
#[derive(Drop)]
pub(crate) struct LineCodes<'a> {
    held: IndexSet<(u32, &'a [u8])>,
}

impl<'a> Model for LineCodes<'a> {
    ghost use Rattle.std.specs.Prelude.{List, ℕ, map};
    ghost use Rattle.text_bytes.specs.Text.{Text};

    ghost Value = { List (ℕ × Text) };

    ghost view = { λ c. map (λ k. (k.0, k.1.now)) c.held.keys };
}

impl<'a> LineCodes<'a> {
    /// No codes.
    pub(crate) fn new(alloc: Global) -> LineCodes<'a>
        ensures { result ≡ [] }
    {
        LineCodes {
            held: IndexSet::new(alloc),
        }
    }

    /// Whether a code is there at a line.
    pub(crate) fn has(&self, line: u32, code: &[u8]) -> bool
        ensures { result ≡ has_code_at self.now line code.now }
    {
        self.held.contains(&(line, code))
    }

    /// Adds a code at a line.
    pub(crate) fn add(&mut self, line: u32, code: &'a [u8]) -> Result<(), AllocError>
        ensures { OnOk result ((at : ℕ) (text : Text) → has_code_at self.new at text ≡ (has_code_at self.old at text || is_code_at at text (line, code.now))) }
    {
        self.held.insert((line, code))?;
        Ok(())
    }
}
