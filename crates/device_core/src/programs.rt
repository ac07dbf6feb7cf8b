//! What a program answered.
ghost use Rattle.std.specs.Prelude.{◌≡◌, IfOk};
ghost use Rattle.device_core.specs.Values.{with_line};

use std::alloc::{AllocError, Global};
use std::borrow::CowSlice;
use std::marker::Model;

/// The answer of a program, as the block gives it instead of a run.
#[derive(Drop)]
pub struct ProgramAnswer<'a> {
    pub(crate) status: u8,
    pub(crate) text: CowSlice<'a, u8>,
}

impl<'a> Model for ProgramAnswer<'a> {
    ghost use Rattle.std.specs.Cow.{cow_slice_items};
    ghost use Rattle.device_core.specs.Values.{AnswerValue};

    ghost Value = { AnswerValue };

    ghost view = { λ a. record { status = a.status; text = cow_slice_items a.text } };
}

impl<'a> ProgramAnswer<'a> {
    /// Its exit status.
    pub fn status(&self) -> u8
        ensures { result ≡ self.now.status }
    {
        self.status
    }

    /// What it wrote, with a carriage return between two lines.
    pub fn text(&self) -> &[u8]
        ensures { result.now ≡ self.now.text }
    {
        self.text.as_slice()
    }

    /// The same answer with one more line of what it wrote.
    pub(crate) fn with_line(
        self,
        alloc: Global,
        line: &[u8],
    ) -> Result<ProgramAnswer<'a>, AllocError>
        ensures { IfOk result (λ answer. answer ≡ with_line line.now self.entry) }
    {
        let ProgramAnswer { status, text } = self;
        let mut text = match text {
            CowSlice::Owned(text) => text,
            CowSlice::Borrowed(text) => Vec::from_slice(alloc, text)?,
        };
        text.push(b'\r')?;
        text.extend_from_slice(line)?;
        Ok(ProgramAnswer {
            status,
            text: CowSlice::Owned(text),
        })
    }
}
