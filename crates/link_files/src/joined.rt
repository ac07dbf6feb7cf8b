//! The lines of a `.link` file with their places.
ghost use Rattle.std.specs.Prelude.{◌≡◌, ◌++◌, ◌∷◌, IfOk, List, OnOk};
ghost use Rattle.text_bytes.specs.Lines.{NumberedLine};
ghost use Rattle.link_files.specs.Joined.{joined_after, joined_lines, with_part};

use crate::lines::{bare, is_comment, is_continued};
use crate::settings::unmarked;
use std::alloc::{AllocError, Global};
use std::marker::Model;
use text_bytes::{Line, Lines, without_last};

/// A line that may be put together from several.
#[derive(Drop)]
pub(crate) struct JoinedLine {
    /// The number of the first line, counted from 1.
    pub(crate) number: usize,
    /// How many bytes the first line has.
    pub(crate) width: usize,
    /// The text.
    pub(crate) text: Vec<u8>,
}

impl Model for JoinedLine {
    ghost use Rattle.link_files.specs.Joined as joined;

    ghost Value = { joined.JoinedLine };

    ghost view = { λ l. record { number = l.number; width = l.width; text = l.text.items } };
}

/// What is held of a line that goes on, with a part of the next one; or the part alone.
fn with_part(
    alloc: Global,
    held: Option<JoinedLine>,
    line: &Line<'_>,
    part: &[u8],
) -> Result<JoinedLine, AllocError>
    ensures { IfOk result (λ joined. joined ≡ with_part held line.now part.now) }
{
    match held {
        Some(mut held) => {
            held.text.extend_from_slice(part)?;
            Ok(held)
        }
        None => Ok(JoinedLine {
            number: line.number(),
            width: line.text().len(),
            text: Vec::from_slice(alloc, part)?,
        }),
    }
}

/// Lines that were put together, and what is held of one that goes on.
#[derive(Drop)]
struct Joining {
    done: Vec<JoinedLine>,
    held: Option<JoinedLine>,
}

impl Joining {
    /// Takes one more line.
    #[tactic(auto, unfolding(crate::specs::Joined::joined_after))]
    fn take(&mut self, alloc: Global, line: &Line<'_>) -> Result<(), AllocError>
        ensures { OnOk result ((following : List NumberedLine)
            → self.new.done.items ++ joined_after self.new.held following
            ≡ self.old.done.items ++ joined_after self.old.held (line.now ∷ following)) }
    {
        let text = line.text();
        if is_comment(text) {
            return Ok(());
        }
        let text = bare(text);
        let held = self.held.take();
        if is_continued(text) {
            let mut joined = with_part(alloc, held, line, without_last(text))?;
            joined.text.push(b' ')?;
            self.held = Some(joined);
            return Ok(());
        }
        let joined = with_part(alloc, held, line, text)?;
        self.done.push(joined)?;
        Ok(())
    }
}

/// The lines of a file.
#[tactic(auto, unfolding(crate::specs::Joined::joined_lines, crate::specs::Joined::joined_after))]
pub(crate) fn joined_lines(alloc: Global, bytes: &[u8]) -> Result<Vec<JoinedLine>, AllocError>
    ensures { IfOk result (λ lines. lines.items ≡ joined_lines bytes.now) }
{
    let mut joining = Joining {
        done: Vec::new(alloc),
        held: None,
    };
    for line in Lines::new(unmarked(bytes)) {
        joining.take(alloc, &line)?;
    }
    let Joining { mut done, held } = joining;
    if let Some(line) = held {
        done.push(line)?;
    }
    Ok(done)
}
