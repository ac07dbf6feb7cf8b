//! The line with which what is said of an event begins.
ghost use Rattle.std.specs.Prelude.{◌≡◌, ◌++◌, OnOk};
ghost use Rattle.engine_sessions.specs.EventLine.{event_line};

use crate::escaping::push_escaped;
use std::alloc::{AllocError, Global};

/// Adds the line with which what is said of an event begins, `event ACTION PATH`, each of the two escaped.
#[tactic(auto, unfolding(crate::specs::EventLine::event_line))]
pub fn push_event(
    alloc: Global,
    lines: &mut Vec<u8>,
    action: &[u8],
    path: &[u8],
) -> Result<(), AllocError>
    ensures { OnOk result (lines.new.items ≡ lines.old.items ++ event_line action.now path.now) }
{
    lines.extend_from_slice(b"event ")?;
    push_escaped(alloc, lines, action)?;
    lines.push(b' ')?;
    push_escaped(alloc, lines, path)?;
    lines.push(b'\n')?;
    Ok(())
}
