//! What the server replies to each frame.
ghost use Rattle.std.specs.Prelude.{◌≡◌, if◌then◌else◌, false, IfOk, None, Some, option_map};
ghost use Rattle.lsp_server.specs.declared.frames.Item.{Item};
ghost use Rattle.lsp_server.specs.Contents.{exits, step};
ghost use Rattle.lsp_server.specs.Errors.{error_for};
ghost use Rattle.lsp_server.specs.Given.{GivesSome, framed_content, written};
ghost use Rattle.lsp_server.specs.Replies.{after, exit_by, reply};

use crate::contents::Outcome;
use crate::errors::error_for;
use crate::frames::Item;
use crate::framing::push_framed;
use crate::replying::{Exit, Reply, Replying};
use crate::server::{Phase, Server};
use lsp_messages::ErrorCode;
use std::alloc::{AllocError, Global};
use text_bytes::Bytes;

/// What is sent for what is no message.
fn refused(alloc: Global, code: ErrorCode) -> Result<Outcome, AllocError>
    ensures sent { IfOk result (λ o. option_map (λ c. c.items) o.sent ≡ Some (written (error_for None code))) }
    ensures exits { IfOk result (λ o. o.exits ≡ false) }
{
    Ok(Outcome {
        sent: Some(error_for(alloc, None, code)?),
        exits: false,
    })
}

/// The frame of what is sent, and nothing if nothing is.
fn frame_of(alloc: Global, outcome: &Outcome) -> Result<Bytes, AllocError>
    ensures { IfOk result (λ text. text ≡ framed_content (option_map (λ c. c.items) outcome.now.sent)) }
{
    let mut text = Vec::new(alloc);
    if let Some(content) = &outcome.sent {
        push_framed(&mut text, content)?;
    }
    Ok(Bytes::new(text))
}

/// How a client exits, if it says `exit` at this phase.
fn exit_at(phase: Phase, exits: bool) -> Option<Exit>
    ensures { result ≡ (if exits then Some (exit_by phase) else None) }
{
    if !exits {
        return None;
    }
    match phase {
        Phase::Down => Some(Exit::AfterShutdown),
        Phase::Fresh | Phase::Running => Some(Exit::WithoutShutdown),
    }
}

impl Server {
    /// A frame comes.
    #[tactic(auto, unfolding(crate::specs::Contents::step))]
    fn take_item(&mut self, alloc: Global, item: &Item) -> Result<Outcome, AllocError>
        ensures step { IfOk result (λ o. GivesSome (step self.old item.now) self.new (option_map (λ c. c.items) o.sent)) }
        ensures exits { IfOk result (λ o. o.exits ≡ exits item.now) }
    {
        match item {
            Item::Content(content) => self.take_content(alloc, content.as_slice()),
            Item::NoFrame => refused(alloc, ErrorCode::ParseError),
            Item::TooLong => refused(alloc, ErrorCode::InvalidRequest),
        }
    }
}

impl Replying for Server {
    ghost replies = { reply };

    ghost after = { after };

    fn reply(&mut self, alloc: Global, item: Item) -> Result<Reply, AllocError> {
        let phase = self.phase;
        let outcome = self.take_item(alloc, &item)?;
        Ok(Reply {
            text: frame_of(alloc, &outcome)?,
            exit: exit_at(phase, outcome.exits),
        })
    }
}
