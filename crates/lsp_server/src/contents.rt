//! Contents as messages.
ghost use Rattle.std.specs.Prelude.{◌≡◌, false, IfOk, None, option_map};
ghost use Rattle.std.specs.Option.{option_map_or};
ghost use Rattle.json.specs.Tree.{HasNumbers};
ghost use Rattle.json.specs.Value.{value_view};
ghost use Rattle.lsp_messages.specs.Messages.{message_of};
ghost use Rattle.lsp_server.specs.Contents.{exits, is_exit, step_by, step_of, value_of_content};
ghost use Rattle.lsp_server.specs.Given.{GivesSome};

use crate::errors::error_for;
use crate::server::Server;
use json::{Error, Scratch, Value};
use lsp_messages::{ErrorCode, Message, message_of};
use std::alloc::{AllocError, Global};

/// What comes of a content: what is sent then, if anything is, and whether it is the notification `exit`.
#[derive(Drop)]
pub(crate) struct Outcome {
    /// The content that is sent.
    pub(crate) sent: Option<Vec<u8>>,
    /// Whether the client said `exit`.
    pub(crate) exits: bool,
}

impl Server {
    /// A message comes.
    fn take_value(&mut self, alloc: Global, value: &Value<'_>) -> Result<Outcome, AllocError>
        requires { HasNumbers (value_view value.now) }
        ensures step { IfOk result (λ o. GivesSome (step_of self.old (message_of (value_view value.now))) self.new (option_map (λ c. c.items) o.sent)) }
        ensures exits { IfOk result (λ o. o.exits ≡ is_exit (message_of (value_view value.now))) }
    {
        match message_of(value) {
            Message::Request { id, method, params } => Ok(Outcome {
                sent: Some(self.request(alloc, id, method, params)?),
                exits: false,
            }),
            Message::Notification { method, params } => Ok(Outcome {
                sent: self.notify(alloc, method, params)?,
                exits: method == "exit",
            }),
            Message::Response => Ok(Outcome {
                sent: None,
                exits: false,
            }),
            Message::Invalid => Ok(Outcome {
                sent: Some(error_for(alloc, None, ErrorCode::InvalidRequest)?),
                exits: false,
            }),
        }
    }

    /// A content comes.
    pub(crate) fn take_content(
        &mut self,
        alloc: Global,
        content: &[u8],
    ) -> Result<Outcome, AllocError>
        ensures step { IfOk result (λ o. GivesSome (step_by self.old (value_of_content content.now)) self.new (option_map (λ c. c.items) o.sent)) }
        ensures exits { IfOk result (λ o. o.exits ≡ option_map_or (λ value. is_exit (message_of value)) (value_of_content content.now) false) }
    {
        let mut scratch = Scratch::new(alloc);
        match Value::from_slice(alloc, content, &mut scratch) {
            Ok(value) => self.take_value(alloc, &value),
            Err(Error::Invalid) => Ok(Outcome {
                sent: Some(error_for(alloc, None, ErrorCode::ParseError)?),
                exits: false,
            }),
            // Of these only the first can come.
            Err(Error::OutOfMemory | Error::TooLong | Error::DuplicateKey) => Err(AllocError),
        }
    }
}
