//! Notifications.
ghost use Rattle.std.specs.Prelude.{◌≡◌, IfOk, option_map};
ghost use Rattle.json.specs.Value.{value_view};
ghost use Rattle.lsp_server.specs.Contents.{notified, told_of};
ghost use Rattle.lsp_server.specs.Given.{GivesSome};

use crate::server::{Phase, Server};
use json::Value;
use std::alloc::{AllocError, Global};

impl Server {
    /// A notification with parameters comes.
    fn hear(
        &mut self,
        alloc: Global,
        method: &str,
        params: &Value<'_>,
    ) -> Result<Option<Vec<u8>>, AllocError>
        ensures { IfOk result (λ content. GivesSome (told_of self.old method.now (value_view params.now)) self.new (option_map (λ c. c.items) content)) }
    {
        match method {
            "textDocument/didOpen" => self.open(alloc, params),
            "textDocument/didChange" => self.change(alloc, params),
            "textDocument/didClose" => self.close(alloc, params),
            _ => Ok(None),
        }
    }

    /// A notification comes. Outside `initialize` and `shutdown` nothing comes of it.
    pub(crate) fn notify(
        &mut self,
        alloc: Global,
        method: &str,
        params: Option<&Value<'_>>,
    ) -> Result<Option<Vec<u8>>, AllocError>
        ensures { IfOk result (λ content. GivesSome (notified self.old.phase self.old method.now (option_map (λ p. value_view p.now) params.entry)) self.new
            (option_map (λ c. c.items) content)) }
    {
        match self.phase {
            Phase::Running => match params {
                Some(params) => self.hear(alloc, method, params),
                None => Ok(None),
            },
            Phase::Fresh | Phase::Down => Ok(None),
        }
    }
}
