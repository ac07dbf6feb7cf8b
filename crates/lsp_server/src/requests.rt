//! Requests.
ghost use Rattle.std.specs.Prelude.{◌≡◌, IfOk, option_map};
ghost use Rattle.json.specs.Print.{print};
ghost use Rattle.json.specs.Tree.{HasNumbers, json_tokens};
ghost use Rattle.json.specs.Value.{value_view};
ghost use Rattle.lsp_answers.specs.Answers.{answer};
ghost use Rattle.lsp_answers.specs.Queries.{query_of, shown};
ghost use Rattle.lsp_messages.specs.Responses.{response_of};
ghost use Rattle.lsp_server.specs.Contents.{answered, requested, shut_down};
ghost use Rattle.lsp_server.specs.Given.{Gives};
ghost use Rattle.lsp_server.specs.declared.server.Phase.TheVariants.{Running};

use crate::errors::error_for;
use crate::server::{Phase, Server};
use json::{Value, Writer};
use lsp_answers::{Query, query_of, write_answer};
use lsp_messages::{ErrorCode, begin_response, null_response};
use std::alloc::{AllocError, Global};

/// The response to a query.
fn response_to(
    alloc: Global,
    server: &Server,
    id: &Value<'_>,
    query: &Query<'_>,
) -> Result<Vec<u8>, AllocError>
    requires { HasNumbers (value_view id.now) }
    ensures { IfOk result (λ content. content.items
        ≡ print (json_tokens (response_of (value_view id.now) (answer server.now.encoding server.now.settings (shown query.now))))) }
{
    let mut writer = Writer::new(Vec::new(alloc));
    begin_response(&mut writer, id)?;
    write_answer(alloc, &mut writer, server.encoding, &server.settings, query)?;
    writer.end_object()?;
    Ok(writer.into_inner())
}

impl Server {
    /// A request about a document comes.
    fn answer(
        &self,
        alloc: Global,
        id: &Value<'_>,
        method: &str,
        params: Option<&Value<'_>>,
    ) -> Result<Vec<u8>, AllocError>
        requires { HasNumbers (value_view id.now) }
        ensures { IfOk result (λ content. Gives (answered self.now (value_view id.now)
            (query_of self.now.documents method.now (option_map (λ p. value_view p.now) params.entry))) self.now content.items) }
    {
        match query_of(&self.documents, method, params) {
            Ok(query) => response_to(alloc, self, id, &query),
            Err(code) => error_for(alloc, Some(id), code),
        }
    }

    /// `shutdown` comes.
    fn shut_down(&mut self, alloc: Global, id: &Value<'_>) -> Result<Vec<u8>, AllocError>
        requires { HasNumbers (value_view id.now) }
        ensures { IfOk result (λ content. Gives (shut_down self.old (value_view id.now)) self.new content.items) }
    {
        let content = null_response(alloc, id)?;
        self.phase = Phase::Down;
        Ok(content)
    }

    /// A request comes while the server is running.
    fn run(
        &mut self,
        alloc: Global,
        id: &Value<'_>,
        method: &str,
        params: Option<&Value<'_>>,
    ) -> Result<Vec<u8>, AllocError>
        requires { HasNumbers (value_view id.now) }
        ensures { IfOk result (λ content. Gives (requested Running self.old (value_view id.now) method.now
            (option_map (λ p. value_view p.now) params.entry)) self.new content.items) }
    {
        match method {
            "initialize" => error_for(alloc, Some(id), ErrorCode::InvalidRequest),
            "shutdown" => self.shut_down(alloc, id),
            _ => self.answer(alloc, id, method, params),
        }
    }

    /// A request comes.
    pub(crate) fn request(
        &mut self,
        alloc: Global,
        id: &Value<'_>,
        method: &str,
        params: Option<&Value<'_>>,
    ) -> Result<Vec<u8>, AllocError>
        requires { HasNumbers (value_view id.now) }
        ensures { IfOk result (λ content. Gives (requested self.old.phase self.old (value_view id.now) method.now
            (option_map (λ p. value_view p.now) params.entry)) self.new content.items) }
    {
        match self.phase {
            Phase::Fresh => {
                if method == "initialize" {
                    self.begin(alloc, id, params)
                } else {
                    error_for(alloc, Some(id), ErrorCode::ServerNotInitialized)
                }
            }
            Phase::Running => self.run(alloc, id, method, params),
            Phase::Down => error_for(alloc, Some(id), ErrorCode::InvalidRequest),
        }
    }
}
