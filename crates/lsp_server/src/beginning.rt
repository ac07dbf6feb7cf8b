//! The request `initialize`.
ghost use Rattle.std.specs.Prelude.{◌≡◌, IfErr, IfOk, Ok, Some, option_map};
ghost use Rattle.json.specs.Print.{print};
ghost use Rattle.json.specs.Tree.{HasNumbers, json_tokens};
ghost use Rattle.json.specs.Value.{value_view};
ghost use Rattle.text_json.specs.Told.{told_text};
ghost use Rattle.lsp_messages.specs.Options.{options_of};
ghost use Rattle.lsp_messages.specs.Responses.{error_of, response_of};
ghost use Rattle.lsp_messages.specs.declared.errors.ErrorCode.TheVariants.{InvalidParams};
ghost use Rattle.lsp_answers.specs.Faults.{AnswersWords};
ghost use Rattle.lsp_server.specs.Beginning.{begun, begun_with, encoding_of, settings_asked};
ghost use Rattle.lsp_server.specs.Capabilities.{initialized};
ghost use Rattle.lsp_server.specs.Given.{Gives};

use crate::capabilities::write_initialized;
use crate::errors::error_for;
use crate::server::{Phase, Server};
use json::{Value, Writer};
use lsp_answers::{Settings, SettingsFault, settings_of};
use lsp_messages::{
    Encoding, ErrorCode, Options, begin_response, error_response, offers_utf8, options_of,
};
use std::alloc::{AllocError, Global};
use text_bytes::Bytes;
use text_json::told;

/// What is said about options that are no array of words.
const MALFORMED: &[u8] = b"not the parameters of this method, or about a document that is not open";

/// The encoding in which characters are counted from now on.
fn encoding_of(params: &Value<'_>) -> Encoding
    ensures { result ≡ encoding_of (value_view params.now) }
{
    if offers_utf8(params) {
        Encoding::Utf8
    } else {
        Encoding::Utf16
    }
}

/// The settings that the parameters ask for.
fn settings_asked(alloc: Global, params: &Value<'_>) -> Result<Settings, SettingsFault>
    ensures settings { IfOk result (λ settings. settings_asked (options_of (value_view params.now)) ≡ Ok settings) }
    ensures fault { IfErr result (AnswersWords (settings_asked (options_of (value_view params.now)))) }
{
    match options_of(alloc, params)? {
        Options::Absent => Ok(Settings::strict(alloc)),
        Options::Words(words) => settings_of(alloc, &words),
        Options::Malformed => Err(SettingsFault::Words(Bytes::copy_of(alloc, MALFORMED)?)),
    }
}

/// The answer to `initialize`.
fn welcome(alloc: Global, id: &Value<'_>, encoding: Encoding) -> Result<Vec<u8>, AllocError>
    requires { HasNumbers (value_view id.now) }
    ensures { IfOk result (λ content. content.items ≡ print (json_tokens (response_of (value_view id.now) (initialized encoding)))) }
{
    let mut writer = Writer::new(Vec::new(alloc));
    begin_response(&mut writer, id)?;
    write_initialized(&mut writer, encoding)?;
    writer.end_object()?;
    Ok(writer.into_inner())
}

/// The error about settings.
fn refusal(alloc: Global, id: &Value<'_>, said: &[u8]) -> Result<Vec<u8>, AllocError>
    requires { HasNumbers (value_view id.now) }
    ensures { IfOk result (λ content. content.items
        ≡ print (json_tokens (error_of (Some (value_view id.now)) InvalidParams (told_text said.now)))) }
{
    let text = told(alloc, said)?;
    error_response(alloc, Some(id), ErrorCode::InvalidParams, &text)
}

impl Server {
    /// Begins by parameters.
    fn begin_with(
        &mut self,
        alloc: Global,
        id: &Value<'_>,
        params: &Value<'_>,
    ) -> Result<Vec<u8>, AllocError>
        requires { HasNumbers (value_view id.now) }
        ensures { IfOk result (λ content. Gives (begun_with self.old (value_view id.now) (value_view params.now)
            (settings_asked (options_of (value_view params.now)))) self.new content.items) }
    {
        match settings_asked(alloc, params) {
            Ok(settings) => {
                let encoding = encoding_of(params);
                let content = welcome(alloc, id, encoding)?;
                self.phase = Phase::Running;
                self.encoding = encoding;
                self.settings = settings;
                Ok(content)
            }
            Err(SettingsFault::Words(said)) => refusal(alloc, id, said.as_slice()),
            Err(SettingsFault::Memory) => Err(AllocError),
        }
    }

    /// Begins: the answer to `initialize`.
    #[tactic(auto, unfolding(crate::specs::Beginning::begun))]
    pub(crate) fn begin(
        &mut self,
        alloc: Global,
        id: &Value<'_>,
        params: Option<&Value<'_>>,
    ) -> Result<Vec<u8>, AllocError>
        requires { HasNumbers (value_view id.now) }
        ensures { IfOk result (λ content.
            Gives (begun self.old (value_view id.now) (option_map (λ p. value_view p.now) params.entry)) self.new content.items) }
    {
        match params {
            Some(params) => self.begin_with(alloc, id, params),
            None => error_for(alloc, Some(id), ErrorCode::InvalidParams),
        }
    }
}
