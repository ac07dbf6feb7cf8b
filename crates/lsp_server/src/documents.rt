//! Documents that are opened, changed and closed.
ghost use Rattle.std.specs.Prelude.{◌≡◌, IfOk, None, Some, map, option_map};
ghost use Rattle.json.specs.Value.{value_view};
ghost use Rattle.lsp_messages.specs.Changes.{changes_of};
ghost use Rattle.lsp_messages.specs.Parameters.{opened_of, uri_of, version_of};
ghost use Rattle.lsp_server.specs.Documents.{changed, changed_by, closed, lost, opened, taken};
ghost use Rattle.lsp_server.specs.Given.{Gives, GivesSome};
ghost use Rattle.text_tables.specs.Pairs.{value_of};

use crate::publishing::{Reason, not_held, published, unpublished};
use crate::server::Server;
use json::Value;
use lsp_messages::{Change, Document, changes_of, opened_of, uri_of, version_of};
use std::alloc::{AllocError, Global};
use text_bytes::Bytes;

impl Server {
    /// Takes the text of a document, in the place of that of its URI or as the last one.
    fn take(
        &mut self,
        alloc: Global,
        uri: &[u8],
        version: Option<u32>,
        text: Bytes,
    ) -> Result<Vec<u8>, AllocError>
        ensures { IfOk result (λ content. Gives (taken self.old uri.now version text) self.new content.items) }
    {
        let content = published(alloc, self, uri, version, text.as_slice())?;
        let document = Document::InStep { version, text };
        if self.documents.put(alloc, uri, document)? {
            Ok(content)
        } else {
            not_held(alloc, uri, Reason::TooMuch)
        }
    }

    /// What is said about a document is not understood: if it is open, it is out of step, and its text is let go.
    fn lose(&mut self, alloc: Global, uri: &[u8]) -> Result<Option<Vec<u8>>, AllocError>
        ensures { IfOk result (λ content. GivesSome (lost self.old uri.now (value_of self.old.documents uri.now)) self.new
            (option_map (λ c. c.items) content)) }
    {
        if self.documents.get(uri).is_none() {
            return Ok(None);
        }
        let content = not_held(alloc, uri, Reason::OutOfStep)?;
        self.documents.put(alloc, uri, Document::OutOfStep)?;
        Ok(Some(content))
    }

    /// A document is opened.
    pub(crate) fn open(
        &mut self,
        alloc: Global,
        params: &Value<'_>,
    ) -> Result<Option<Vec<u8>>, AllocError>
        ensures { IfOk result (λ content. GivesSome (opened self.old (opened_of (value_view params.now)) (uri_of (value_view params.now))) self.new
            (option_map (λ c. c.items) content)) }
    {
        match opened_of(params) {
            None => match uri_of(params) {
                None => Ok(None),
                Some(uri) => self.lose(alloc, uri.as_bytes()),
            },
            Some(opened) => {
                let text = Bytes::copy_of(alloc, opened.text.as_bytes())?;
                let uri = opened.uri.as_bytes();
                Ok(Some(self.take(alloc, uri, opened.version, text)?))
            }
        }
    }

    /// A document is changed, if it is open and its text is known then.
    fn change_by(
        &mut self,
        alloc: Global,
        uri: &[u8],
        version: Option<u32>,
        changes: &[Change<'_>],
    ) -> Result<Option<Vec<u8>>, AllocError>
        ensures { IfOk result (λ content. GivesSome (changed_by self.old uri.now version changes.now (value_of self.old.documents uri.now)) self.new
            (option_map (λ c. c.items) content)) }
    {
        let text = match self.documents.get(uri) {
            None => return Ok(None),
            Some(document) => document.text_after(alloc, self.encoding, changes)?,
        };
        match text {
            None => Ok(None),
            Some(text) => Ok(Some(self.take(alloc, uri, version, text)?)),
        }
    }

    /// A document is changed.
    pub(crate) fn change(
        &mut self,
        alloc: Global,
        params: &Value<'_>,
    ) -> Result<Option<Vec<u8>>, AllocError>
        ensures { IfOk result (λ content. GivesSome
            (changed self.old (uri_of (value_view params.now)) (version_of (value_view params.now)) (changes_of (value_view params.now))) self.new
            (option_map (λ c. c.items) content)) }
    {
        match uri_of(params) {
            None => Ok(None),
            Some(uri) => match changes_of(alloc, params)? {
                None => self.lose(alloc, uri.as_bytes()),
                Some(changes) => {
                    self.change_by(alloc, uri.as_bytes(), version_of(params), &changes)
                }
            },
        }
    }

    /// A document is closed.
    pub(crate) fn close(
        &mut self,
        alloc: Global,
        params: &Value<'_>,
    ) -> Result<Option<Vec<u8>>, AllocError>
        ensures { IfOk result (λ content. GivesSome (closed self.old (uri_of (value_view params.now))) self.new (option_map (λ c. c.items) content)) }
    {
        match uri_of(params) {
            None => Ok(None),
            Some(uri) => {
                let content = unpublished(alloc, uri.as_bytes())?;
                self.documents.close(uri.as_bytes());
                Ok(Some(content))
            }
        }
    }
}
