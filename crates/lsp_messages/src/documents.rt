//! The documents that are open.
ghost use Rattle.std.specs.Prelude.{◌≡◌, [], length, map, option_copied, true, IfOk, OnOk, OnErr};
ghost use Rattle.text_tables.specs.Texts.{AreOnce};
ghost use Rattle.text_tables.specs.Pairs.{names, value_of, with_value, without_name};
ghost use Rattle.lsp_messages.specs.Documents.{has_whole, may_be_held, text_after, with_document};

use crate::counting::Encoding;
use crate::edited::all_changed;
use crate::text_changes::Change;
use indexmap::IndexMap;
use std::alloc::{AllocError, Global};
use std::marker::Model;
use text_bytes::Bytes;

/// How many documents are held at most.
pub const MAX_DOCUMENTS: usize = 1024;

/// How many bytes the texts of all documents have at most: 64 MiB.
pub const MAX_BYTES: usize = 67_108_864;

/// A document that is open.
#[derive(Drop)]
pub enum Document {
    /// Its text is that of the editor.
    InStep {
        /// The version that the editor gave it, if it gave one.
        version: Option<u32>,
        /// The text.
        text: Bytes,
    },
    /// What the editor shows is not known: a change of it was not understood. No text of it is held.
    OutOfStep,
}

/// Whether one of the changes is a text in place of all.
fn has_whole(changes: &[Change<'_>]) -> bool
    ensures { result ≡ has_whole changes.now }
{
    changes.iter().any(|change| change.range().is_none())
}

impl Document {
    /// Its text after changes, one after another. Of a document that is out of step it is known again if one of them is a
    /// text in place of all.
    pub fn text_after(
        &self,
        alloc: Global,
        encoding: Encoding,
        changes: &[Change<'_>],
    ) -> Result<Option<Bytes>, AllocError>
        ensures { IfOk result (λ after. after ≡ text_after encoding self.now changes.now) }
    {
        match self {
            Document::InStep { text, .. } => {
                let text = all_changed(alloc, encoding, text.as_slice(), changes)?;
                Ok(Some(text))
            }
            Document::OutOfStep if has_whole(changes) => {
                Ok(Some(all_changed(alloc, encoding, b"", changes)?))
            }
            Document::OutOfStep => Ok(None),
        }
    }
}

/// Documents by their names, in the order in which they came.
#[derive(Drop)]
pub struct Documents {
    held: IndexMap<Vec<u8>, Document>,
}

impl Model for Documents {
    ghost use Rattle.std.specs.Prelude.{◌≡◌, List, map, true};
    ghost use Rattle.text_bytes.specs.Text.{Text};
    ghost use Rattle.lsp_messages.specs.declared.documents.Document.{Document};
    ghost use Rattle.lsp_messages.specs.Documents.{may_be_held};

    ghost Value = { List (Text × Document) };

    ghost view = { λ d. map (λ e. (e.0.items, e.1)) d.held.entries };

    ghost invariant = { λ d. may_be_held (map (λ e. (e.0.items, e.1)) d.held.entries) ≡ true };
}

/// Whether documents may be held.
fn may_be_held(held: &IndexMap<Vec<u8>, Document>) -> bool
    ensures { result ≡ may_be_held (map (λ e. (e.0.items, e.1)) held.now.entries) }
{
    if held.len() > MAX_DOCUMENTS {
        return false;
    }
    let mut left = MAX_BYTES;
    for document in held.values() {
        let size = match document {
            Document::InStep { text, .. } => text.as_slice().len(),
            Document::OutOfStep => 0,
        };
        if size > left {
            return false;
        }
        left -= size;
    }
    true
}

impl Documents {
    /// No documents.
    pub fn new(alloc: Global) -> Documents
        ensures { result ≡ [] }
    {
        Documents {
            held: IndexMap::new(alloc),
        }
    }

    /// How many documents there are. None is there twice, and there are never more documents or more bytes than the limits.
    pub fn len(&self) -> usize
        ensures count { result ≡ length self.now }
        ensures once { AreOnce (names self.now) }
        ensures bound { may_be_held self.now ≡ true }
    {
        self.held.len()
    }

    /// Returns the document of a name.
    pub fn get(&self, uri: &[u8]) -> Option<&Document>
        ensures { option_copied result ≡ value_of self.now uri.now }
    {
        self.held.get(uri)
    }

    /// Puts a document in the place of that of its name, or at the end, and returns true. If there would be more than
    /// `MAX_DOCUMENTS` documents, or more than `MAX_BYTES` bytes in all, it returns false, and no document of that name is
    /// held any more. If memory runs out, the documents stay as they are.
    pub fn put(&mut self, alloc: Global, uri: &[u8], document: Document) -> Result<bool, AllocError>
        ensures kept { IfOk result (λ kept. kept ≡ may_be_held (with_value self.old uri.now document)) }
        ensures documents { OnOk result (self.new ≡ with_document self.old uri.now document) }
        ensures refused { OnErr result (self.new ≡ self.old) }
    {
        let name = Vec::from_slice(alloc, uri)?;
        self.held.insert(name, document)?;
        if may_be_held(&self.held) {
            return Ok(true);
        }
        self.held.shift_remove(uri);
        Ok(false)
    }

    /// Takes the document of a name away, if there is one; the others keep their order.
    pub fn close(&mut self, uri: &[u8])
        ensures { self.new ≡ without_name self.old uri.now }
    {
        self.held.shift_remove(uri);
    }
}
