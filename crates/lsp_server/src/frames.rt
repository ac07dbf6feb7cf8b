//! Frames that are taken byte by byte.
ghost use Rattle.std.specs.Prelude.{◌≡◌, ◌<◌, ◌^◌, [], IfOk, OnErr};
ghost use Rattle.std.specs.Option.{ForSome};
ghost use Rattle.lsp_server.specs.Held.{held_in, start};
ghost use Rattle.lsp_server.specs.Items.{content_taken, headed, header_taken, passed, taken};

use crate::headers::{content_length, is_ended};
use std::alloc::{AllocError, Global};
use std::marker::Model;
use std::mem;
use text_bytes::Bytes;

/// The most bytes of a header part.
const MAX_HEADER: usize = 4096;

/// The most bytes of a content.
const MAX_CONTENT: usize = 16_777_216;

/// What a byte completes.
#[derive(Debug, Drop)]
pub enum Item {
    /// The content of a frame.
    Content(Bytes),
    /// A header part that gives no length, or that has not ended within 4,096 bytes.
    NoFrame,
    /// A header part that gives more than 16,777,216 bytes, which are passed over.
    TooLong,
}

/// What the next byte is part of.
#[derive(Clone, Copy, Debug, PartialEq, Eq)]
pub enum FramePart {
    /// Of a header part.
    Header,
    /// Of a content, of which so many bytes are still to come.
    Content(usize),
    /// Of a content that is too long, of which so many bytes are still to be passed over.
    Passing(usize),
}

/// Frames that are taken byte by byte, with what is held of the one that is not complete.
#[derive(Drop)]
pub struct Frames {
    part: FramePart,
    bytes: Vec<u8>,
}

impl Model for Frames {
    ghost use Rattle.lsp_server.specs.Held.{Held, held_in};

    ghost Value = { Held };

    ghost view = { λ f. held_in f.part f.bytes.items };
}

impl Frames {
    /// Nothing yet.
    pub fn new(alloc: Global) -> Frames
        ensures { result ≡ start }
    {
        Frames {
            part: FramePart::Header,
            bytes: Vec::new(alloc),
        }
    }

    /// Takes the next byte, and returns the item that it completes, if it completes one.
    ///
    /// If memory runs out, what is held stays as it was.
    pub fn take(&mut self, alloc: Global, byte: u8) -> Result<Option<Item>, AllocError>
        ensures ok { IfOk result (λ item. record { held = self.new; item = item } ≡ taken self.old byte) }
        ensures err { OnErr result (self.new ≡ self.old) }
    {
        match self.part {
            FramePart::Header => {
                self.bytes.push(byte)?;
                let (part, item) = header_taken(alloc, &mut self.bytes);
                self.part = part;
                Ok(item)
            }
            FramePart::Content(missing) => {
                self.bytes.push(byte)?;
                let (part, item) = content_taken(alloc, missing, &mut self.bytes);
                self.part = part;
                Ok(item)
            }
            FramePart::Passing(left) => {
                self.bytes.clear();
                self.part = passed(left);
                Ok(None)
            }
        }
    }
}

/// What comes after the bytes of a header part, and the item that they complete. If it has ended or is too long, they are removed.
fn header_taken(alloc: Global, header: &mut Vec<u8>) -> (FramePart, Option<Item>)
    ensures { record { held = held_in result.0 header.new.items; item = result.1 } ≡ header_taken header.old.items }
{
    if is_ended(header) {
        let found = content_length(header);
        header.clear();
        return headed(alloc, found);
    }
    if header.len() < MAX_HEADER {
        return (FramePart::Header, None);
    }
    header.clear();
    (FramePart::Header, Some(Item::NoFrame))
}

/// What comes after a header part, by the length that it gives, and the item that it completes.
fn headed(alloc: Global, found: Option<u64>) -> (FramePart, Option<Item>)
    requires { ForSome found (λ size. size < 2 ^ 32) }
    ensures { record { held = held_in result.0 []; item = result.1 } ≡ headed found }
{
    match found {
        None => (FramePart::Header, Some(Item::NoFrame)),
        Some(size) => sized(alloc, size as usize),
    }
}

/// What comes after a header part that gives so many bytes, and the item that it completes.
fn sized(alloc: Global, size: usize) -> (FramePart, Option<Item>)
    ensures { record { held = held_in result.0 []; item = result.1 } ≡ headed (Some size) }
{
    if size > MAX_CONTENT {
        (FramePart::Passing(size), Some(Item::TooLong))
    } else if size == 0 {
        (
            FramePart::Header,
            Some(Item::Content(Bytes::new(Vec::new(alloc)))),
        )
    } else {
        (FramePart::Content(size), None)
    }
}

/// What comes after the bytes of a content, of which so many were still to come before the last of them, and the item that they
/// complete. If the content is complete, they are removed.
fn content_taken(alloc: Global, missing: usize, content: &mut Vec<u8>) -> (FramePart, Option<Item>)
    ensures { record { held = held_in result.0 content.new.items; item = result.1 } ≡ content_taken missing content.old.items }
{
    if missing > 1 {
        return (FramePart::Content(missing - 1), None);
    }
    let whole = mem::replace(content, Vec::new(alloc));
    (FramePart::Header, Some(Item::Content(Bytes::new(whole))))
}

/// What comes after a byte that is passed over, by how many there were to pass over before it.
fn passed(left: usize) -> FramePart
    ensures { record { held = held_in result []; item = None } ≡ passed left }
{
    if left > 1 {
        FramePart::Passing(left - 1)
    } else {
        FramePart::Header
    }
}
