//! What was read so far: entries and messages, and how much of them there is.
//!
//! Nothing is kept that exceeds a bound, so that the bounds hold for each value here. If just one modalias is asked
//! for, entries that it does not fit are counted but not kept.

ghost use Rattle.std.specs.Prelude.{◌≡◌, ◌≤◌, ◌<◌, ◌+◌, ◌⊎◌, ◌∷◌, [], IfOk, OnOk, OnErr};
ghost use Rattle.trie_nodes.specs.Bounds.{max_entries, max_text_bytes};
ghost use Rattle.text_bytes.specs.Numbers.{capped};
ghost use Rattle.file_messages.specs.Messages.{message};
ghost use Rattle.hwdb_core.specs.Ruling.{passes_over};
ghost use Rattle.hwdb_core.specs.Found.{Adds, IsKept, begun, counts, one_more, only_messages, with_entry};

use crate::fault::HwdbFault;
use crate::paragraph::Pair;
use crate::ruling::is_ruled_out;
use file_messages::{Message, MessageKind};
use std::alloc::{AllocError, Global};
use std::marker::Model;
use text_bytes::{Bytes, capped};
use text_core::PackedPattern;
use trie_nodes::{Entry, MAX_ENTRIES, MAX_MATCH_BYTES, MAX_TEXT_BYTES, SharedBytes};

/// Entries and messages, in order.
#[derive(Drop)]
pub(crate) struct Gathered {
    wanted: Option<Bytes>,
    entries: Vec<Entry>,
    count: usize,
    match_bytes: usize,
    text_bytes: usize,
    messages: Vec<Message>,
}

impl Model for Gathered {
    ghost use Rattle.std.specs.Prelude.{◌≤◌};
    ghost use Rattle.trie_nodes.specs.Bounds.{max_entries, max_match_bytes, max_text_bytes};
    ghost use Rattle.hwdb_core.specs.Found.{Held};

    ghost Value = { Held };

    ghost view = { λ g. record {
      wanted = g.wanted;
      entries = g.entries.items;
      count = g.count;
      match_bytes = g.match_bytes;
      text_bytes = g.text_bytes;
      messages = g.messages.items;
    } };

    ghost invariant = { λ g. (g.count ≤ max_entries) × (g.match_bytes ≤ max_match_bytes) × (g.text_bytes ≤ max_text_bytes) };
}

impl Gathered {
    /// Nothing so far; the entries that count are those that the modalias fits, or all if there is none.
    pub fn new(alloc: Global, wanted: Option<Bytes>) -> Gathered
        ensures { result ≡ begun wanted }
    {
        Gathered {
            wanted,
            entries: Vec::new(alloc),
            count: 0,
            match_bytes: 0,
            text_bytes: 0,
            messages: Vec::new(alloc),
        }
    }

    /// Whether entries of a pattern count.
    fn counts(&self, pattern: &PackedPattern) -> bool
        ensures { result ≡ counts self.now.wanted pattern.now }
    {
        match &self.wanted {
            Some(modalias) => pattern.fits(modalias.as_slice()),
            None => true,
        }
    }

    /// Whether a match is known, before it is read, to be a pattern whose entries do not count.
    pub fn passes_over(&self, text: &[u8]) -> bool
        ensures { result ≡ passes_over self.now.wanted text.now }
    {
        match &self.wanted {
            Some(modalias) => is_ruled_out(modalias.as_slice(), text),
            None => false,
        }
    }

    /// Adds a message about a line of a file.
    pub fn report(
        &mut self,
        alloc: Global,
        file: &[u8],
        number: usize,
        kind: MessageKind,
        word: &[u8],
    ) -> Result<(), HwdbFault>
        ensures { Adds self.old self.new (only_messages (message file.now number kind word.now ∷ [])) result }
    {
        self.messages
            .push(Message::about(alloc, file, number, kind, word)?)?;
        Ok(())
    }

    /// Counts a match that gives an entry.
    pub fn count_match(&mut self, len: usize) -> Result<(), HwdbFault>
        ensures { Adds self.old self.new (record { properties = []; messages = []; match_bytes = len }) result }
    {
        if len > MAX_MATCH_BYTES - self.match_bytes {
            return Err(HwdbFault::TooMany);
        }
        self.match_bytes += len;
        Ok(())
    }

    /// Counts an entry, whose key and value together have so many bytes.
    pub fn count_entry(&mut self, len: usize) -> Result<(), HwdbFault>
        ensures counted { OnOk result (self.new ≡ one_more len self.old) }
        ensures too_many { OnErr result ((max_entries ≤ self.old.count) ⊎ (max_text_bytes < self.old.text_bytes + len)) }
    {
        if self.count >= MAX_ENTRIES {
            return Err(HwdbFault::TooMany);
        }
        if len > MAX_TEXT_BYTES - self.text_bytes {
            return Err(HwdbFault::TooMany);
        }
        self.count += 1;
        self.text_bytes += len;
        Ok(())
    }

    /// Adds an entry to those that are kept.
    fn keep(&mut self, entry: Entry) -> Result<(), AllocError>
        ensures { OnOk result (self.new ≡ with_entry entry self.old) }
    {
        self.entries.push(entry)?;
        Ok(())
    }

    /// A key, shared with the last entry if that has the same.
    fn key_of(&self, alloc: Global, key: &[u8]) -> Result<SharedBytes, AllocError>
        ensures { IfOk result (λ b. b ≡ key.now) }
    {
        match self.entries.last() {
            Some(last) if last.key.as_slice() == key => last.key.share(),
            _ => SharedBytes::copy_of(alloc, key),
        }
    }

    /// The name of a file, shared with the last entry if that is of the same file.
    fn file_of(&self, alloc: Global, file: &[u8]) -> Result<SharedBytes, AllocError>
        ensures { IfOk result (λ b. b ≡ file.now) }
    {
        match self.entries.last() {
            Some(last) if last.file.as_slice() == file => last.file.share(),
            _ => SharedBytes::copy_of(alloc, file),
        }
    }

    /// Adds an entry, which takes the pattern, unless it does not count.
    pub fn add_entry(
        &mut self,
        alloc: Global,
        file: &[u8],
        pattern: PackedPattern,
        number: usize,
        pair: &Pair<'_>,
    ) -> Result<(), HwdbFault>
        ensures { Adds self.old self.new (record {
          properties = record {
            pattern = pattern;
            key = pair.now.key.now;
            value = pair.now.value.now;
            file = file.now;
            line = capped number;
          } ∷ [];
          messages = [];
          match_bytes = 0;
        }) result }
    {
        let order = self.count;
        self.count_entry(pair.key.len() + pair.value.len())?;
        if !self.counts(&pattern) {
            return Ok(());
        }
        let entry = Entry {
            pattern,
            key: self.key_of(alloc, pair.key)?,
            value: Bytes::copy_of(alloc, pair.value)?,
            order: order as u32,
            file: self.file_of(alloc, file)?,
            line: capped(number),
        };
        self.keep(entry)?;
        Ok(())
    }

    /// The entries and the messages.
    pub fn into_lists(self) -> (Vec<Entry>, Vec<Message>)
        ensures entries { result.0.items ≡ self.entries }
        ensures messages { result.1.items ≡ self.messages }
        ensures kept { IsKept self }
    {
        let Gathered {
            wanted: _,
            entries,
            count: _,
            match_bytes: _,
            text_bytes: _,
            messages,
        } = self;
        (entries, messages)
    }
}
