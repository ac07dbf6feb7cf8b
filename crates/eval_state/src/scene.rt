//! All that is collected while rules run.
ghost use Rattle.std.specs.Prelude.{◌≡◌, OnOk, OnErr, IfOk, option_map};
ghost use Rattle.eval_state.specs.Notes.{word_of_key};
ghost use Rattle.eval_state.specs.Scenes.{blank, noted, noted_key, start};
ghost use Rattle.eval_state.specs.declared.note_kind.NoteKind.TheVariants.{TextTooLong};

use crate::finals::Finals;
use crate::labels::Labels;
use crate::made_runs::MadeRuns;
use crate::note_kind::NoteKind;
use crate::notes::{Note, Notes, word_of_key};
use crate::ran::Ran;
use crate::runs::Runs;
use crate::state::State;
use device_core::Event;
use rule_types::{Key, Rule};
use std::alloc::{AllocError, Global};
use text_bytes::Bytes;
use text_tables::{CowPairs, OwnedTexts};

/// The outcome of an event so far.
#[derive(Drop)]
pub struct Scene<'a> {
    /// What is known about the event, which later rules look at.
    pub state: State<'a>,
    /// The owner of the device's node, as it was written.
    pub owner: Option<Bytes>,
    /// The group of the device's node, as it was written.
    pub group: Option<Bytes>,
    /// The mode of the device's node, as it was written.
    pub mode: Option<Bytes>,
    /// The priority of this device's links over those of others (`link_priority`).
    pub priority: Option<i32>,
    /// Whether the device's node is watched (`watch`, `nowatch`).
    pub watch: Option<bool>,
    /// Whether what is known about the device stays in udev's database (`db_persist`).
    pub persist: bool,
    /// For udev alone: the tags that were removed, which matches of tags still find.
    pub gone: OwnedTexts,
    /// Labels of security modules: by the manual one for each, for udev as many as were set.
    pub labels: Labels,
    /// Attributes to be written.
    pub attrs: CowPairs<'a>,
    /// Kernel parameters to be written.
    pub sysctls: CowPairs<'a>,
    /// What is to be run, as it was written.
    pub runs: Runs<'a>,
    /// For udev alone: what is to be run, rendered at its rule.
    pub made: MadeRuns<'a>,
    /// What was not done.
    pub notes: Notes,
    /// The keys that no longer change.
    pub finals: Finals,
    /// For udev alone: the builtins that run once for an event, with whether each succeeded.
    pub ran: Ran,
}

impl<'a> Scene<'a> {
    /// The outcome of an event before any rule has run: its state as it begins, and nothing collected.
    pub fn new(alloc: Global, event: &'a Event<'_>) -> Result<Scene<'a>, AllocError>
        ensures { IfOk result (λ scene. scene ≡ start event.now) }
    {
        Ok(Scene {
            state: State::new(alloc, event)?,
            owner: None,
            group: None,
            mode: None,
            priority: None,
            watch: None,
            persist: false,
            gone: OwnedTexts::new(alloc),
            labels: Labels::new(alloc),
            attrs: CowPairs::new(alloc),
            sysctls: CowPairs::new(alloc),
            runs: Runs::new(alloc),
            made: MadeRuns::new(alloc),
            notes: Notes::new(alloc),
            finals: Finals::none(),
            ran: Ran::none(),
        })
    }

    /// Forgets all but the event itself: called when memory ran out, so that nothing half done is taken for the
    /// outcome of the event.
    pub fn clear(&mut self, alloc: Global)
        ensures { self.new ≡ blank self.old.state.event }
    {
        self.state.clear(alloc);
        self.owner = None;
        self.group = None;
        self.mode = None;
        self.priority = None;
        self.watch = None;
        self.persist = false;
        self.gone.clear();
        self.labels.clear();
        self.attrs.clear();
        self.sysctls.clear();
        self.runs.clear();
        self.made.clear();
        self.notes = Notes::new(alloc);
        self.finals = Finals::none();
        self.ran = Ran::none();
    }

    /// Leaves a note that something in a rule was not done, reported with a text. If memory runs
    /// out, the scene stays as it is.
    pub fn note(
        &mut self,
        alloc: Global,
        rule: &Rule,
        kind: NoteKind,
        text: &[u8],
    ) -> Result<(), AllocError>
        ensures scene { OnOk result (self.new ≡ noted rule.now kind text.now self.old) }
        ensures refused { OnErr result (self.new ≡ self.old) }
    {
        self.notes.add(Note::about(alloc, rule, kind, text)?)
    }

    /// Leaves a note that names a key, with its attribute if it has one. If memory runs out, the scene stays as it
    /// is.
    pub fn note_key(
        &mut self,
        alloc: Global,
        rule: &Rule,
        kind: NoteKind,
        key: Key,
        attribute: Option<&[u8]>,
    ) -> Result<(), AllocError>
        ensures scene { OnOk result (self.new ≡ noted_key rule.now kind key (option_map (λ text. text.now) attribute.entry) self.old) }
        ensures refused { OnErr result (self.new ≡ self.old) }
    {
        let word = word_of_key(alloc, key, attribute)?;
        self.note(alloc, rule, kind, &word)
    }

    /// Leaves a note that a text for a key was too long; the note names the key, with its attribute if
    /// it has one. If memory runs out, the scene stays as it is.
    pub fn note_too_long(
        &mut self,
        alloc: Global,
        rule: &Rule,
        key: Key,
        attribute: Option<&[u8]>,
    ) -> Result<(), AllocError>
        ensures scene { OnOk result (self.new ≡ noted rule.now TextTooLong (word_of_key key (option_map (λ text. text.now) attribute.entry)) self.old) }
        ensures refused { OnErr result (self.new ≡ self.old) }
    {
        self.note_key(alloc, rule, NoteKind::TextTooLong, key, attribute)
    }
}
