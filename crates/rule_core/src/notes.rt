//! What is kept of the lines of a file when each was read: what becomes of its jump and of its label, and whether
//! there is anything to say about it.
//!
//! A line takes some bytes here, whatever its rule has. One about which there is something to say is read again.
ghost use Rattle.std.specs.Prelude.{◌≡◌, ◌∷◌, Bool, true, List, map, flat_map, sum_by, IfOk, OnOk};
ghost use Rattle.std.specs.List.{count_by};
ghost use Rattle.rule_types.specs.Jumps.{landings};
ghost use Rattle.rule_core.specs.Counts.{line_tokens, token_count};
ghost use Rattle.rule_core.specs.Drafts.{draft_of};
ghost use Rattle.rule_core.specs.Notes.{AreSilent, has_names, is_silent, nowhere, some_names, spread, with_outline};
ghost use Rattle.rule_core.specs.Rules.{landed, names_of, reading_of};

use crate::counts::draft_tokens;
use crate::draft::Draft;
use crate::joined::JoinedLine;
use crate::names::NamePlace;
use crate::readings::{borrowed, read_line};
use crate::sums::sum_of;
use file_messages::MessageKind;
use rule_types::{Jump, Landing, Spot, landings};
use std::alloc::{AllocError, Global};
use std::marker::Model;
use text_bytes::Profile;

/// What becomes of a line's jump and label if it has none.
pub(crate) const NOWHERE: Landing = Landing {
    lost: false,
    unused: false,
};

/// What is kept of the lines of a file, in their order.
#[derive(Drop)]
pub struct LineNotes {
    /// What becomes of the jump and of the label of each.
    pub landings: Vec<Landing>,
    /// Of each, whether it is a rule without names for jumps about which nothing is found.
    pub silent: Vec<bool>,
    /// How many tokens are left in their rules.
    pub tokens: usize,
}

/// The names for jumps of a rule that has some.
#[derive(Drop)]
struct GivenNames {
    label: Option<NamePlace>,
    goto: Option<NamePlace>,
}

impl Model for GivenNames {
    ghost use Rattle.rule_types.specs.Jumps.{Names};
    ghost use Rattle.rule_core.specs.Rules.{name_of};

    ghost Value = { Names };

    ghost view = { λ n. record { label = name_of n.label; goto = name_of n.goto } };
}

/// What is kept of lines before it is known where their jumps lead.
#[derive(Drop)]
struct Outlines {
    /// The names of those that have some.
    names: Vec<GivenNames>,
    /// Of each, whether it has some.
    named: Vec<bool>,
    /// Of each, whether it has none and nothing is found about it.
    silent: Vec<bool>,
    /// How many tokens are left in their rules if no jump is lost.
    tokens: usize,
}

impl Model for Outlines {
    ghost use Rattle.rule_core.specs.Notes as notes;

    ghost Value = { notes.Outlines };

    ghost view = { λ o. record { names = o.names.items; named = o.named.items; silent = o.silent.items; tokens = o.tokens } };
}

impl Outlines {
    /// Takes one more line, which was read.
    fn take(&mut self, read: Result<Draft<'_>, Spot<MessageKind>>) -> Result<(), AllocError>
        ensures { OnOk result (self.new ≡ with_outline self.old read.entry) }
    {
        match read {
            Ok(draft) => {
                let tokens = draft_tokens(&draft, NOWHERE)?;
                let Draft {
                    label,
                    goto,
                    parts,
                    findings,
                } = draft;
                drop(parts);
                let named = label.is_some() || goto.is_some();
                self.named.push(named)?;
                self.silent.push(!named && findings.is_empty())?;
                drop(findings);
                self.tokens = sum_of(self.tokens, tokens)?;
                if named {
                    self.names.push(GivenNames { label, goto })?;
                }
                Ok(())
            }
            Err(wrong) => {
                drop(wrong);
                self.named.push(false)?;
                self.silent.push(false)?;
                Ok(())
            }
        }
    }
}

/// Reads the joined lines of a file as rules, and keeps what is to be known of each when it is read again.
pub fn note_lines(
    alloc: Global,
    profile: Profile,
    lines: &[JoinedLine<'_>],
) -> Result<LineNotes, AllocError>
    ensures landings { IfOk result (λ n. n.landings.items ≡ landings (map (λ r. names_of r.read) (map (reading_of profile) lines.now))) }
    ensures silent { IfOk result (λ n. AreSilent n.silent.items (landed (map (reading_of profile) lines.now))) }
    ensures tokens { IfOk result (λ n. n.tokens ≡ token_count (landed (map (reading_of profile) lines.now))) }
{
    let Outlines {
        names,
        named,
        silent,
        tokens,
    } = read_outlines(alloc, profile, lines)?;
    let landings = spread(alloc, &named, &landings_of(alloc, &names)?)?;
    let tokens = tokens.saturating_sub(lost_count(&landings));
    Ok(LineNotes {
        landings,
        silent,
        tokens,
    })
}

/// What is kept of lines.
fn read_outlines(
    alloc: Global,
    profile: Profile,
    lines: &[JoinedLine<'_>],
) -> Result<Outlines, AllocError>
    ensures names { IfOk result (λ o. o.names ≡ flat_map (λ l. some_names (names_of (draft_of profile l.text))) lines.now) }
    ensures named { IfOk result (λ o. o.named ≡ map (λ l. has_names (names_of (draft_of profile l.text))) lines.now) }
    ensures silent { IfOk result (λ o. o.silent ≡ map (λ l. is_silent (draft_of profile l.text)) lines.now) }
    ensures tokens { IfOk result (λ o. o.tokens ≡ sum_by (λ l. line_tokens (draft_of profile l.text) nowhere) lines.now) }
{
    let mut outlines = Outlines {
        names: Vec::new(alloc),
        named: Vec::new(alloc),
        silent: Vec::new(alloc),
        tokens: 0,
    };
    for line in lines {
        let reading = read_line(alloc, profile, line)?;
        outlines.take(reading.read)?;
    }
    Ok(outlines)
}

/// What becomes of the jumps of rules with these names.
fn landings_of(alloc: Global, names: &[GivenNames]) -> Result<Vec<Landing>, AllocError>
    ensures { IfOk result (λ found. found.items ≡ landings names.now) }
{
    let mut jumps = Vec::with_capacity(alloc, names.len())?;
    for given in names {
        jumps.push(Jump::new(borrowed(&given.label), borrowed(&given.goto)))?;
    }
    landings(alloc, &jumps)
}

/// What becomes of the jumps of lines, of which each is told whether it has names, given those of the lines that have
/// some.
fn spread(alloc: Global, named: &[bool], given: &[Landing]) -> Result<Vec<Landing>, AllocError>
    ensures { IfOk result (λ landings. landings.items ≡ spread named.now given.now) }
{
    let mut landings = Vec::with_capacity(alloc, named.len())?;
    let mut rest = given;
    for has_names in named {
        let (landing, left) = if *has_names {
            first_landing(rest)
        } else {
            (NOWHERE, rest)
        };
        landings.push(landing)?;
        rest = left;
    }
    Ok(landings)
}

/// The first of what there is, and the others.
pub(crate) fn first_landing(given: &[Landing]) -> (Landing, &[Landing])
    ensures { (named : List Bool) → spread (true ∷ named) given.now ≡ result.0 ∷ spread named result.1.now }
{
    match given.split_first() {
        None => (NOWHERE, given),
        Some((first, others)) => (*first, others),
    }
}

/// How many jumps are lost.
fn lost_count(landings: &[Landing]) -> usize
    ensures { result ≡ count_by (λ l. l.lost) landings.now }
{
    landings.iter().filter(|landing| landing.lost).count()
}
