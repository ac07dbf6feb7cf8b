//! What is gathered.
ghost use Rattle.std.specs.Prelude.{◌≡◌, ◌++◌, IfOk, [], max};
ghost use Rattle.devdry_gathering.specs.Gathered.{IsBehind, IsEnded};
ghost use Rattle.devdry_gathering.specs.Reading.{Says};
ghost use Rattle.devdry_gathering.specs.Said.{waiting_if};
ghost use Rattle.devdry_gathering.specs.declared.gathered.Ended.TheVariants.{Memory};

use builtin_devices::RootFiles;
use devdry_folders::Report;
use engine_sessions::Line;
use std::alloc::{AllocError, Global};
use text_bytes::{Bytes, SourceFile};

/// What is reported before event blocks are read from a terminal.
const WAITING: &[u8] =
    b"devdry: waiting for event blocks, each ended by an empty line; devdry-capture DEVICE prints them\n";

/// A line, and what it is run over.
#[derive(Drop)]
pub struct Inputs<'a> {
    /// The line.
    pub line: Line<'a>,
    /// The files that were read for it, in the order of reading.
    pub files: Vec<SourceFile>,
    /// The bytes of the index, if the line names one and it was read.
    pub index: Option<Bytes>,
    /// What was found at the paths of the root that rules import.
    pub found: RootFiles,
}

/// What is left to do.
#[derive(Drop)]
pub enum Work<'a> {
    /// Nothing: what is reported says why.
    Nothing,
    /// To write a text to the output.
    Tell(Bytes),
    /// To check these `.link` files and drop-ins.
    CheckLinks(Line<'a>, Vec<SourceFile>),
    /// To run a line.
    Answer(Inputs<'a>),
    /// To compare the answers of two lines, the old one and the new one. The index is that of the new one.
    Compare(Inputs<'a>, Inputs<'a>),
}

/// All that a run takes but its streams.
#[derive(Drop)]
pub struct Gathered<'a> {
    /// What is left to do.
    pub work: Work<'a>,
    /// What is reported before that, and the least status of the run.
    pub report: Report,
}

/// Why a reading ended.
#[derive(Drop)]
pub enum Ended {
    /// Something can't be used, and nothing is run: what is reported, and the status.
    Said(Report),
    /// Memory ran out.
    Memory,
}

impl From<AllocError> for Ended {
    ghost from_gives = { λ _ ended. ended ≡ Memory };

    fn from(_error: AllocError) -> Ended {
        Ended::Memory
    }
}

/// A report of nothing.
pub(crate) fn nothing(alloc: Global) -> Report
    ensures { Says [] 0 result }
{
    Report {
        lines: Vec::new(alloc),
        least: 0,
    }
}

/// What is gathered where nothing is left to do: what is said, with a status.
pub(crate) fn refusing<'a>(said: Vec<u8>, status: u8) -> Gathered<'a>
    ensures { IsEnded (Says said.items status) result }
{
    Gathered {
        work: Work::Nothing,
        report: Report {
            lines: said,
            least: status,
        },
    }
}

/// Two reports, one after the other, as one.
pub(crate) fn joined(mut one: Report, mut other: Report) -> Result<Report, AllocError>
    ensures { IfOk result (Says (one.lines.items ++ other.lines.items) (max one.least other.least)) }
{
    one.lines.append(&mut other.lines)?;
    one.least = one.least.max(other.least);
    Ok(one)
}

/// The line on waiting for event blocks, if a run waits for them.
fn waiting_if(waits: bool) -> &'static [u8]
    ensures { result.now ≡ waiting_if waits }
{
    if waits { WAITING } else { b"" }
}

/// What was gathered, behind what is reported first: a report, and then the line on waiting for event blocks if the run
/// waits for them.
pub(crate) fn behind<'a>(
    mut first: Report,
    waits: bool,
    own: Gathered<'a>,
) -> Result<Gathered<'a>, AllocError>
    ensures { IfOk result (IsBehind first.lines.items first.least waits own.entry) }
{
    first.lines.extend_from_slice(waiting_if(waits))?;
    let Gathered { work, report } = own;
    Ok(Gathered {
        work,
        report: joined(first, report)?,
    })
}
