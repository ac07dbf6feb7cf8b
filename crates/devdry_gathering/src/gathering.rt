//! Gathers all that words ask for.
ghost use Rattle.std.specs.Prelude.{◌≡◌, ◌⊎◌, IfErr, IfOk, false, map, string_bytes, true};
ghost use Rattle.devdry_gathering.specs.Ended.{IsLeftBy, IsMadeOf};
ghost use Rattle.devdry_gathering.specs.Gathered.{IsEnded};
ghost use Rattle.devdry_gathering.specs.Gathers.{Answers, ChecksLinks, Compares, GathersBoth, GathersFiles, GathersKnown};
ghost use Rattle.devdry_gathering.specs.Gathers.{GathersAsked, GathersLine, GathersRequest, GathersRun, ReadsNamed, RefusesWords, names_input, takes_input};
ghost use Rattle.devdry_gathering.specs.Reading.{IsOneUnread, IsRead};

use crate::gathered::{Ended, Gathered, Inputs, Work, behind, joined, nothing, refusing};
use crate::links::{find_files, read_links};
use crate::notes::notes_on;
use crate::reading::{read, read_both};
use crate::said::{cannot_read, said_of_words};
use crate::terminals::{Terminals, has_colors, shown_format};
use devdry_files::{Disk, InputDisk, InputFault, ReadFault, read_account_files, read_whole};
use devdry_folders::{Listed, ReadSome, Report, list_files};
use devdry_links::{LinksToCheck, is_events, read_links_to_check};
use devdry_words::parse_line;
use engine_formats::{masked, shown_in};
use engine_sessions::{Line, LineFault, Request, Source};
use std::alloc::{AllocError, Global};
use text_bytes::{Bytes, SourceFile};
use text_tables::is_name_among;

const READ_FAILED: &[u8] = b"devdry: read failed\n";

/// The words are not understood.
const USAGE: u8 = 2;

/// A file or the input failed.
const FAILED: u8 = 3;

/// A line with what was read for it, and with what is found at the paths that its rules import.
fn inputs<'a, D: Disk>(
    alloc: Global,
    disk: &D,
    line: Line<'a>,
    files: Vec<SourceFile>,
    index: Option<Bytes>,
) -> Result<Inputs<'a>, AllocError>
    ensures { IfOk result (IsMadeOf (D.may_answer disk.now) line.entry files.items index) }
{
    let found = find_files(alloc, disk, &line, &files)?;
    Ok(Inputs {
        line,
        files,
        index,
        found,
    })
}

/// What is gathered for a line for which this was read.
fn answer<'a, D: Disk>(
    alloc: Global,
    disk: &D,
    line: Line<'a>,
    read: ReadSome,
) -> Result<Gathered<'a>, AllocError>
    requires { IsRead (D.may_answer disk.now) true false line read }
    ensures { IfOk result (Answers (D.may_answer disk.now) line.entry) }
{
    let ReadSome {
        files,
        index,
        report,
    } = read;
    let mut notes = notes_on(alloc, disk, &line, &files)?;
    let mut lines = shown_in(line.format, report.lines);
    lines.append(&mut notes)?;
    Ok(Gathered {
        work: Work::Answer(inputs(alloc, disk, line, files, index)?),
        report: Report {
            lines,
            least: report.least,
        },
    })
}

/// The `.link` files that a line checks.
fn check<'a, D: Disk>(alloc: Global, disk: &D, line: Line<'a>) -> Result<Gathered<'a>, AllocError>
    ensures { IfOk result (ChecksLinks (D.may_answer disk.now) line.entry) }
{
    let LinksToCheck { files, report } = read_links_to_check(alloc, disk, &line)?;
    let lines = shown_in(line.format, report.lines);
    Ok(Gathered {
        work: Work::CheckLinks(line, files),
        report: Report {
            lines,
            least: report.least,
        },
    })
}

/// Reads the files and the index that a line asks for, or `.link` files if it checks these.
fn gather_files<'a, D: Disk>(
    alloc: Global,
    disk: &D,
    line: Line<'a>,
) -> Result<Gathered<'a>, AllocError>
    ensures { IfOk result (GathersFiles (D.may_answer disk.now) line.entry) }
{
    if line.checks_links {
        return check(alloc, disk, line);
    }
    match read(alloc, disk, true, &line) {
        Ok(read) => answer(alloc, disk, line, read),
        Err(Ended::Said(report)) => Ok(Gathered {
            work: Work::Nothing,
            report,
        }),
        Err(Ended::Memory) => Err(AllocError),
    }
}

/// Reads the `.link` files that a line names interfaces by, and then all others.
fn gather_line<'a, D: Disk>(
    alloc: Global,
    disk: &D,
    mut line: Line<'a>,
    from_terminal: bool,
) -> Result<Gathered<'a>, AllocError>
    ensures { IfOk result (GathersLine (D.may_answer disk.now) from_terminal line.entry) }
{
    let waits = from_terminal & is_events(line.verb);
    let links = read_links(alloc, disk, &mut line)?;
    let own = gather_files(alloc, disk, line)?;
    behind(links, waits, own)
}

/// Reads the files of users and groups that a line names, and then all others.
fn gather_known<'a, D: Disk>(
    alloc: Global,
    disk: &D,
    mut line: Line<'a>,
    from_terminal: bool,
) -> Result<Gathered<'a>, AllocError>
    ensures { IfOk result (GathersKnown (D.may_answer disk.now) from_terminal line.entry) }
{
    match read_account_files(alloc, disk, &mut line) {
        Ok(()) => gather_line(alloc, disk, line, from_terminal),
        Err(ReadFault::Path(path)) => {
            let said = cannot_read(alloc, &masked(path.into_bytes()))?;
            Ok(refusing(said, FAILED))
        }
        Err(ReadFault::Memory) => Err(AllocError),
    }
}

/// Gathers what a line asks for. If it names the standard input as a file, the input is read whole first, and is that file.
fn gather_run<'a, D: Disk, I: Source>(
    alloc: Global,
    disk: &D,
    line: Line<'a>,
    from_terminal: bool,
    input: &mut I,
) -> Result<Gathered<'a>, AllocError>
    ensures gathered { IfOk result (λ g. GathersRun (D.may_answer disk.now) from_terminal line.entry (I.shown input.old) g (I.shown input.new)) }
    ensures refused { IfErr result (λ _. IsLeftBy (names_input line.entry) (I.shown input.old) (I.shown input.new)) }
{
    if !is_name_among(&line.files, line.input_name) {
        return gather_known(alloc, disk, line, from_terminal);
    }
    match read_whole(alloc, input) {
        Ok(bytes) => {
            let disk = InputDisk::new(disk, line.input_name, &bytes);
            gather_known(alloc, &disk, line, from_terminal)
        }
        Err(InputFault::Read) => Ok(refusing(Vec::from_slice(alloc, READ_FAILED)?, FAILED)),
        Err(InputFault::Memory) => Err(AllocError),
    }
}

/// What is gathered for two lines of `compare` for which this was read.
fn compare<'a, D: Disk>(
    alloc: Global,
    disk: &D,
    old: Line<'a>,
    new: Line<'a>,
    old_read: ReadSome,
    new_read: ReadSome,
) -> Result<Gathered<'a>, AllocError>
    requires old { IsRead (D.may_answer disk.now) false true old old_read }
    requires new { IsRead (D.may_answer disk.now) true true new new_read }
    ensures { IfOk result (Compares (D.may_answer disk.now) old.entry new.entry) }
{
    let Report { lines, least } = joined(old_read.report, new_read.report)?;
    let lines = shown_in(old.format, lines);
    let old = inputs(alloc, disk, old, old_read.files, old_read.index)?;
    let new = inputs(alloc, disk, new, new_read.files, new_read.index)?;
    Ok(Gathered {
        work: Work::Compare(old, new),
        report: Report { lines, least },
    })
}

/// Reads the files that two lines of `compare` ask for, and the index of both.
fn gather_sides<'a, D: Disk>(
    alloc: Global,
    disk: &D,
    old: Line<'a>,
    new: Line<'a>,
) -> Result<Gathered<'a>, AllocError>
    ensures { IfOk result (λ g. Compares (D.may_answer disk.now) old.entry new.entry g
        ⊎ IsEnded (IsOneUnread (D.may_answer disk.now) old.entry new.entry) g) }
{
    match read_both(alloc, disk, &old, &new) {
        Ok((old_read, new_read)) => compare(alloc, disk, old, new, old_read, new_read),
        Err(Ended::Said(report)) => Ok(Gathered {
            work: Work::Nothing,
            report,
        }),
        Err(Ended::Memory) => Err(AllocError),
    }
}

/// Reads the `.link` files that two lines of `compare` name interfaces by, and then all others.
fn gather_both<'a, D: Disk>(
    alloc: Global,
    disk: &D,
    mut old: Line<'a>,
    mut new: Line<'a>,
    from_terminal: bool,
) -> Result<Gathered<'a>, AllocError>
    ensures { IfOk result (GathersBoth (D.may_answer disk.now) from_terminal old.entry new.entry) }
{
    let on_old = read_links(alloc, disk, &mut old)?;
    let on_new = read_links(alloc, disk, &mut new)?;
    let links = joined(on_old, on_new)?;
    let own = gather_sides(alloc, disk, old, new)?;
    behind(links, from_terminal, own)
}

/// Gathers what a request asks for.
fn gather_request<'a, D: Disk, I: Source>(
    alloc: Global,
    disk: &D,
    request: Request<'a>,
    terminals: Terminals,
    input: &mut I,
) -> Result<Gathered<'a>, AllocError>
    ensures gathered { IfOk result (λ g. GathersRequest terminals (D.may_answer disk.now) request.entry (I.shown input.old) g (I.shown input.new)) }
    ensures refused { IfErr result (λ _. IsLeftBy (takes_input request.entry) (I.shown input.old) (I.shown input.new)) }
{
    match request {
        Request::Run(mut line) => {
            line.format = shown_format(line.format, has_colors(line.color, terminals.colors));
            gather_run(alloc, disk, line, terminals.input, input)
        }
        Request::Files(line) => {
            let Listed { lines, report } = list_files(alloc, disk, &line)?;
            Ok(Gathered {
                work: Work::Tell(Bytes::new(lines)),
                report,
            })
        }
        Request::Compare(old, new) => gather_both(alloc, disk, old, new, terminals.input),
    }
}

/// Gathers all that words ask for, as they are after the program's name and with those of a file of options.
///
/// The files of users and groups are read first, then `.link` files, then the other files, those that are named before those
/// of the folders, last of these the index, and after them what rules import. What is reported on all that is in this order,
/// too. Of words that ask for no run it is said what is wrong, or the work is to write help. Without `--all` the first thing that
/// can't be read ends the gathering, and nothing is left to do.
///
/// Of the input nothing is read, unless the words name it as a file: then it is read whole. Fails if memory runs out.
pub fn gather<'a, D: Disk, I: Source>(
    alloc: Global,
    disk: &D,
    words: &'a [String],
    terminals: Terminals,
    input: &mut I,
) -> Result<Gathered<'a>, AllocError>
    ensures gathered { IfOk result (λ g. GathersAsked terminals (D.may_answer disk.now) (map string_bytes words.now) (I.shown input.old) g (I.shown input.new)
        ⊎ RefusesWords (map string_bytes words.now) (I.shown input.old) g (I.shown input.new)) }
    ensures refused { IfErr result (λ _. (I.shown input.new ≡ I.shown input.old)
        ⊎ ReadsNamed (map string_bytes words.now) (I.shown input.old) (I.shown input.new)) }
{
    match parse_line(alloc, words) {
        Ok(request) => gather_request(alloc, disk, request, terminals, input),
        Err(LineFault::Help(text)) => Ok(Gathered {
            work: Work::Tell(Bytes::new(text.into_bytes())),
            report: nothing(alloc),
        }),
        Err(LineFault::Usage(text)) => Ok(refusing(said_of_words(text.into_bytes()), USAGE)),
        Err(LineFault::Memory) => Err(AllocError),
    }
}
