//! What one device of the way adds to a path.
ghost use Rattle.std.specs.Prelude.{◌≡◌, ◌∷◌, [], IfOk, length, drop, option_map, true};
ghost use Rattle.builtin_path.specs.Stops.{absent, adding, ending, passed, passing};

use crate::members::Member;
use std::alloc::{AllocError, Global};
use text_bytes::Bytes;
use text_tables::OwnedTexts;

/// Where the way goes on.
#[derive(Clone, Copy)]
pub(crate) enum Next {
    /// Above so many of the devices above.
    On(usize),
    /// Nowhere; what is below stays.
    Ends,
    /// Nowhere, and path_id fails.
    Fails,
}

/// What a device adds to the compatible path.
#[derive(Drop)]
pub(crate) enum Share {
    /// Nothing.
    Apart,
    /// The same as to the path, if the compatible path has begun.
    Both,
    /// A port of ATA, with which it begins.
    Ata(Bytes),
}

/// What one device adds.
#[derive(Drop)]
pub(crate) struct Stop {
    /// The part of the path, if there is one.
    pub part: Option<Bytes>,
    /// What it adds to the compatible path.
    pub share: Share,
    /// Whether it is a known transport.
    pub transport: bool,
    /// Whether it is a known parent.
    pub parent: bool,
    /// Names of what the block would have to report.
    pub needs: OwnedTexts,
    /// Where the way goes on.
    pub next: Next,
}

/// A name that the block would have to report, if it does not.
pub(crate) fn absent(
    alloc: Global,
    name: &[u8],
    value: Option<&[u8]>,
) -> Result<OwnedTexts, AllocError>
    ensures { IfOk result (λ needs. needs ≡ absent name.now (option_map (λ t. t.now) value.entry)) }
{
    match value {
        Some(_) => Ok(OwnedTexts::new(alloc)),
        None => needed(alloc, name),
    }
}

/// A name that the block would have to report.
pub(crate) fn needed(alloc: Global, name: &[u8]) -> Result<OwnedTexts, AllocError>
    ensures { IfOk result (λ needs. needs ≡ name.now ∷ []) }
{
    let mut needs = OwnedTexts::new(alloc);
    needs.add(alloc, name)?;
    Ok(needs)
}

/// The way ends at a device with a known transport, as a name is not reported; `parent` says whether it is a known parent.
pub(crate) fn lost(alloc: Global, name: &[u8], parent: bool) -> Result<Stop, AllocError>
    ensures { IfOk result (λ stop. stop ≡ ending true parent (name.now ∷ [])) }
{
    Ok(Stop::ending(true, parent, needed(alloc, name)?))
}

impl Stop {
    /// A device that adds nothing, and above which the way goes on.
    pub(crate) fn passing(alloc: Global, transport: bool) -> Stop
        ensures { result ≡ passing transport }
    {
        Stop {
            part: None,
            share: Share::Apart,
            transport,
            parent: false,
            needs: OwnedTexts::new(alloc),
            next: Next::On(0),
        }
    }

    /// A device that adds nothing, and at which the way ends.
    pub(crate) fn ending(transport: bool, parent: bool, needs: OwnedTexts) -> Stop
        ensures { result ≡ ending transport parent needs }
    {
        Stop {
            part: None,
            share: Share::Apart,
            transport,
            parent,
            needs,
            next: Next::Ends,
        }
    }

    /// A device that adds a part, above which so many devices are skipped.
    pub(crate) fn adding(
        alloc: Global,
        part: Bytes,
        transport: bool,
        parent: bool,
        count: usize,
    ) -> Stop
        ensures { result ≡ adding part transport parent count }
    {
        Stop {
            part: Some(part),
            share: Share::Apart,
            transport,
            parent,
            needs: OwnedTexts::new(alloc),
            next: Next::On(count),
        }
    }
}

/// Of the devices above a device, those from where the way goes on.
pub(crate) fn following<'m, 'd>(next: Next, above: &'m [Member<'d>]) -> &'m [Member<'d>]
    ensures { result.now ≡ drop (passed next above.now) above.now }
{
    match next {
        Next::On(count) => above.split_at(count.min(above.len())).1,
        Next::Ends => above.split_at(above.len()).1,
        Next::Fails => above.split_at(above.len()).1,
    }
}
