//! Files with the least rank of each of their names, by which those are found that others hide.
ghost use Rattle.std.specs.Prelude.{◌≡◌, ◌||◌, IfOk, OnOk};
ghost use Rattle.std.specs.List.{list_any};
ghost use Rattle.text_bytes.specs.declared.source_file.SourceFile.{SourceFile};
ghost use Rattle.devdry_links.specs.Notes.{hides};
ghost use Rattle.devdry_links.specs.Ranks.{is_outranked};

use std::alloc::{AllocError, Global};
use std::marker::Model;
use text_bytes::SourceFile;
use text_tables::Table;

/// Files, some of which may hide others.
#[derive(Drop)]
pub(crate) struct RankedFiles<'f> {
    files: &'f [SourceFile],
    /// The least rank of each name.
    ranks: Table<'f, u8>,
}

impl<'f> Model for RankedFiles<'f> {
    ghost use Rattle.std.specs.Prelude.{◌≡◌, List};
    ghost use Rattle.std.specs.List.{list_any};
    ghost use Rattle.text_bytes.specs.declared.source_file.SourceFile as source;
    ghost use Rattle.devdry_links.specs.Notes.{hides};
    ghost use Rattle.devdry_links.specs.Ranks.{is_outranked};

    ghost Value = { List source.SourceFile };

    ghost view = { λ r. r.files.now };

    ghost invariant = { λ r. (file : source.SourceFile) → is_outranked r.ranks file ≡ list_any (hides file) r.files.now };
}

/// Whether a file has a greater rank than that of its name.
fn is_outranked(ranks: &Table<'_, u8>, file: &SourceFile) -> bool
    ensures { result ≡ is_outranked ranks.now file.now }
{
    match ranks.get(file.name.as_slice()) {
        Some(least) => *least < file.rank,
        None => false,
    }
}

/// Takes the rank of a file, unless its name has a lesser one.
#[tactic(auto, using(crate::proofs::LeastRanks::rank_left, crate::proofs::LeastRanks::rank_put))]
fn take_rank<'f>(ranks: &mut Table<'f, u8>, file: &'f SourceFile) -> Result<(), AllocError>
    ensures { OnOk result ((other : SourceFile) → is_outranked ranks.new other ≡ (is_outranked ranks.old other || hides other file.now)) }
{
    if !is_outranked(ranks, file) {
        ranks.add(file.name.as_slice(), file.rank)?;
    }
    Ok(())
}

/// The least rank of each name among files.
fn least_ranks<'f>(alloc: Global, files: &'f [SourceFile]) -> Result<Table<'f, u8>, AllocError>
    ensures { IfOk result (λ ranks. (file : SourceFile) → is_outranked ranks file ≡ list_any (hides file) files.now) }
{
    let mut ranks = Table::new(alloc);
    for file in files {
        take_rank(&mut ranks, file)?;
    }
    Ok(ranks)
}

impl<'f> RankedFiles<'f> {
    /// These files.
    pub(crate) fn of(alloc: Global, files: &'f [SourceFile]) -> Result<RankedFiles<'f>, AllocError>
        ensures { IfOk result (λ ranked. ranked ≡ files.now) }
    {
        let ranks = least_ranks(alloc, files)?;
        Ok(RankedFiles { files, ranks })
    }

    /// Whether one of them hides a file.
    pub(crate) fn hide(&self, file: &SourceFile) -> bool
        ensures { result ≡ list_any (hides file.now) self.now }
    {
        is_outranked(&self.ranks, file)
    }
}
