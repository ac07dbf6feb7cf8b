//! All lints of the rules of a file, in their order, with their places.
ghost use Rattle.std.specs.Prelude.{◌≡◌, ◌++◌, [], IfOk, OnOk};
ghost use Rattle.rule_file_lints.specs.FileLints.{lints_of_lines, spots_among, spots_by};
ghost use Rattle.rule_file_lints.specs.Steps.{above_after, lints_over, names_after, names_at_first, names_in, nothing_above, spots_at, with_names, with_rule};

use crate::by_name::{add_later_families, is_later};
use crate::file_rule::FileRule;
use crate::guarded::{add_no_result, add_unguarded, has_program, may_jump};
use crate::imported::{add_given, add_imported};
use crate::imported_below::{add_imported_below, add_imported_beside};
use crate::late::{ACCESS_FILE, add_late_tag, has_access, has_tag};
use crate::meant::{add_compared, add_meant};
use crate::reached::{add_never_reached, jumps_to};
use rule_core::{LandedLines, LandedReading, Spot, sum_of};
use rule_lints::{Lint, add_value_lints, is_about_tags, lints_of_rule};
use rule_places::{KeptLines, PlacedFinding, place_spots};
use std::alloc::{AllocError, Global};
use std::marker::Model;
use text_bytes::{Bytes, Profile};
use text_tables::OwnedTexts;

/// What the lints of each rule of a file need to know about all of it.
#[derive(Drop)]
pub struct FileNames {
    /// What its rules and later files import.
    imported: OwnedTexts,
    /// What its rules compare.
    compared: OwnedTexts,
    /// Some give tags, or compare them.
    tagged: bool,
    /// The tag `uaccess` comes too late.
    late: bool,
}

/// What the lints of a rule need to know about the rules above it.
#[derive(Drop)]
pub struct RulesAbove {
    /// What they import or assign.
    given: OwnedTexts,
    /// The label to which the nearest of them jumps for every device, if it does.
    jump: Option<Bytes>,
    /// One of them may jump.
    guarded: bool,
    /// One of them has a program.
    programs: bool,
    /// One of them gives the tag `uaccess`.
    tag: bool,
}

impl Model for FileNames {
    ghost use Rattle.rule_file_lints.specs.FileLints as lints;

    ghost Value = { lints.FileNames };

    ghost view = { λ n. record { imported = n.imported; compared = n.compared; tagged = n.tagged; late = n.late } };
}

impl Model for RulesAbove {
    ghost use Rattle.rule_file_lints.specs.FileLints as lints;

    ghost Value = { lints.RulesAbove };

    ghost view = { λ a. record { given = a.given; jump = a.jump; guarded = a.guarded; programs = a.programs; tag = a.tag } };
}

/// The lints of the lines of a file that were read, in the order of its rules, each with the physical line and the
/// columns that it is about, for rules that are read by a profile. There are none for a line that is not a rule. The
/// kept lines are those of the same file, and its name says which of udev's own files come before it and after it; it
/// may have folders.
///
/// The lints that are found in a rule by itself come first, then those of its values, its names and its assignments, W6 and
/// W7, each in written order, and W13, W15, W25 and W27 last. A place in several physical lines is reported as far as it is in
/// the first of them. The number of a line or a column is at most 2^32 - 1.
#[tactic(auto, using(crate::proofs::Passing::all_known))]
pub fn lints_of_lines(
    alloc: Global,
    profile: Profile,
    name: &[u8],
    kept: &KeptLines,
    lines: &[LandedReading<'_>],
) -> Result<Vec<PlacedFinding<Lint>>, AllocError>
    ensures { IfOk result (λ found. found.items ≡ lints_of_lines profile name.now kept.now lines.now) }
{
    let names = FileNames::of(alloc, name, lines)?;
    lints_by_names(alloc, profile, &names, kept, lines)
}

/// The same by what the lines are about.
fn lints_by_names(
    alloc: Global,
    profile: Profile,
    names: &FileNames,
    kept: &KeptLines,
    lines: &[LandedReading<'_>],
) -> Result<Vec<PlacedFinding<Lint>>, AllocError>
    ensures { IfOk result (λ found. found.items ≡ lints_over profile names.now kept.now nothing_above 0 lines.now) }
{
    let mut above = RulesAbove::new(alloc);
    let mut found = Vec::new(alloc);
    let mut start = 0;
    for line in lines {
        let reading = &line.reading;
        let spots = lints_of_line(alloc, profile, names, &above, line)?;
        place_spots(&mut found, kept, reading.line, start, spots)?;
        above.take(alloc, line)?;
        start = sum_of(start, reading.text.len())?;
    }
    Ok(found)
}

/// The lints of a line that was read, which has none if it is not a rule.
pub fn lints_of_line(
    alloc: Global,
    profile: Profile,
    names: &FileNames,
    above: &RulesAbove,
    line: &LandedReading<'_>,
) -> Result<Vec<Spot<Lint>>, AllocError>
    ensures { IfOk result (λ spots. spots.items ≡ spots_at profile names.now above.now line.now) }
{
    match FileRule::of(line) {
        Some(rule) => rule_spots(alloc, profile, names, above, &rule),
        None => Ok(Vec::new(alloc)),
    }
}

/// The lints of a rule.
fn rule_spots(
    alloc: Global,
    profile: Profile,
    names: &FileNames,
    above: &RulesAbove,
    rule: &FileRule<'_, '_>,
) -> Result<Vec<Spot<Lint>>, AllocError>
    ensures { IfOk result (λ spots. spots.items ≡ spots_by profile names.now above.now rule.now) }
{
    let draft = rule.draft;
    let tokens = &draft.parts;
    let mut spots = lints_of_rule(alloc, profile, tokens)?;
    add_value_lints(alloc, &mut spots, names.tagged, tokens)?;
    add_spots_among(alloc, &mut spots, names, above, rule)?;
    Ok(spots)
}

/// Adds the lints of a rule that its file and the rules above it decide.
fn add_spots_among(
    alloc: Global,
    spots: &mut Vec<Spot<Lint>>,
    names: &FileNames,
    above: &RulesAbove,
    rule: &FileRule<'_, '_>,
) -> Result<(), AllocError>
    ensures { OnOk result (spots.new.items ≡ spots.old.items ++ spots_among names.now above.now rule.now) }
{
    let draft = rule.draft;
    let tokens = &draft.parts;
    add_imported_below(alloc, spots, &names.imported, &above.given, tokens)?;
    add_imported_beside(alloc, spots, &above.given, tokens)?;
    add_meant(alloc, spots, &names.compared, tokens)?;
    add_never_reached(alloc, spots, &above.jump, rule)?;
    add_unguarded(alloc, spots, above.guarded, tokens)?;
    add_no_result(alloc, spots, above.programs, tokens)?;
    add_late_tag(alloc, spots, names.late, above.tag, tokens)?;
    Ok(())
}

impl FileNames {
    /// What the lines of a file with a name are about.
    fn of(alloc: Global, name: &[u8], lines: &[LandedReading<'_>]) -> Result<FileNames, AllocError>
        ensures { IfOk result (λ names. names ≡ names_in name.now lines.now) }
    {
        let mut names = FileNames::new(alloc, name)?;
        for line in lines {
            names.take(alloc, line)?;
        }
        Ok(names)
    }

    /// The same for lines each of which is read here, and no other held meanwhile.
    #[tactic(auto, using(crate::proofs::Passing::names_more, crate::proofs::Passing::names_end))]
    pub fn of_lines(
        alloc: Global,
        name: &[u8],
        lines: LandedLines<'_>,
    ) -> Result<FileNames, AllocError>
        ensures { IfOk result (λ names. names ≡ names_in name.now lines.entry) }
    {
        let mut names = FileNames::new(alloc, name)?;
        let mut rest = lines;
        while let Some(line) = rest.first(alloc)? {
            names.take(alloc, &line)?;
            rest = rest.others();
        }
        Ok(names)
    }

    /// What is known of a file with a name before its first line.
    fn new(alloc: Global, name: &[u8]) -> Result<FileNames, AllocError>
        ensures { IfOk result (λ names. names ≡ names_at_first name.now) }
    {
        let mut imported = OwnedTexts::new(alloc);
        add_later_families(alloc, &mut imported, name)?;
        Ok(FileNames {
            imported,
            compared: OwnedTexts::new(alloc),
            tagged: false,
            late: is_later(name, ACCESS_FILE),
        })
    }

    /// Takes one more line.
    fn take(&mut self, alloc: Global, line: &LandedReading<'_>) -> Result<(), AllocError>
        ensures { OnOk result (self.new ≡ names_after self.old line.now) }
    {
        match FileRule::of(line) {
            Some(rule) => self.take_rule(alloc, &rule),
            None => Ok(()),
        }
    }

    /// Takes one more rule.
    fn take_rule(&mut self, alloc: Global, rule: &FileRule<'_, '_>) -> Result<(), AllocError>
        ensures { OnOk result (self.new ≡ with_names self.old rule.now) }
    {
        let draft = rule.draft;
        add_imported(alloc, &mut self.imported, &draft.parts)?;
        add_compared(alloc, &mut self.compared, &draft.parts)?;
        self.tagged = self.tagged || is_about_tags(&draft.parts);
        self.late = self.late && !has_access(&draft.parts);
        Ok(())
    }
}

impl RulesAbove {
    /// No rules above.
    pub fn new(alloc: Global) -> RulesAbove
        ensures { result ≡ nothing_above }
    {
        RulesAbove {
            given: OwnedTexts::new(alloc),
            jump: None,
            guarded: false,
            programs: false,
            tag: false,
        }
    }

    /// Takes one more line, whose rule is then the nearest, if it has one.
    pub fn take(&mut self, alloc: Global, line: &LandedReading<'_>) -> Result<(), AllocError>
        ensures { OnOk result (self.new ≡ above_after self.old line.now) }
    {
        match FileRule::of(line) {
            Some(rule) => self.take_rule(alloc, &rule),
            None => Ok(()),
        }
    }

    /// Takes one more rule, which is then the nearest.
    fn take_rule(&mut self, alloc: Global, rule: &FileRule<'_, '_>) -> Result<(), AllocError>
        ensures { OnOk result (self.new ≡ with_rule self.old rule.now) }
    {
        let draft = rule.draft;
        add_given(alloc, &mut self.given, &draft.parts)?;
        self.jump = jumps_to(alloc, rule)?;
        self.guarded = may_jump(rule) || self.guarded;
        self.programs = has_program(&draft.parts) || self.programs;
        self.tag = has_tag(&draft.parts) || self.tag;
        Ok(())
    }
}
