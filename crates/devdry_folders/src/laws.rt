//! Laws of what is reported, each the contract of a function with an empty body.
ghost use Rattle.std.specs.Prelude.{◌≡◌, ◌==◌, ◌++◌, ◌∷◌, [], ℕ, Bool, List, codes, if◌then◌else◌, length, map, nat_eq, not, true};
ghost use Rattle.std.specs.List.{ends_with, find};
ghost use Rattle.text_bytes.specs.Text.{Text};
ghost use Rattle.text_bytes.specs.FileOrder.{ordered};
ghost use Rattle.text_bytes.specs.Kinds.{suffix_of};
ghost use Rattle.text_bytes.specs.declared.source_file.FileKind as kinds;
ghost use Rattle.text_bytes.specs.declared.source_file.FileKind.TheVariants.{Rules};
ghost use Rattle.text_tables.specs.Texts.{same_text};
ghost use Rattle.devdry_files.specs.Walks.{Leads, Way};
ghost use Rattle.devdry_files.specs.declared.step.End.{End};
ghost use Rattle.devdry_folders.specs.Laws.{AreOneFile, RanksRise, all_reasons, differ, files_among, files_of_kind, lacks_any, passes_needed};
ghost use Rattle.devdry_folders.specs.Missing.{has_needed};
ghost use Rattle.devdry_folders.specs.Reasons.{advice_on, wrong_by};
ghost use Rattle.devdry_folders.specs.Nothing.{nothing_lines};
ghost use Rattle.devdry_folders.specs.SightStatus.{AreByName, counting, sights_of, status_lines};
ghost use Rattle.devdry_folders.specs.Staying.{IsInside};
ghost use Rattle.devdry_folders.specs.Unread.{all_unread, has_files, least_status, unread_said};
ghost use Rattle.devdry_folders.specs.declared.elsewhere.Elsewhere.{Elsewhere};
ghost use Rattle.devdry_folders.specs.declared.reasons.Reason.TheVariants as reasons;
ghost use Rattle.devdry_folders.specs.declared.sights.Met.TheVariants as met;
ghost use Rattle.devdry_folders.specs.declared.sights.Sight as seen;
ghost use Rattle.devdry_folders.specs.declared.sights.Survey as surveys;
ghost use Rattle.devdry_folders.specs.declared.sights.Visit as visited;

use devdry_files::Disk;

/// A run reports that no file of some kinds was read if and only if it is passed none of them.
#[tactic(auto, using(crate::proofs::HandedOn::some_files))]
pub fn no_file_is_reported_where_none_is_handed_on()
    ensures { (needed : List kinds.FileKind) (visits : List visited.Visit)
        → has_files needed visits ≡ not (length (files_among needed visits) == 0) }
{}

/// Whatever a disk says on the way, a path leads to nothing outside its root: each name on the way leads forward, all
/// but the last lead to folders, and none leads to a symlink.
pub fn a_path_leads_to_a_place_inside_its_root<D: Disk>()
    ensures { (disk : D) (root : Text) (links : ℕ) (names : Way) (it : End) (at : Way)
        → Leads (D.may_answer disk) root links [] names it at → IsInside (D.may_answer disk) root it at }
{}

/// The least status of a run is 3 if anything that it visited could not be read. If all could, it is 0 if the run is
/// passed a file of the kinds that it needs or the index in place of the database, and 1 if it is not, which is then
/// reported.
pub fn what_could_not_be_read_makes_the_status()
    ensures { (needed : List kinds.FileKind) (for_people : Bool) (survey : surveys.Survey) (others : List Elsewhere)
        → least_status (all_unread for_people survey) (if has_needed needed survey then [] else nothing_lines needed survey.visits.items others)
        ≡ (if lacks_any survey then 3 else if passes_needed needed survey then 0 else 1) }
{}

/// Of the files with a name in the folders of a kind, the one by which `files` says which is used, masked or hidden is the one
/// that a run reads; what can't be read hides none.
#[tactic(auto, using(crate::proofs::OneFile::read_as_reported))]
pub fn the_file_that_counts_is_the_one_that_is_read()
    ensures { (kind : kinds.FileKind) (visits : List visited.Visit) (sights : List seen.Sight) (name : Text)
        → RanksRise kind 0 visits → AreByName (sights_of kind visits) sights → ends_with nat_eq name (suffix_of kind) ≡ true
        → AreOneFile visits (counting sights name) (find (λ file. same_text name file.name) (ordered (suffix_of kind) (files_of_kind kind visits))) }
{}

/// A file that counts is told as used, or as masked if it is empty, and another of its name as hidden by it.
pub fn files_are_told_as_what_they_are()
    ensures masked { status_lines Rules
        (record { name = codes "a.rules"; path = codes "/etc/a.rules"; met = met.File [] } ∷ []) ≡ codes "/etc/a.rules: masked\n" }
    ensures used { status_lines Rules
        (record { name = codes "a.rules"; path = codes "/etc/a.rules"; met = met.File (codes "x") } ∷ []) ≡ codes "/etc/a.rules: used\n" }
    ensures hidden { status_lines Rules
        (record { name = codes "a.rules"; path = codes "/etc/a.rules"; met = met.File [] }
        ∷ record { name = codes "a.rules"; path = codes "/usr/a.rules"; met = met.File (codes "x") } ∷ [])
        ≡ codes "/etc/a.rules: masked\n/usr/a.rules: hidden by /etc/a.rules\n" }
{}

/// Each reason has a sentence of its own on what is wrong, and one on what to do, and none of them is empty.
#[tactic(auto, using(crate::proofs::OwnAdvice::own_sentences))]
pub fn each_reason_has_its_own_advice()
    ensures { (target : Text) → (differ (map wrong_by (all_reasons target)) ≡ true) × (differ (map advice_on (all_reasons target)) ≡ true) }
{}

/// What people are told about a file that can't be read.
#[tactic(auto, using(crate::proofs::OwnAdvice::link_is_told))]
pub fn a_link_to_nothing_is_told()
    ensures { unread_said true (codes "a\nb.rules") (reasons.LinkToNothing (codes "/x"))
        ≡ codes "devdry: cannot read a\\x0Ab.rules: link to nothing: /x\n"
        ++ codes "  It is a link, and there is nothing at /x\n"
        ++ codes "  = Remove the link, or make what it leads to; a link to /dev/null masks a file.\n" }
{}
