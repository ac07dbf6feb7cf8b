//! Laws of the lints of a file, each the contract of a function with an empty body.
ghost use Rattle.std.specs.Prelude.{◌≡◌, ◌∷◌, [], None, Some, ℕ, codes, false, map, true};
ghost use Rattle.text_bytes.specs.declared.profile.Profile as profiles;
ghost use Rattle.text_bytes.specs.declared.source_file.SourceFile as files;
ghost use Rattle.rule_core.specs.Ends.{abandoned};
ghost use Rattle.rule_tokens.specs.declared.kinds.Operator.TheVariants as op;
ghost use Rattle.rule_lints.specs.ValueLaws.{token};
ghost use Rattle.rule_file_lints.specs.ByName.{first_files, is_later, later_families};
ghost use Rattle.rule_file_lints.specs.FileLaws.{FirstIsReached, ImportsFurtherDown, NoneAfterMatches, NoneUncompared, ReachedAfterLostJumps};
ghost use Rattle.rule_file_lints.specs.FileLaws.{ReachedAfterMatches, ReachedByLabels, lints_without_places, without_place};
ghost use Rattle.rule_file_lints.specs.FileLints.{placed_lints};
ghost use Rattle.rule_file_lints.specs.FileRules.{file_rules};
ghost use Rattle.rule_file_lints.specs.Late.{access_file, gives_access, runs_access};

/// W6 is reported for properties that the rule, one further down or a later file imports, and that no rule before it
/// imports, assigns or may import.
pub fn imports_are_further_down()
    ensures { ImportsFurtherDown }
{}

/// W7 is reported for no assignment after all matches of its rule, and for none if nothing is compared.
#[tactic(auto, using(crate::proofs::FileLemmas::none_following, crate::proofs::FileLemmas::none_uncompared))]
pub fn assignments_come_before_matches()
    ensures following { NoneAfterMatches }
    ensures uncompared { NoneUncompared }
{}

/// W13 is reported neither for the first rule of a file, nor for one after a rule that may end or whose jump has no
/// later label, nor for one with a label.
#[tactic(auto, using(crate::proofs::FileLemmas::after_matches, crate::proofs::FileLemmas::after_lost, crate::proofs::FileLemmas::by_labels))]
pub fn rules_that_are_reached_are_not_reported()
    ensures first { FirstIsReached }
    ensures ending { ReachedAfterMatches }
    ensures lost { ReachedAfterLostJumps }
    ensures labelled { ReachedByLabels }
{}

/// Names of files, of which some come after that of the file that reads the tag `uaccess`.
pub fn some_late_files()
    ensures late { is_later (codes "99-mine.rules") access_file ≡ true }
    ensures letters { is_later (codes "mine.rules") access_file ≡ true }
    ensures same_number { is_later (codes "73-usb.rules") access_file ≡ true }
    ensures folder { is_later (codes "99-mine/70-mine.rules") access_file ≡ false }
    ensures itself { is_later (codes "73-seat-late.rules") access_file ≡ false }
    ensures shorter { is_later (codes "8.rules") access_file ≡ true }
    ensures no_rules { is_later (codes "99-mine.txt") access_file ≡ false }
{}

/// Names of files, with the families of properties that only later files import.
pub fn some_later_families()
    ensures first { later_families (codes "10-mine.rules") ≡ map (λ row. row.0) first_files }
    ensures between { later_families (codes "rules.d/55-mine.rules") ≡ codes "ID_INPUT*" ∷ codes "ID_NET_NAME_*" ∷ [] }
    ensures last { later_families (codes "80-mine.rules") ≡ [] }
    ensures no_rules { later_families (codes "10-mine") ≡ [] }
{}

/// Tokens, of which some give the tag `uaccess`, and some run the builtin that reads it.
pub fn some_tokens_of_access()
    ensures added { gives_access (token (codes "TAG") None op.Add (codes "uaccess")) ≡ true }
    ensures assigned { gives_access (token (codes "TAG") None op.AssignFinal (codes "uaccess")) ≡ true }
    ensures removed { gives_access (token (codes "TAG") None op.Remove (codes "uaccess")) ≡ false }
    ensures compared { gives_access (token (codes "TAG") None op.Equal (codes "uaccess")) ≡ false }
    ensures seat { gives_access (token (codes "TAG") None op.Add (codes "seat")) ≡ false }
    ensures run { runs_access (token (codes "RUN") (Some (codes "builtin")) op.Add (codes "uaccess")) ≡ true }
    ensures other { runs_access (token (codes "RUN") (Some (codes "builtin")) op.Add (codes "kmod load")) ≡ false }
{}

/// Without their places, the lints of a file are those of its rules.
#[tactic(auto, using(crate::proofs::FileLemmas::lints_of_rules))]
pub fn lints_are_those_of_the_rules()
    ensures { (by : profiles.Profile) (file : files.SourceFile) → map without_place (placed_lints by file)
        ≡ lints_without_places by file.name (file_rules by file.bytes) [] (file_rules by file.bytes) }
{}

/// No lint is reported for a file that is given up.
#[tactic(auto, using(crate::proofs::FileLemmas::none_abandoned))]
pub fn abandoned_files_have_no_lints()
    ensures { (by : profiles.Profile) (file : files.SourceFile) (number : ℕ) → abandoned by file.bytes ≡ Some number → placed_lints by file ≡ [] }
{}
