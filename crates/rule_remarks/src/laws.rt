//! Laws of the remarks, each the contract of a function with an empty body.
ghost use Rattle.std.specs.Prelude.{◌≡◌, ◌↔◌, [], List, None, Some, codes, is_some, true, ℕ};
ghost use Rattle.std.specs.List.{AllByRecursion};
ghost use Rattle.text_bytes.specs.Text.{Text};
ghost use Rattle.text_bytes.specs.declared.profile.Profile.TheVariants.{Manual, Udev};
ghost use Rattle.text_bytes.specs.declared.source_file.SourceFile as files;
ghost use Rattle.rule_tokens.specs.Grammar.{Placed};
ghost use Rattle.rule_core.specs.Drafts.{draft_of};
ghost use Rattle.rule_core.specs.Lines.{joined_lines};
ghost use Rattle.rule_remarks.specs.Accounts.{Accounts};
ghost use Rattle.rule_remarks.specs.declared.accounts.AccountKind.TheVariants.{Group, User};
ghost use Rattle.rule_places.specs.Files.{placed_findings};
ghost use Rattle.rule_places.specs.Laws.{IsQuotedThere, IsTextThere};
ghost use Rattle.file_messages.specs.declared.message.MessageKind.{MessageKind};
ghost use Rattle.rule_places.specs.declared.placed_finding.PlacedFinding as places;
ghost use Rattle.rule_remarks.specs.AccountLines.{account, account_in};
ghost use Rattle.rule_remarks.specs.Attributes.{has_way_up};
ghost use Rattle.rule_remarks.specs.Findings.{findings_as};
ghost use Rattle.rule_remarks.specs.ByLine.{by_line};
ghost use Rattle.rule_remarks.specs.Laws.{HasLateProgram, HasWayUp, IsOfRule};
ghost use Rattle.rule_core.specs.Laws.{RisesFrom};
ghost use Rattle.rule_remarks.specs.Remarks.{late_program, rule_remarks};
ghost use Rattle.rule_remarks.specs.Rules.{file_remarks, line_remarks};

/// `../` is found if and only if it is in a text.
#[tactic(auto, using(crate::proofs::WayUp::ways_up))]
pub fn ways_up_are_in_their_names()
    ensures { (text : Text) → (has_way_up text ≡ true) ↔ HasWayUp text }
{}

/// What is reported for a key or an attribute is reported with the bytes that are in the joined line at the place.
#[tactic(auto, using(crate::proofs::Placement::words_in_place))]
pub fn words_are_at_their_places()
    ensures { (accounts : Accounts) (line : Text) → AllByRecursion (IsTextThere line) (line_remarks accounts (draft_of Udev line)) }
{}

/// What is reported for a value is reported for bytes of the joined line between two quotes, with no quote among
/// them that ends a value.
#[tactic(auto, using(crate::proofs::Placement::values_in_place))]
pub fn values_are_between_quotes()
    ensures { (accounts : Accounts) (line : Text) → AllByRecursion (IsQuotedThere line) (line_remarks accounts (draft_of Udev line)) }
{}

/// A PROGRAM is reported as late only if a RESULT comes before it, and if one does for any PROGRAM, some PROGRAM is
/// reported.
#[tactic(auto, using(crate::proofs::Late::late_in_place))]
pub fn late_programs_follow_results()
    ensures is_present { (tokens : List Placed) (program : Placed) → late_program tokens ≡ Some program → HasLateProgram tokens program }
    ensures reported { (tokens : List Placed) (program : Placed) → HasLateProgram tokens program → is_some (late_program tokens) ≡ true }
{}

/// Findings whose lines never fall, merged with others whose lines never fall, make findings whose lines never
/// fall.
#[tactic(auto, using(crate::proofs::ByLines::both_rise))]
pub fn lines_never_fall()
    ensures { (line : ℕ) (found others : List (places.PlacedFinding MessageKind)) → RisesFrom (λ p. p.begins) line found → RisesFrom (λ p. p.begins) line others
        → RisesFrom (λ p. p.begins) line (by_line (λ p. p.begins) found others) }
{}

/// Each remark on a file is reported for a joined line that is a rule for udev.
#[tactic(auto, using(crate::proofs::OfRules::of_rules))]
pub fn remarks_are_reported_for_rules()
    ensures { (accounts : Accounts) (bytes : Text) → AllByRecursion (IsOfRule (joined_lines Udev bytes).lines) (file_remarks accounts bytes) }
{}

/// Nothing is reported for no tokens.
#[tactic(auto, unfolding(crate::specs::Remarks::rule_remarks, crate::specs::Pairs::pair_findings))]
pub fn no_tokens_have_no_remarks()
    ensures { (accounts : Accounts) → rule_remarks accounts [] ≡ [] }
{}

/// By the manual the findings of reading are all that is reported.
#[tactic(auto, unfolding(crate::specs::Findings::findings_as))]
pub fn the_manual_reports_findings_alone()
    ensures { (accounts : Accounts) (file : files.SourceFile) → findings_as Manual accounts file ≡ placed_findings Manual file }
{}

/// Lines of files of users and groups, and the accounts that they list.
#[tactic(auto, unfolding(text_bytes::specs::Numbers::decimal_below, text_bytes::specs::Texts::split_once))]
pub fn some_accounts()
    ensures user { account_in User (codes "disk:x:6:7") ≡ Some (account (codes "disk") 6) }
    ensures few { account_in User (codes "disk:x:6") ≡ None }
    ensures group { account_in Group (codes "disk:x:6") ≡ Some (account (codes "disk") 6) }
    ensures none { account_in Group (codes "disk:x:") ≡ None }
    ensures other { account_in Group (codes "+disk:x:6") ≡ None }
{}
