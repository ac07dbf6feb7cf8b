//! Laws of places, each the contract of a function with an empty body.
ghost use Rattle.std.specs.Prelude.{◌≡◌, ◌<◌, ◌-◌, ◌^◌, ◌∷◌, [], None, Some, ℕ, drop, length, map, take};
ghost use Rattle.std.specs.List.{AllByRecursion};
ghost use Rattle.text_bytes.specs.Text.{Text};
ghost use Rattle.text_bytes.specs.Lines.{numbered_lines};
ghost use Rattle.file_messages.specs.declared.message.MessageKind.TheVariants.{LineTooLong};
ghost use Rattle.text_bytes.specs.declared.profile.Profile as profiles;
ghost use Rattle.text_bytes.specs.declared.source_file.SourceFile as files;
ghost use Rattle.rule_types.specs.declared.jumps.Landing as jumps;
ghost use Rattle.rule_core.specs.Drafts.{draft_of, most_bytes};
ghost use Rattle.rule_core.specs.Ends.{abandoned};
ghost use Rattle.rule_core.specs.Lines.{joined_lines};
ghost use Rattle.rule_core.specs.Rules.{file_messages, line_findings};
ghost use Rattle.rule_types.specs.Spots.{spot};
ghost use Rattle.rule_places.specs.Files.{placed_findings};
ghost use Rattle.rule_places.specs.Kept.{kept_lines, place_in};
ghost use Rattle.rule_places.specs.Laws.{EndsOpen, FollowsTokens, IsFoundIn, IsInFile, IsQuotedThere, IsReportedForOneLine};
ghost use Rattle.rule_places.specs.Laws.{IsTextThere, IsWholeLine, PrecedesTokens, as_message};
ghost use Rattle.rule_places.specs.Shown.{AreJoined, IsShown, kept_text};

/// Without their places, and with their words cut, the findings of a file are its messages.
#[tactic(auto, using(crate::proofs::Messages::findings_reported))]
pub fn findings_are_the_messages()
    ensures { (by : profiles.Profile) (file : files.SourceFile) → map (as_message file.name) (placed_findings by file) ≡ file_messages by file }
{}

/// What is said about a key, an attribute, the letters before a quote, or a part of a line that is not a token, is
/// reported with the bytes that are in the joined line at the place.
#[tactic(auto, using(crate::proofs::Placement::all_in_place))]
pub fn words_are_at_their_places()
    ensures { (by : profiles.Profile) (line : Text) (landing : jumps.Landing)
        → AllByRecursion (IsTextThere line) (line_findings (draft_of by line) landing) }
{}

/// What is said about a value is said about bytes of the joined line between two quotes, with no quote among them
/// that ends a value. For a jump this holds if the rule has a name for it.
#[tactic(auto, using(crate::proofs::Placement::all_quoted))]
pub fn values_are_between_quotes()
    ensures { (by : profiles.Profile) (line : Text) (landing : jumps.Landing)
        → AllByRecursion (IsQuotedThere line) (line_findings (draft_of by line) landing) }
{}

/// What is said about commas with no key is said about all that follows the last token.
#[tactic(auto, using(crate::proofs::Placement::all_after))]
pub fn last_commas_follow_tokens()
    ensures { (by : profiles.Profile) (line : Text) (landing : jumps.Landing)
        → AllByRecursion (FollowsTokens line) (line_findings (draft_of by line) landing) }
{}

/// What is said about commas before the first token is said about the whole gap there.
#[tactic(auto, using(crate::proofs::Placement::all_precede_tokens))]
pub fn first_commas_precede_tokens()
    ensures { (by : profiles.Profile) (line : Text) (landing : jumps.Landing)
        → AllByRecursion (PrecedesTokens line) (line_findings (draft_of by line) landing) }
{}

/// What is said about a rule as a whole is said about its whole line.
#[tactic(auto, using(crate::proofs::Placement::all_whole))]
pub fn rules_are_reported_as_a_whole()
    ensures { (by : profiles.Profile) (line : Text) (landing : jumps.Landing)
        → AllByRecursion (IsWholeLine line) (line_findings (draft_of by line) landing) }
{}

/// About a line that is too long nothing else is said, and this is said about the whole line.
#[tactic(auto, using(crate::proofs::Lengths::reported_whole))]
pub fn long_lines_are_reported_as_a_whole()
    ensures { (by : profiles.Profile) (line : Text) (landing : jumps.Landing)
        → most_bytes by < length line → line_findings (draft_of by line) landing ≡ spot LineTooLong [] 0 (length line) ∷ [] }
{}

/// The joined lines of a file are what its kept lines give, one after another, so that a place
/// in a joined line is one among the bytes of the kept lines.
#[tactic(auto, using(crate::proofs::Joining::all_joined))]
pub fn joined_lines_are_kept_lines()
    ensures { (by : profiles.Profile) (bytes : Text) → AreJoined by bytes }
{}

/// The line of the file that is found for a byte of the kept lines has that byte at the column that is reported,
/// and after it the bytes that follow.
#[tactic(auto, using(crate::proofs::Showing::all_shown))]
pub fn places_show_their_bytes()
    ensures { (bytes : Text) (at : ℕ) → at < length (kept_text (numbered_lines bytes)) → IsShown bytes at }
{}

/// So many bytes of the kept lines, from a byte on, are in the file at the place that is reported for them, up to
/// the end of the line that has the first of them.
#[tactic(auto, using(crate::proofs::Placing::all_placed))]
pub fn places_are_in_their_lines()
    ensures { (bytes : Text) (at size : ℕ) → length bytes < 2 ^ 32 - 1 → at < length (kept_text (numbered_lines bytes)) → 0 < size
        → IsFoundIn bytes (take size (drop at (kept_text (numbered_lines bytes)))) (place_in (kept_lines bytes) at size) }
{}

/// A finding that is reported with a text of its file (a key, the letters before a quote, or what is not a token)
/// is there: the line with its number has the text at its columns, all of it unless the rule goes on in another
/// line.
#[tactic(auto, using(crate::proofs::FilePlacement::all_in_file))]
pub fn findings_are_in_their_lines()
    ensures { (by : profiles.Profile) (file : files.SourceFile) → length file.bytes < 2 ^ 32 - 1
        → AllByRecursion (IsInFile file.bytes) (placed_findings by file) }
{}

/// If a line is still open at its file's end, that is the last finding, and it is at the `\\` at the end of the
/// last line that is not a comment.
#[tactic(auto, using(crate::proofs::Opening::all_open))]
pub fn open_lines_are_reported_at_their_backslash()
    ensures { (by : profiles.Profile) (file : files.SourceFile) (number : ℕ) → length file.bytes < 2 ^ 32 - 1 → abandoned by file.bytes ≡ None
        → (joined_lines by file.bytes).open_at ≡ Some number → EndsOpen file.bytes (placed_findings by file) }
{}

/// About a file that is given up nothing else is said, and this is said about the whole of the first line that is
/// too long.
#[tactic(auto, using(crate::proofs::AbandonedFiles::all_reported))]
pub fn abandoned_files_are_reported_for_one_line()
    ensures { (by : profiles.Profile) (file : files.SourceFile) (number : ℕ) → length file.bytes < 2 ^ 32 - 1 → abandoned by file.bytes ≡ Some number
        → IsReportedForOneLine file.bytes (placed_findings by file) }
{}
