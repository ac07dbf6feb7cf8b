//! Laws of files that were mended, each the contract of a function with an empty body.
ghost use Rattle.std.specs.Prelude.{◌≡◌, ◌≤◌, ◌⊎◌, ◌∷◌, ◌++◌, ℕ, List, None};
ghost use Rattle.std.specs.List.{AllByRecursion};
ghost use Rattle.text_bytes.specs.Text.{Text};
ghost use Rattle.text_bytes.specs.declared.profile.Profile.TheVariants.{Manual};
ghost use Rattle.text_bytes.specs.declared.source_file.SourceFile as files;
ghost use Rattle.rule_tokens.specs.Grammar.{Placed, answers};
ghost use Rattle.rule_tokens.specs.Lines.{items_of};
ghost use Rattle.rule_core.specs.Rules.{file_messages, file_rules};
ghost use Rattle.rule_places.specs.Gaps.{is_well_spaced};
ghost use Rattle.rule_places.specs.FormatLaws.{but_style, Correspond, IsAsItWas, IsMended, IsRespaced, IsSilent, StaysIfIdle, is_silent, with_bytes};
ghost use Rattle.rule_places.specs.Mended.{mended};
ghost use Rattle.rule_places.specs.Proposed.{landed_in};
ghost use Rattle.rule_places.specs.Rewritten.{written_between};
ghost use Rattle.rule_places.specs.Stretches.{stretches};
ghost use Rattle.rule_places.specs.WholeLines.{whole_lines};

/// The commas and blanks of a line are as they should be if and only if no style message is about them: not one of
/// those that udev's own readings add, either.
#[tactic(auto, using(crate::proofs::Silence::silent))]
pub fn what_is_reported_is_mended()
    ensures { (text : Text) (tokens : List Placed) → is_silent text tokens ≡ is_well_spaced text tokens }
{}

/// A file without a message about commas and blanks stays as it is.
#[tactic(auto, using(crate::proofs::Silence::silent_files_stay))]
pub fn files_without_such_messages_stay()
    ensures { (bytes : Text) → AllByRecursion (λ x. IsSilent x.0.text x.0.read) (landed_in bytes) → mended bytes ≡ bytes }
{}

/// A file in which nothing is to mend stays as it is.
#[tactic(auto, using(crate::proofs::Staying::files_stay))]
pub fn mended_files_stay()
    ensures { (bytes : Text) → AllByRecursion IsMended (landed_in bytes) → mended bytes ≡ bytes }
{}

/// What was mended is not changed again.
#[tactic(auto, using(crate::proofs::Twice::mended_twice))]
pub fn nothing_is_mended_twice()
    ensures { (bytes : Text) → mended (mended bytes) ≡ mended bytes }
{}

/// A file that is changed at all has nothing left to mend.
#[tactic(auto, using(crate::proofs::Twice::none_left))]
pub fn changed_files_are_mended_whole()
    ensures { (bytes : Text) → (mended bytes ≡ bytes) ⊎ AllByRecursion IsMended (landed_in (mended bytes)) }
{}

/// Each joined line keeps its number and what becomes of its jump and its label; it keeps its bytes unless something
/// was to mend in it, and then its tokens, without a fault.
#[tactic(auto, using(crate::proofs::Twice::lines_stay))]
pub fn joined_lines_say_the_same()
    ensures { (bytes : Text) → Correspond IsAsItWas (landed_in bytes) (landed_in (mended bytes)) }
{}

/// A file keeps the number of its lines, and each that is a comment or has nothing but blanks stays as it is.
#[tactic(auto, using(crate::proofs::Twice::idle_lines_stay))]
pub fn comments_stay()
    ensures { (bytes : Text) → Correspond StaysIfIdle (whole_lines bytes) (whole_lines (mended bytes)) }
{}

/// A file that was mended has the same rules, with the same numbers of their lines.
#[tactic(auto, using(crate::proofs::SameRules::rules_stay))]
pub fn rules_stay()
    ensures { (f : files.SourceFile) → file_rules Manual (with_bytes f (mended f.bytes)) ≡ file_rules Manual f }
{}

/// The messages about a file that was mended are the same but those on style.
#[tactic(auto, using(crate::proofs::SameRules::messages_stay))]
pub fn other_messages_stay()
    ensures { (f : files.SourceFile) → but_style (file_messages Manual (with_bytes f (mended f.bytes))) ≡ but_style (file_messages Manual f) }
{}

/// A line that is tokens to its end still has its tokens once its commas and blanks are mended, and these are then as
/// they should be.
#[tactic(auto, using(crate::proofs::Respacing::lines_respaced))]
pub fn mended_lines_keep_their_tokens()
    ensures { (line : Text) (t : Placed) (tokens : List Placed) → items_of line ≡ answers (t ∷ tokens) None → IsRespaced line (t ∷ tokens) }
{}

/// Wherever such a line is cut, what is written of its parts is what is written of it whole: so its bytes and its commas
/// stay in their order, and none is lost where the line goes on in another line of its file.
#[tactic(auto, using(crate::proofs::Cuts::line_cut))]
pub fn parts_of_lines_make_the_whole()
    ensures { (line : Text) (t : Placed) (tokens : List Placed) (a b c : ℕ) → items_of line ≡ answers (t ∷ tokens) None → a ≤ b → b ≤ c
        → written_between line (stretches line (t ∷ tokens)) a b ++ written_between line (stretches line (t ∷ tokens)) b c
        ≡ written_between line (stretches line (t ∷ tokens)) a c }
{}
