//! Laws that show the definitions of what comments silence to be right.
//!
//! Each function has an empty body, and its contract is a law of the definitions.
ghost use Rattle.std.specs.Prelude.{◌≡◌, ◌<◌, ◌-◌, ◌^◌, not, true, false, All, List, filter, filter_map, length, option_map};
ghost use Rattle.text_bytes.specs.Lines.{lines};
ghost use Rattle.text_bytes.specs.declared.profile.Profile.{Profile};
ghost use Rattle.text_bytes.specs.declared.source_file.SourceFile.{SourceFile};
ghost use Rattle.text_tables.specs.Texts.{is_among};
ghost use Rattle.engine_sessions.specs.declared.line.Line.{Line};
ghost use Rattle.engine_formats.specs.Diagnostics.{DiagnosticValue};
ghost use Rattle.file_catalogue.specs.Catalogue.{code_of};
ghost use Rattle.engine_checks.specs.Codes.{has_comments};
ghost use Rattle.engine_checks.specs.Files.{asked_by, database_found, database_reported, file_text, ignored_by, rules_found, rules_reported};
ghost use Rattle.engine_checks.specs.Ignores as ignores;
ghost use Rattle.engine_checks.specs.Ignores.{ignores_in, starts_of};
ghost use Rattle.engine_checks.specs.Laws.{IsAboutNext, IsInLine, IsLeftOut, IsSaidOf, found_among, remarks_among};
ghost use Rattle.engine_checks.specs.Reported.{Asked, comment_diagnostic, is_reported, remark_on};

/// If comments count, what was found is reported in its order, except for lints and style if these are left out,
/// and for what the line or a comment silences; nothing else is left out.
pub fn found_is_reported_or_silenced()
    ensures rules { (line : Line) (file : SourceFile) → has_comments (ignored_by line) ≡ true
        → found_among (rules_reported line file)
        ≡ filter (is_reported (asked_by line) (ignores_in line.profile file)) (rules_found line file) }
    ensures database { (line : Line) (file : SourceFile) → has_comments (ignored_by line) ≡ true
        → found_among (database_reported line file)
        ≡ filter (is_reported (asked_by line) (ignores_in line.profile file)) (database_found line file) }
    ensures silenced { (asked : Asked) (comments : List ignores.Ignore) (d : DiagnosticValue)
        → is_reported asked comments d ≡ false → IsLeftOut asked comments d }
    ensures reported { (asked : Asked) (comments : List ignores.Ignore) (d : DiagnosticValue)
        → is_reported asked comments d ≡ true → IsLeftOut asked comments d → ⊥ }
{}

/// Each code in a comment silences something that was found, or is reported as I1 or I2, and only then; except for
/// these codes if the line ignores them.
pub fn comments_silence_or_are_reported()
    ensures rules { (line : Line) (file : SourceFile) → has_comments (ignored_by line) ≡ true
        → remarks_among (rules_reported line file) ≡ filter (λ d. not (is_among (ignored_by line) (code_of d.remark)))
        (filter_map (λ i. option_map (comment_diagnostic (file_text line file) i) (remark_on (rules_found line file) i)) (ignores_in line.profile file)) }
    ensures database { (line : Line) (file : SourceFile) → has_comments (ignored_by line) ≡ true
        → remarks_among (database_reported line file) ≡ filter (λ d. not (is_among (ignored_by line) (code_of d.remark)))
        (filter_map (λ i. option_map (comment_diagnostic (file_text line file) i) (remark_on (database_found line file) i))
        (ignores_in line.profile file)) }
    ensures said { (found : List DiagnosticValue) (ignore : ignores.Ignore) → IsSaidOf found ignore (remark_on found ignore) }
{}

/// The code of a comment is in its line at its columns, without blanks around it.
pub fn codes_are_in_their_comments()
    ensures { (profile : Profile) (file : SourceFile) → length (lines file.bytes) < 2 ^ 32 → All (λ line. length line < 2 ^ 32 - 1) (lines file.bytes)
        → All (IsInLine file.bytes) (ignores_in profile file) }
{}

/// A comment on the next rule is about the first line after its own whose number a rule has, or in a database about
/// the first that is not a comment; it is about none if none follows.
pub fn comments_are_about_what_follows()
    ensures { (profile : Profile) (file : SourceFile) → All (IsAboutNext (starts_of profile file.kind file.bytes)) (ignores_in profile file) }
{}
