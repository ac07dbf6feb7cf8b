//! What lints change in what is reported.
//!
//! Each function has an empty body, and its contract is a law of the definitions.
ghost use Rattle.std.specs.Prelude.{◌≡◌, ◌&&◌, ◌||◌, not, true, false, [], filter};
ghost use Rattle.text_bytes.specs.declared.source_file.SourceFile.{SourceFile};
ghost use Rattle.text_tables.specs.Texts.{is_among};
ghost use Rattle.engine_sessions.specs.declared.line.Line.{Line};
ghost use Rattle.file_catalogue.specs.Catalogue.{code_of};
ghost use Rattle.engine_checks.specs.Codes.{has_comments};
ghost use Rattle.engine_checks.specs.Files.{asked_by, database_reported, ignored_by, ignores_counted, rules_found, rules_reported};
ghost use Rattle.engine_checks.specs.Laws.{database_lints_in, lints_among, lints_in, messages_among, messages_in};
ghost use Rattle.engine_checks.specs.Reported.{is_about_style, is_reported, is_silenced};

/// Lints are reported if and only if they are asked for, in their order, except for those that the line or a
/// comment silences; in rules files and in those of a database.
pub fn lints_are_reported_where_asked()
    ensures asked { (line : Line) (file : SourceFile) → line.lint ≡ true
        → lints_among (rules_reported line file)
        ≡ filter (λ d. not (is_among (ignored_by line) (code_of d.remark))
        && not (is_silenced (ignores_counted (asked_by line) file) d)) (lints_in line file) }
    ensures unasked { (line : Line) (file : SourceFile) → line.lint ≡ false → lints_among (rules_reported line file) ≡ [] }
    ensures database { (line : Line) (file : SourceFile) → line.lint ≡ true
        → lints_among (database_reported line file)
        ≡ filter (λ d. not (is_among (ignored_by line) (code_of d.remark))
        && not (is_silenced (ignores_counted (asked_by line) file) d)) (database_lints_in line file) }
    ensures no_database { (line : Line) (file : SourceFile) → line.lint ≡ false → lints_among (database_reported line file) ≡ [] }
{}

/// Lints change nothing in which messages are reported. If they are not asked for and comments don't count, all
/// that is reported is messages.
pub fn messages_are_reported_as_without_lints()
    ensures messages { (line : Line) (file : SourceFile)
        → messages_among (rules_reported line file)
        ≡ filter (is_reported (record (asked_by line) { lint = false }) (ignores_counted (asked_by line) file)) (messages_in line file) }
    ensures unasked { (line : Line) (file : SourceFile) → line.lint ≡ false → has_comments (ignored_by line) ≡ false
        → rules_reported line file
        ≡ filter (λ d. (line.style || not (is_about_style d.remark)) && not (is_among (ignored_by line) (code_of d.remark))) (messages_in line file) }
{}

/// If comments count, lints are found whether they are reported or not, so that a code in a comment that silences
/// one is in use.
pub fn comments_count_for_lints()
    ensures { (line : Line) (file : SourceFile) → has_comments (ignored_by line) ≡ true → lints_among (rules_found line file) ≡ lints_in line file }
{}
