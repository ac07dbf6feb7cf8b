//! Laws that show the definitions cited by the other contracts to be right.
//!
//! Each function has an empty body, and its contract is a law of the definitions.
ghost use Rattle.std.specs.Prelude.{◌≡◌, ◌&&◌, ◌||◌, not, false, filter};
ghost use Rattle.text_bytes.specs.declared.source_file.SourceFile.{SourceFile};
ghost use Rattle.text_tables.specs.Texts.{is_among};
ghost use Rattle.engine_sessions.specs.declared.line.Line.{Line};
ghost use Rattle.file_catalogue.specs.Catalogue.{code_of};
ghost use Rattle.engine_checks.specs.Codes.{has_comments};
ghost use Rattle.engine_checks.specs.Files.{database_found, database_reported, ignored_by, rules_found, rules_reported};
ghost use Rattle.engine_checks.specs.Reported.{is_about_style};

/// If comments don't count, what was found is reported, except for the codes that are ignored, and for style if
/// that is left out.
pub fn ignored_codes_alone_are_left_out()
    ensures rules { (line : Line) (file : SourceFile) → has_comments (ignored_by line) ≡ false
        → rules_reported line file
        ≡ filter (λ d. (line.style || not (is_about_style d.remark)) && not (is_among (ignored_by line) (code_of d.remark))) (rules_found line file) }
    ensures database { (line : Line) (file : SourceFile) → has_comments (ignored_by line) ≡ false
        → database_reported line file
        ≡ filter (λ d. (line.style || not (is_about_style d.remark)) && not (is_among (ignored_by line) (code_of d.remark))) (database_found line file) }
{}
