//! What is true of the status of `verify`.
//!
//! Each function here is empty: its contract is the law.
ghost use Rattle.std.specs.Prelude.{◌≡◌, List, [], false, flat_map, if◌then◌else◌, map, true};
ghost use Rattle.std.specs.List.{list_any};
ghost use Rattle.text_bytes.specs.declared.source_file.SourceFile.{SourceFile};
ghost use Rattle.text_tables.specs.Texts.{is_among};
ghost use Rattle.rule_core.specs.Rules.{set_of_as};
ghost use Rattle.engine_sessions.specs.declared.line.Format.{Format};
ghost use Rattle.engine_sessions.specs.declared.line.Line.{Line};
ghost use Rattle.engine_reports.specs.Outcomes.{hold_few_tokens};
ghost use Rattle.engine_formats.specs.Formats.{formatted, is_report};
ghost use Rattle.engine_checks.specs.Files.{rules_reported};
ghost use Rattle.engine_checks.specs.Outcomes.{rules_checks};

/// With whatever lints, style and ignored codes, the status is 1 if something is reported under the name of a file, and else 0, of
/// files that have no more rules than they may. The format does not change the status, and one for people does not change the
/// count of files either. A report for programs is all that is written.
pub fn what_is_reported_makes_the_status()
    ensures status { (line : Line) (files : List SourceFile) → hold_few_tokens (set_of_as line.profile files).rules ≡ true
        → (rules_checks line files).status
        ≡ (if list_any (λ file. is_among (map (λ d. d.name) (flat_map (rules_reported line) files)) file.name) files then 1 else 0) }
    ensures format { (line : Line) (format : Format) (files : List SourceFile)
        → (rules_checks (record line { format = format }) files).status ≡ (rules_checks line files).status }
    ensures count { (line : Line) (format : Format) (files : List SourceFile) → is_report format ≡ false → is_report line.format ≡ false
        → (rules_checks (record line { format = format }) files).output ≡ (rules_checks line files).output }
    ensures report { (line : Line) (files : List SourceFile) → is_report line.format ≡ true
        → hold_few_tokens (set_of_as line.profile files).rules ≡ true
        → ((rules_checks line files).output ≡ formatted line.format (flat_map (rules_reported line) files)) × ((rules_checks line files).messages ≡ []) }
{}
