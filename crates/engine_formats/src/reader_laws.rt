//! Laws of the formats for programs: they are read as they are meant.
//!
//! Each function has an empty body, and its contract is a law of the definitions.
ghost use Rattle.std.specs.Prelude.{◌≡◌, ◌-◌, ◌^◌, ◌<◌, ◌≤◌, ◌==◌, false, List, [], ◌∷◌, ◌++◌, All, Some, codes, drop, length, map, take};
ghost use Rattle.std.specs.List.{list_any};
ghost use Rattle.text_bytes.specs.Text.{Text};
ghost use Rattle.text_bytes.specs.Lines.{lines};
ghost use Rattle.text_bytes.specs.Names.{colon, slash};
ghost use Rattle.text_bytes.specs.Texts.{begins_with};
ghost use Rattle.text_tables.specs.Texts.{AreOnce, is_among};
ghost use Rattle.json.specs.Json.{document};
ghost use Rattle.engine_sessions.specs.declared.line.Format.{Format};
ghost use Rattle.file_catalogue.specs.Catalogue.{remarks};
ghost use Rattle.engine_formats.specs.Diagnostics.{DiagnosticValue};
ghost use Rattle.engine_formats.specs.Formats.{formatted};
ghost use Rattle.engine_formats.specs.Fingerprints.{fingerprinted, fingerprints, line_part, mark_of};
ghost use Rattle.text_json.specs.Values.{array_of};
ghost use Rattle.engine_formats.specs.Json.{gitlab_issue, json_object};
ghost use Rattle.engine_formats.specs.Readers.{HasPlace, github_read, message_read};
ghost use Rattle.engine_formats.specs.Sarif.{log_object, message_text};
ghost use Rattle.engine_formats.specs.Uris.{uri_of, uri_path};

/// JSON has one line for each diagnostic, and a reader of JSON reads from it the object of that
/// diagnostic.
pub fn each_json_line_is_an_object()
    ensures { (diagnostics : List DiagnosticValue) → All HasPlace diagnostics
        → map document (lines (formatted Format.Json diagnostics)) ≡ map (λ d. Some (json_object d)) diagnostics }
{}

/// A report for GitLab is one line, from which a reader of JSON reads the array of the issues.
pub fn a_gitlab_report_is_an_array()
    ensures { (diagnostics : List DiagnosticValue) → All HasPlace diagnostics
        → map document (lines (formatted Format.Gitlab diagnostics)) ≡ Some (array_of (map gitlab_issue (fingerprinted diagnostics))) ∷ [] }
{}

/// A log of SARIF is one line, from which a reader of JSON reads the log with a rule for each remark and a result for each
/// diagnostic.
pub fn a_sarif_log_is_an_object()
    ensures { (diagnostics : List DiagnosticValue) → All HasPlace diagnostics
        → map document (lines (formatted Format.Sarif diagnostics)) ≡ Some (log_object remarks (fingerprinted diagnostics)) ∷ [] }
{}

/// A message of a log is read back as it was, and so is a path: a reader of references takes `%` and two digits as a byte. Only a
/// path that begins at the root has a scheme before it.
pub fn logs_are_read_back()
    ensures message { (text : Text) → message_read (message_text text) ≡ text }
    ensures path { (path : Text) → All (λ b. b < 256) path → github_read (uri_path path) ≡ path }
    ensures root { (path : Text) → uri_of (slash ∷ path) ≡ codes "file://" ++ uri_path (slash ∷ path) }
    ensures relative { (path : Text) → begins_with slash path ≡ false → uri_of path ≡ uri_path path }
    ensures scheme { (path : Text) → All (λ b. b < 256) path → list_any (λ b. b == colon) (uri_path path) ≡ false }
{}

/// No two diagnostics of a report have the same fingerprint, as a reader of the report sees it.
pub fn fingerprints_differ()
    ensures { (diagnostics : List DiagnosticValue) → length diagnostics < 2 ^ 64 → AreOnce (fingerprints diagnostics) }
{}

/// A fingerprint comes from the marks alone, not from the numbers of lines and columns. Diagnostics that come
/// before others change none of their fingerprints, unless they have a mark of these.
pub fn fingerprints_stay()
    ensures marks { (old new : List DiagnosticValue) → map mark_of old ≡ map mark_of new → fingerprints old ≡ fingerprints new }
    ensures others { (before diagnostics : List DiagnosticValue) → All (λ d. is_among (map mark_of before) (mark_of d) ≡ false) diagnostics
        → fingerprints (before ++ diagnostics) ≡ fingerprints before ++ fingerprints diagnostics }
{}

/// What a fingerprint has of a line tells a line of at most 200 bytes from every other. Longer lines that it has alike begin and
/// end alike and are as long. It has at most 222 bytes of a line, however long that is.
pub fn fingerprints_tell_lines_apart()
    ensures short { (one other : Text) → length one ≤ 200 → line_part one ≡ line_part other → one ≡ other }
    ensures long { (one other : Text) → 200 < length one → 200 < length other → length one < 2 ^ 64 → length other < 2 ^ 64
        → line_part one ≡ line_part other
        → (take 100 one ≡ take 100 other) × (length one ≡ length other) × (drop (length one - 100) one ≡ drop (length other - 100) other) }
    ensures bounded { (source : Text) → length source < 2 ^ 64 → length (line_part source) ≤ 222 }
{}
