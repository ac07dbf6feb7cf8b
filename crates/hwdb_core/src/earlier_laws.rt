//! What is true of the lines that come before another one. Each law is the contract of a function with an empty body.
ghost use Rattle.std.specs.Prelude.{◌≡◌, ◌∷◌, ◌++◌, List, false, fold, true};
ghost use Rattle.std.specs.List.{list_any};
ghost use Rattle.text_bytes.specs.Lines.{NumberedLine, numbered_lines};
ghost use Rattle.text_bytes.specs.Text.{Text};
ghost use Rattle.text_tables.specs.Texts.{is_among};
ghost use Rattle.hwdb_core.specs.Earlier.{ends_record, is_match, is_property, nothing};
ghost use Rattle.hwdb_core.specs.Lints.{after_line, database_lints, line_lints, lints_from};

/// What is reported for a line is found by the lines before it in its file, and comes after what is reported for these.
pub fn lines_are_looked_at_by_those_before_them()
    ensures { (bytes : Text) (earlier later : List NumberedLine) (l : NumberedLine) → numbered_lines bytes ≡ earlier ++ l ∷ later
        → database_lints bytes ≡ lints_from nothing earlier ++ (line_lints (fold after_line nothing earlier) l
        ++ lints_from (after_line (fold after_line nothing earlier) l) later) }
{}

/// A match is given twice if an earlier line of its file is the same match, and only then.
pub fn all_earlier_matches_count()
    ensures { (earlier : List NumberedLine) (text : Text) → is_among (fold after_line nothing earlier).matches text ≡ list_any (is_match text) earlier }
{}

/// A key is given twice if an earlier line has it since the last match or empty line, and only then.
pub fn earlier_keys_of_the_record_count()
    ensures { (earlier properties : List NumberedLine) (l : NumberedLine) (key : Text) → ends_record l ≡ true → list_any ends_record properties ≡ false
        → is_among (fold after_line nothing (earlier ++ l ∷ properties)).keys key ≡ list_any (is_property key) properties }
{}
