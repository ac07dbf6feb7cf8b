//! Examples of files and of what they become.
ghost use Rattle.std.specs.Prelude.{◌≡◌, ◌∷◌, ◌++◌, [], codes};
ghost use Rattle.rule_places.specs.FormatLaws.{text};
ghost use Rattle.rule_places.specs.Mended.{mended};

/// Commas and blanks of one line. The gap that is as it should be keeps its blanks.
pub fn commas_and_blanks_are_mended()
    ensures { mended (codes "KERNEL==\"a\" , TAG==\"b\",TAG+=\"c\"  NAME=\"d\",  TAG+=\"e\",\n")
        ≡ codes "KERNEL==\"a\", TAG==\"b\", TAG+=\"c\", NAME=\"d\",  TAG+=\"e\"\n" }
{}

/// A rule of several lines with a comment among them: each line keeps its indentation and its backslash.
pub fn continued_lines_keep_their_indentation()
    ensures { mended (text (
        codes "# mine" ∷ codes "KERNEL==\"a\" \\" ∷ codes "    # a comment, it stays" ∷ codes "  , TAG==\"b\",\\" ∷ codes "\tTAG+=\"c\" , \\" ∷ codes "" ∷ []))
        ≡ text (
        codes "# mine" ∷ codes "KERNEL==\"a\", \\" ∷ codes "    # a comment, it stays" ∷ codes "  TAG==\"b\", \\" ∷ codes "\tTAG+=\"c\"\\" ∷ codes "" ∷ []) }
{}

/// A line with a fault stays as it is, and so do a rule of which nothing is said and what is open at the end.
pub fn other_lines_stay()
    ensures { mended (text (
        codes "KERNEL==\"a\",TAG+=x" ∷ codes "KERNEL==\"a\",   TAG+=\"b\" " ∷ codes "KERNEL==\"a\"TAG+=\"b\"" ∷ codes "TAG+=\"c\",TAG+=\"d\" \\" ∷ []))
        ≡ text (
        codes "KERNEL==\"a\",TAG+=x" ∷ codes "KERNEL==\"a\",   TAG+=\"b\" " ∷ codes "KERNEL==\"a\", TAG+=\"b\"" ∷ codes "TAG+=\"c\",TAG+=\"d\" \\" ∷ []) }
{}
