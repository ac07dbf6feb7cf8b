//! What is true of positions, of changes, and of the documents that are open.
//!
//! Each function here is empty: its contract is the law.
ghost use Rattle.std.specs.Prelude.{◌≡◌, ◌≤◌, ◌<◌, ◌+◌, ◌-◌, ℕ, List, ◌∷◌, [], None, Some, true, false, if◌then◌else◌};
ghost use Rattle.std.specs.Prelude.{codes, drop, flat_map, length, slice_index, take};
ghost use Rattle.std.specs.Char.Escape.{encode_utf16};
ghost use Rattle.std.specs.Str.{IsUtf8, encode_utf8_all};
ghost use Rattle.text_bytes.specs.Text.{Text};
ghost use Rattle.text_tables.specs.Texts.{same_text};
ghost use Rattle.text_tables.specs.Pairs.{value_of, with_value};
ghost use Rattle.lsp_messages.specs.ChangeValues.{ChangeValue};
ghost use Rattle.lsp_messages.specs.TextChanges.{all_changed, changed};
ghost use Rattle.lsp_messages.specs.Documents.{has_whole, may_be_held, text_after, with_document};
ghost use Rattle.lsp_messages.specs.Examples.{two_rows};
ghost use Rattle.lsp_messages.specs.Places.{IsPlace};
ghost use Rattle.lsp_messages.specs.Rows.{line_of, offset_of, position_of, start_of};
ghost use Rattle.lsp_messages.specs.Starts.{ends_row, starts};
ghost use Rattle.lsp_messages.specs.Units.{fitting, units};
ghost use Rattle.lsp_messages.specs.declared.counting.Encoding.{Encoding};
ghost use Rattle.lsp_messages.specs.declared.counting.Encoding.TheVariants.{Utf8, Utf16};
ghost use Rattle.lsp_messages.specs.declared.documents.Document.{Document};
ghost use Rattle.lsp_messages.specs.declared.documents.Document.TheVariants.{OutOfStep};
ghost use Rattle.lsp_messages.specs.declared.rows.Position.{Position};

/// A place is found again by its position, in a text of at most 64 MiB.
pub fn places_come_back()
    ensures { (encoding : Encoding) (text : Text) (offset : ℕ) → length text ≤ 67108864 → IsPlace text offset
        → offset_of encoding text (position_of encoding text offset) ≡ offset }
{}

/// Each position names a place: none within a character, and none between a carriage return and its newline.
pub fn positions_name_places()
    ensures { (encoding : Encoding) (text : Text) (position : Position) → IsPlace text (offset_of encoding text position) }
{}

/// The row of a place begins at it or before it, and no row ends in between; and each row but the first begins where one
/// ends.
pub fn places_are_in_their_rows()
    ensures begun { (text : Text) (offset : ℕ) → offset ≤ length text → start_of text (line_of text offset) ≤ offset }
    ensures unbroken { (text : Text) (offset : ℕ) → offset ≤ length text → (k : ℕ) → start_of text (line_of text offset) ≤ k → k < offset
        → ends_row (slice_index text k) (drop (k + 1) text) ≡ false }
    ensures after_ends { (text : Text) (line : ℕ) → 0 < line → line ≤ length (starts text)
        → ends_row (slice_index text (start_of text line - 1)) (drop (start_of text line) text) ≡ true }
{}

/// What fits into so many units has no more of them, and nothing longer does.
pub fn most_that_fits()
    ensures within { (encoding : Encoding) (count : ℕ) (text : Text) → units encoding (take (fitting encoding count text) text) ≤ count }
    ensures longest { (encoding : Encoding) (count : ℕ) (text : Text) (len : ℕ) → len ≤ length text → units encoding (take len text) ≤ count
        → len ≤ fitting encoding count text }
{}

/// Units are those of the characters: in UTF-8 the bytes, and in UTF-16 its units.
pub fn units_are_those_of_characters()
    ensures utf8 { (text : Text) → IsUtf8 text → units Utf8 text ≡ length text }
    ensures utf16 { (characters : List ℕ)
        → units Utf16 (encode_utf8_all characters) ≡ length (flat_map encode_utf16 characters) }
{}

/// A change of UTF-8 by UTF-8 is UTF-8: no character is cut.
pub fn changes_keep_utf8()
    ensures { (encoding : Encoding) (text : Text) (change : ChangeValue) → IsUtf8 text → IsUtf8 change.text → IsUtf8 (changed encoding text change) }
{}

/// No text in place of nothing changes nothing.
pub fn empty_changes_change_nothing()
    ensures { (encoding : Encoding) (text : Text) (position : Position)
        → changed encoding text (record { range = Some (position, position); text = [] }) ≡ text }
{}

/// A document that was put has its text, unless it may not be held; the others stay as they are.
pub fn documents_are_found()
    ensures own { (documents : List (Text × Document)) (uri : Text) (document : Document)
        → value_of (with_document documents uri document) uri ≡ (if may_be_held (with_value documents uri document) then Some document else None) }
    ensures others { (documents : List (Text × Document)) (uri : Text) (document : Document) (other : Text) → same_text other uri ≡ false
        → value_of (with_document documents uri document) other ≡ value_of documents other }
{}

/// The text of a document that is out of step is known again after a text in place of all, and only then: it is the same after these
/// changes, whatever it was before them.
pub fn whole_texts_bring_documents_back()
    ensures back { (encoding : Encoding) (changes : List ChangeValue) (before : Text) → has_whole changes ≡ true
        → text_after encoding OutOfStep changes ≡ Some (all_changed encoding before changes) }
    ensures away { (encoding : Encoding) (changes : List ChangeValue) → has_whole changes ≡ false → text_after encoding OutOfStep changes ≡ None }
{}

/// Whatever is put, documents stay within the limits.
pub fn documents_are_bounded()
    ensures { (documents : List (Text × Document)) (uri : Text) (document : Document) → may_be_held documents ≡ true
        → may_be_held (with_document documents uri document) ≡ true }
{}

/// A row ends with a newline, with a carriage return, or with both in this order, and one more follows each end.
pub fn rows_of_a_text()
    ensures rows { starts (codes "a\nb\rc\r\nd") ≡ 2 ∷ 4 ∷ 7 ∷ [] }
    ensures none { starts (codes "a") ≡ [] }
    ensures empty_rows { starts (codes "\r\r\n\n") ≡ 1 ∷ 3 ∷ 4 ∷ [] }
{}

/// A text whose second row has U+1F600 between two letters: in UTF-16 it has two units, and in UTF-8 four. A position
/// within it is before it, one past a row's end is there, and one past the last row is the end of the text.
pub fn places_of_a_text()
    ensures utf16 { position_of Utf16 two_rows 8 ≡ record { line = 1; character = 3 } }
    ensures utf8 { position_of Utf8 two_rows 8 ≡ record { line = 1; character = 5 } }
    ensures back { offset_of Utf16 two_rows (record { line = 1; character = 3 }) ≡ 8 }
    ensures within { offset_of Utf16 two_rows (record { line = 1; character = 2 }) ≡ 4 }
    ensures between { position_of Utf16 two_rows 2 ≡ record { line = 0; character = 1 } }
    ensures past_row { offset_of Utf16 two_rows (record { line = 0; character = 9 }) ≡ 1 }
    ensures past_text { offset_of Utf16 two_rows (record { line = 2; character = 0 }) ≡ 9 }
{}

/// A range that ends before it begins is empty where it begins.
pub fn changes_of_a_text()
    ensures replaced { changed Utf16 (codes "ab\ncd")
        (record { range = Some (record { line = 0; character = 1 }, record { line = 1; character = 1 }); text = codes "X" }) ≡ codes "aXd" }
    ensures reversed { changed Utf16 (codes "ab\ncd")
        (record { range = Some (record { line = 1; character = 1 }, record { line = 0; character = 1 }); text = codes "X" }) ≡ codes "ab\ncXd" }
    ensures all { changed Utf16 (codes "ab\ncd") (record { range = None; text = codes "X" }) ≡ codes "X" }
{}
