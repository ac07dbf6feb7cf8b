//! What is true of texts and names as they are added and removed, in terms of what is found in them.
//!
//! Each function here is empty: its contract is the law.
ghost use Rattle.std.specs.Prelude.{◌≡◌, ◌∷◌, ◌++◌, [], ◌||◌, ◌&&◌, not, true, false, if◌then◌else◌, is_some, Some, None, List};
ghost use Rattle.text_bytes.specs.Text.{Text};
ghost use Rattle.text_tables.specs.Texts.{same_text, is_among, with_text, without_text};
ghost use Rattle.text_tables.specs.Pairs.{names, named, value_of, with_value, without_name};

/// What was added is there, and so is what was there before.
pub fn added_texts_are_there()
    ensures { (texts : List Text) (text other : Text) → is_among (with_text texts text) other ≡ (is_among texts other || same_text other text) }
{}

/// A text that is new follows the others, and one that is there changes nothing.
pub fn new_texts_come_last()
    ensures new { (texts : List Text) (text : Text) → is_among texts text ≡ false → with_text texts text ≡ texts ++ text ∷ [] }
    ensures there { (texts : List Text) (text : Text) → is_among texts text ≡ true → with_text texts text ≡ texts }
{}

/// What was removed is not there, and all else is.
pub fn removed_texts_are_gone()
    ensures { (texts : List Text) (text other : Text) → is_among (without_text texts text) other ≡ (not (same_text other text) && is_among texts other) }
{}

/// A name that was set has its value, and other names keep theirs.
pub fn set_names_have_their_values<V>()
    ensures { (pairs : List (Text × V)) (name : Text) (value : V) (other : Text)
        → value_of (with_value pairs name value) other ≡ (if same_text other name then Some value else value_of pairs other) }
{}

/// A name that is new follows the others.
pub fn new_names_come_last<V>()
    ensures { (pairs : List (Text × V)) (name : Text) (value : V) → named pairs name ≡ false → with_value pairs name value ≡ pairs ++ (name, value) ∷ [] }
{}

/// A name that is there takes another value in its place: the names stay as they were, in their order.
pub fn set_names_stay_in_place<V>()
    ensures { (pairs : List (Text × V)) (name : Text) (value : V) → named pairs name ≡ true → names (with_value pairs name value) ≡ names pairs }
{}

/// A name that was removed has no value, and other names keep theirs.
pub fn removed_names_are_gone<V>()
    ensures { (pairs : List (Text × V)) (name other : Text)
        → value_of (without_name pairs name) other ≡ (if same_text other name then None else value_of pairs other) }
{}

/// A name is there if and only if it has a value.
pub fn names_have_values<V>()
    ensures { (pairs : List (Text × V)) (name : Text) → named pairs name ≡ is_some (value_of pairs name) }
{}
