//! Laws that show the nearest name to be the one that its words say, and names that are found.
//!
//! Each function has an empty body, and its contract is a law of the definitions.
ghost use Rattle.std.specs.Prelude.{◌≡◌, Bool, ◌<◌, ◌≤◌, ◌++◌, All, IfSome, List, [], ◌∷◌, None, Some, codes, false, true};
ghost use Rattle.std.specs.List.{list_any};
ghost use Rattle.text_bytes.specs.Text.{Text};
ghost use Rattle.text_tables.specs.Texts.{is_among};
ghost use Rattle.file_messages.specs.declared.message.MessageKind.TheVariants.{BadSubstitution, BadValue, UnknownBuiltin, UnknownKey};
ghost use Rattle.rule_parts.specs.Options.{is_known_option};
ghost use Rattle.engine_formats.specs.Meant.{meant_as, option_names};
ghost use Rattle.engine_formats.specs.Near.{distance, farthest, nearest};
ghost use Rattle.file_catalogue.specs.declared.remark.Remark.TheVariants as about;

/// The name that is found is one of the names, so that what holds of all of them holds of it; it is near the word, and
/// none of them is nearer. None is found for a word that is one of them; for any other word none is found only if all
/// of them are too far from it.
pub fn the_nearest_name_is_found()
    ensures one { (test : Text → Bool) (names : List Text) (word : Text) → All (λ name. test name ≡ true) names
        → IfSome (nearest names word) (λ name. test name ≡ true) }
    ensures near { (names : List Text) (word : Text) → IfSome (nearest names word) (λ name. distance name word ≤ farthest word) }
    ensures least { (names : List Text) (word : Text)
        → IfSome (nearest names word) (λ name. All (λ other. distance name word ≤ distance other word) names) }
    ensures known { (names : List Text) (word : Text) → is_among names word ≡ true → nearest names word ≡ None }
    ensures far { (names : List Text) (word : Text) → is_among names word ≡ false → nearest names word ≡ None
        → All (λ name. farthest word < distance name word) names }
{}

/// Each name of an option that may have been meant is that of an option that is known: it is one as it stands, or with a
/// value.
pub fn options_that_are_meant_are_known()
    ensures { All (λ name. list_any (λ value. is_known_option (name ++ value)) ([] ∷ codes "=" ∷ codes "=none" ∷ []) ≡ true) option_names }
{}

/// Unknown names for which a known one is found, and one that is near none.
pub fn some_unknown_names_are_found()
    ensures letter { meant_as (about.Message UnknownKey) (codes "SYMLNK") ≡ Some (codes "SYMLINK") }
    ensures key { meant_as (about.Message UnknownKey) (codes "ATTRZ") ≡ Some (codes "ATTRS") }
    ensures case { meant_as (about.Message UnknownKey) (codes "env") ≡ Some (codes "ENV") }
    ensures none { meant_as (about.Message UnknownKey) (codes "FOO") ≡ None }
    ensures builtin { meant_as (about.Message UnknownBuiltin) (codes "kmd load") ≡ Some (codes "kmod") }
    ensures option { meant_as (about.Message BadValue) (codes "wach") ≡ Some (codes "watch") }
    ensures sign { meant_as (about.Message BadSubstitution) (codes "$$ev$env{A}/$nam") ≡ Some (codes "name") }
{}
