//! Laws of what is told. Each is the contract of a function with an empty body.
ghost use Rattle.std.specs.Prelude.{◌≡◌, ◌<◌, List, [], ◌∷◌, ◌++◌, All};
ghost use Rattle.std.specs.Str.{IsUtf8};
ghost use Rattle.text_bytes.specs.Text.{Text};
ghost use Rattle.json.specs.Json.{Json};
ghost use Rattle.json.specs.Token as token;
ghost use Rattle.json.specs.Tree.{json_tokens};
ghost use Rattle.text_json.specs.Listed.{member_tokens, value_tokens};
ghost use Rattle.text_json.specs.Told.{told_read, told_text};
ghost use Rattle.text_json.specs.Values.{array_of, object_of};

/// Any bytes are told as UTF-8, and are read back as they were: so no two texts are told as the same string.
pub fn told_texts_are_read_back()
    ensures utf8 { (text : Text) → All (λ b. b < 256) text → IsUtf8 (told_text text) }
    ensures read { (text : Text) → All (λ b. b < 256) text → told_read (told_text text) ≡ text }
{}

/// An object is written as its members in their order.
pub fn an_object_is_its_members()
    ensures { (members : List (Text × Json)) → json_tokens (object_of members)
        ≡ token.begin_object ∷ (member_tokens members ++ token.end_object ∷ []) }
{}

/// An array is written as its values in their order.
pub fn an_array_is_its_values()
    ensures { (values : List Json) → json_tokens (array_of values)
        ≡ token.begin_array ∷ (value_tokens values ++ token.end_array ∷ []) }
{}
