//! Laws of messages. Each is the contract of a function with an empty body.
ghost use Rattle.std.specs.Prelude.{◌≡◌, ℕ, ◌^◌, ◌<◌, List, [], ◌∷◌, ◌++◌, None, Option, Some, codes, length, false, option_map, true};
ghost use Rattle.std.specs.Fmt.{signed_decimal};
ghost use Rattle.text_bytes.specs.Text.{Text};
ghost use Rattle.json.specs.Json.{Json, document, max_depth, string};
ghost use Rattle.json.specs.Print.{print};
ghost use Rattle.json.specs.Token as token;
ghost use Rattle.json.specs.Tree.{HasNumbers, depth, json_tokens};
ghost use Rattle.text_json.specs.Values.{items_of, object_of};
ghost use Rattle.lsp_messages.specs.Changes.{change_of, changes_in};
ghost use Rattle.lsp_messages.specs.Messages.{invalid, is_id, message_of, notification, request, response};
ghost use Rattle.lsp_messages.specs.Positions.{place, position_of, position_value, range_of, range_value};
ghost use Rattle.lsp_messages.specs.Responses.{code_number, error_of, notification_begins, notification_of};
ghost use Rattle.lsp_messages.specs.Responses.{response_begins, response_of, version_member};
ghost use Rattle.lsp_messages.specs.declared.errors.ErrorCode.{ErrorCode};
ghost use Rattle.lsp_messages.specs.declared.errors.ErrorCode.TheVariants.{InvalidParams, InvalidRequest, MethodNotFound, ParseError, ServerNotInitialized};

/// A response is what it begins with, its result, and what closes an object; so is a notification with its parameters.
pub fn messages_are_their_parts()
    ensures response { (id result : Json) → json_tokens (response_of id result)
        ≡ response_begins id ++ (json_tokens result ++ token.end_object ∷ []) }
    ensures notification { (method : Text) (params : Json) → json_tokens (notification_of method params)
        ≡ notification_begins method ++ (json_tokens params ++ token.end_object ∷ []) }
{}

/// What is sent is the message that it is meant as: a response to the request, an error also a response, and a notification of
/// that method. A request is read with its id, method and parameters.
pub fn messages_are_what_is_meant()
    ensures response { (id result : Json) → message_of (response_of id result) ≡ response }
    ensures error { (id : Option Json) (code : ErrorCode) (said : Text) → message_of (error_of id code said) ≡ response }
    ensures notification { (method : Text) (params : Json) → message_of (notification_of method params) ≡ notification method (Some params) }
    ensures request { (id params : Json) (method : Text) → is_id id ≡ true
        → message_of (object_of (version_member ∷ (codes "id", id) ∷ (codes "method", string method) ∷ (codes "params", params) ∷ []))
        ≡ request id method (Some params) }
    // An id of another kind makes it invalid: null does, too.
    ensures other { (id params : Json) (method : Text) → is_id id ≡ false
        → message_of (object_of (version_member ∷ (codes "id", id) ∷ (codes "method", string method) ∷ (codes "params", params) ∷ []))
        ≡ invalid }
{}

/// A reader of JSON reads from the text of what is sent the value that it is, if what it carries nests less deeply than a reader
/// follows.
pub fn messages_are_read_back()
    ensures response { (id result : Json) → is_id id ≡ true → HasNumbers id → HasNumbers result → depth result < max_depth
        → document (print (json_tokens (response_of id result))) ≡ Some (response_of id result) }
    ensures error { (id : Json) (code : ErrorCode) (said : Text) → is_id id ≡ true → HasNumbers id
        → document (print (json_tokens (error_of (Some id) code said))) ≡ Some (error_of (Some id) code said) }
    ensures no_id { (code : ErrorCode) (said : Text) → document (print (json_tokens (error_of None code said))) ≡ Some (error_of None code said) }
    ensures notification { (method : Text) (params : Json) → HasNumbers params → depth params < max_depth
        → document (print (json_tokens (notification_of method params))) ≡ Some (notification_of method params) }
{}

/// A position that is written is read back, and so is a range.
pub fn positions_are_read_back()
    ensures position { (line character : ℕ) → line < 2 ^ 32 → character < 2 ^ 32
        → position_of (position_value (place line character)) ≡ Some (place line character) }
    ensures range { (line character last end : ℕ) → line < 2 ^ 32 → character < 2 ^ 32 → last < 2 ^ 32 → end < 2 ^ 32
        → range_of (range_value (place line character) (place last end)) ≡ Some (place line character, place last end) }
{}

/// Each item is a change, or there are no changes at all; and there are as many as items.
pub fn each_item_is_a_change()
    ensures fault { (before others : List Json) (value : Json) → change_of value ≡ None
        → changes_in (items_of (before ++ value ∷ others)) ≡ None }
    ensures count { (values : List Json) (count : ℕ) → option_map length (changes_in (items_of values)) ≡ Some count → count ≡ length values }
{}

/// The numbers of the errors, as the protocol gives them.
pub fn errors_have_their_numbers()
    ensures parse { signed_decimal (code_number ParseError) ≡ codes "-32700" }
    ensures request { signed_decimal (code_number InvalidRequest) ≡ codes "-32600" }
    ensures method { signed_decimal (code_number MethodNotFound) ≡ codes "-32601" }
    ensures params { signed_decimal (code_number InvalidParams) ≡ codes "-32602" }
    ensures early { signed_decimal (code_number ServerNotInitialized) ≡ codes "-32002" }
{}
