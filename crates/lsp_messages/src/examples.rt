//! Examples of messages and of what their parameters say, from their texts. Each is the contract of a function with an
//! empty body.
ghost use Rattle.std.specs.Prelude.{◌≡◌, [], ◌∷◌, ◌++◌, None, Some, codes, false, true, option_map};
ghost use Rattle.json.specs.Json.{document, number, string};
ghost use Rattle.text_json.specs.Values.{object_of};
ghost use Rattle.lsp_messages.specs.Changes.{changes_of};
ghost use Rattle.lsp_messages.specs.Messages.{invalid, notification, request, response};
ghost use Rattle.lsp_messages.specs.Offers.{offers_utf8};
ghost use Rattle.lsp_messages.specs.Options.{absent, malformed, options_of, words};
ghost use Rattle.lsp_messages.specs.Parameters.{opened_of, placed_of, ranged_of, uri_of, version_of};
ghost use Rattle.lsp_messages.specs.Positions.{place, position_of, range_of};
ghost use Rattle.lsp_messages.specs.Readings.{message_in, read_in};

/// Texts that are messages, and what they are.
pub fn some_messages()
    ensures request { message_in (codes "{\"jsonrpc\":\"2.0\",\"id\":1,\"method\":\"shutdown\"}")
        ≡ Some (request (number (codes "1")) (codes "shutdown") None) }
    ensures word { message_in (codes "{\"id\":\"a\",\"method\":\"m\",\"params\":{}}") ≡ Some (request (string (codes "a")) (codes "m") (Some (object_of []))) }
    ensures notification { message_in (codes "{\"jsonrpc\":\"2.0\",\"method\":\"exit\"}") ≡ Some (notification (codes "exit") None) }
    ensures response { message_in (codes "{\"id\":1,\"result\":null}") ≡ Some response }
    ensures error { message_in (codes "{\"id\":null,\"error\":{}}") ≡ Some response }
{}

/// Values that are no messages: a request whose id is null or an object, a method that is no string, an id alone, and several
/// messages in an array. A text that is not JSON is nothing.
pub fn some_that_are_invalid()
    ensures null { message_in (codes "{\"id\":null,\"method\":\"m\"}") ≡ Some invalid }
    ensures object { message_in (codes "{\"id\":{},\"method\":\"m\"}") ≡ Some invalid }
    ensures method { message_in (codes "{\"id\":1,\"method\":2,\"result\":3}") ≡ Some invalid }
    ensures id { message_in (codes "{\"id\":1}") ≡ Some invalid }
    ensures batch { message_in (codes "[{\"method\":\"m\"}]") ≡ Some invalid }
    ensures text { message_in (codes "{\"method\":\"m\"") ≡ None }
{}

/// Positions: whole numbers however they are written, the line first; 2^32 - 1 for a greater one. A number below zero or with a
/// fraction is none.
pub fn some_positions()
    ensures place { read_in position_of (codes "{\"line\":3,\"character\":20}") ≡ Some (place 3 20) }
    ensures order { read_in position_of (codes "{\"character\":20,\"line\":3}") ≡ Some (place 3 20) }
    ensures most { read_in position_of (codes "{\"line\":2147483647,\"character\":0}") ≡ Some (place 2147483647 0) }
    ensures great { read_in position_of (codes "{\"line\":2147483648,\"character\":4294967296}") ≡ Some (place 2147483648 4294967295) }
    ensures greatest { read_in position_of (codes "{\"line\":99999999999999999999,\"character\":1e30}") ≡ Some (place 4294967295 4294967295) }
    ensures point { read_in position_of (codes "{\"line\":1.0,\"character\":20.00}") ≡ Some (place 1 20) }
    ensures exponent { read_in position_of (codes "{\"line\":1e1,\"character\":1E+2}") ≡ Some (place 10 100) }
    ensures both { read_in position_of (codes "{\"line\":1.25e2,\"character\":0.5e1}") ≡ Some (place 125 5) }
    ensures down { read_in position_of (codes "{\"line\":10e-1,\"character\":0e-9}") ≡ Some (place 1 0) }
    ensures zero { read_in position_of (codes "{\"line\":-0,\"character\":-0.0}") ≡ Some (place 0 0) }
    ensures sign { read_in position_of (codes "{\"line\":-1,\"character\":0}") ≡ None }
    ensures fraction { read_in position_of (codes "{\"line\":1.5,\"character\":0}") ≡ None }
    ensures small { read_in position_of (codes "{\"line\":1e-1,\"character\":0}") ≡ None }
    ensures deep { read_in position_of (codes "{\"line\":99999999999999999999.5,\"character\":0}") ≡ None }
    ensures word { read_in position_of (codes "{\"line\":\"1\",\"character\":0}") ≡ None }
    ensures lacking { read_in position_of (codes "{\"line\":1}") ≡ None }
    ensures range { read_in range_of (codes "{\"start\":{\"line\":1,\"character\":2},\"end\":{\"line\":3,\"character\":4}}") ≡ Some (place 1 2, place 3 4) }
{}

/// Documents, places and ranges that parameters are about.
pub fn some_parameters()
    ensures uri { read_in uri_of (codes "{\"textDocument\":{\"uri\":\"u\"}}") ≡ Some (codes "u") }
    ensures opened { read_in opened_of (codes "{\"textDocument\":{\"uri\":\"u\",\"languageId\":\"l\",\"version\":7,\"text\":\"t\\n\"}}")
        ≡ Some (record { uri = codes "u"; language = Some (codes "l"); version = Some 7; text = codes "t\n" }) }
    ensures version { read_in version_of (codes "{\"textDocument\":{\"version\":2147483647.0}}") ≡ Some 2147483647 }
    ensures great { read_in version_of (codes "{\"textDocument\":{\"version\":2147483648}}") ≡ None }
    ensures bare { read_in opened_of (codes "{\"textDocument\":{\"uri\":\"u\",\"text\":\"\"}}")
        ≡ Some (record { uri = codes "u"; language = None; version = None; text = [] }) }
    ensures lacking { read_in opened_of (codes "{\"textDocument\":{\"uri\":\"u\"}}") ≡ None }
    ensures placed { read_in placed_of (codes "{\"textDocument\":{\"uri\":\"u\"},\"position\":{\"line\":1,\"character\":2}}")
        ≡ Some (record { uri = codes "u"; position = place 1 2 }) }
    ensures ranged { read_in ranged_of
        (codes "{\"textDocument\":{\"uri\":\"u\"},\"range\":{\"start\":{\"line\":1,\"character\":2},\"end\":{\"line\":3,\"character\":4}}}")
        ≡ Some (record { uri = codes "u"; start = place 1 2; end = place 3 4 }) }
{}

/// Changes, in order: of a range, and of all. One that has no text makes all of them none.
pub fn some_changes()
    ensures both { read_in changes_of (codes "{\"contentChanges\":["
        ++ codes "{\"range\":{\"start\":{\"line\":1,\"character\":2},\"end\":{\"line\":3,\"character\":4}},\"text\":\"a\"},{\"text\":\"b\"}]}")
        ≡ Some ((record { range = Some (place 1 2, place 3 4); text = codes "a" }) ∷ (record { range = None; text = codes "b" }) ∷ []) }
    ensures empty { read_in changes_of (codes "{\"contentChanges\":[]}") ≡ Some [] }
    ensures lacking { read_in changes_of (codes "{\"contentChanges\":[{\"text\":\"b\"},{}]}") ≡ None }
    ensures range { read_in changes_of (codes "{\"contentChanges\":[{\"range\":{},\"text\":\"b\"}]}") ≡ None }
    ensures absent { read_in changes_of (codes "{}") ≡ None }
{}

/// What clients say when they begin.
pub fn some_beginnings()
    ensures words { option_map options_of (document (codes "{\"initializationOptions\":{\"options\":[\"--udev\",\"-q\"]}}"))
        ≡ Some (words (codes "--udev" ∷ codes "-q" ∷ [])) }
    ensures absent { option_map options_of (document (codes "{\"initializationOptions\":{}}")) ≡ Some absent }
    ensures none { option_map options_of (document (codes "{\"initializationOptions\":null}")) ≡ Some absent }
    ensures null { option_map options_of (document (codes "{\"initializationOptions\":{\"options\":null}}")) ≡ Some absent }
    ensures word { option_map options_of (document (codes "{\"initializationOptions\":{\"options\":\"--udev\"}}")) ≡ Some malformed }
    ensures number { option_map options_of (document (codes "{\"initializationOptions\":{\"options\":[\"--udev\",1]}}")) ≡ Some malformed }
    ensures utf8 { option_map offers_utf8 (document (codes "{\"capabilities\":{\"general\":{\"positionEncodings\":[\"utf-16\",\"utf-8\"]}}}")) ≡ Some true }
    ensures utf16 { option_map offers_utf8 (document (codes "{\"capabilities\":{\"general\":{\"positionEncodings\":[\"utf-16\"]}}}")) ≡ Some false }
    ensures silent { option_map offers_utf8 (document (codes "{\"capabilities\":{}}")) ≡ Some false }
{}
