//! Examples of sessions of the language server.
ghost use Rattle.std.specs.Prelude.{◌≡◌, ◌∷◌, ◌++◌, [], codes};
ghost use Rattle.example_laws.specs.Sessions.{answers, asks, initialize, initialized, place, range, replied, reports, rules, session, tells};
ghost use Rattle.example_laws.specs.Sessions.{blank_is_missing, meaning_of_builtin, meaning_of_program, mended};

/// Each document has its own marks once it is opened, and others once it is changed: each at its place, with how severe it is, what is
/// wrong and how to mend it, and with a tag if it has no effect. After `shutdown` and `exit` the status is 0.
pub fn documents_are_marked_when_they_are_opened_and_changed()
    ensures { session (
        initialize
        ∷ tells (codes "didOpen") (codes ",\"version\":1,\"text\":\"" ++ rules (codes ", ") ++ codes "\"") []
        ∷ codes "{\"method\":\"textDocument/didOpen\",\"params\":{\"textDocument\":{\"uri\":\"d.hwdb\",\"text\":\"\\nusb:*\"}}}"
        ∷ tells (codes "didChange") (codes ",\"version\":2") (codes ",\"contentChanges\":[{\"range\":" ++ range (place 0 12) (place 0 13)
        ++ codes ",\"text\":\"\"}]")
        ∷ codes "{\"id\":2,\"method\":\"shutdown\"}"
        ∷ codes "{\"method\":\"exit\"}" ∷ [])
        ≡ replied (
        initialized
        ∷ reports (codes "r\",\"version\":1") []
        ∷ reports (codes "d.hwdb\"") (codes "{\"range\":" ++ range (place 1 0) (place 1 5)
        ++ codes ",\"severity\":1,\"code\":\"H2\",\"source\":\"devdry\","
        ++ codes "\"message\":\"match without a property: usb:*\\nPut the properties below the match, each after a space.\",\"tags\":[1]}")
        ∷ reports (codes "r\",\"version\":2") blank_is_missing
        ∷ answers 2 (codes "null") ∷ []) 0 }
{}

/// What a word means, which words may stand at a place, where a label is and what jumps to it, an outline, what can be mended, and the
/// edits of style are told of a document when they are asked for.
pub fn questions_about_a_document_are_answered()
    ensures { session (
        initialize
        ∷ tells (codes "didOpen") (codes ",\"version\":1,\"text\":\"" ++ rules (codes ",") ++ codes "\"") []
        ∷ asks 2 (codes "hover") (codes ",\"position\":" ++ place 1 29)
        ∷ asks 3 (codes "completion") (codes ",\"position\":" ++ place 1 28)
        ∷ asks 4 (codes "definition") (codes ",\"position\":" ++ place 0 19)
        ∷ asks 5 (codes "references") (codes ",\"position\":" ++ place 1 7 ++ codes ",\"context\":{\"includeDeclaration\":false}")
        ∷ asks 6 (codes "documentSymbol") []
        ∷ asks 7 (codes "codeAction") (codes ",\"range\":" ++ range (place 0 0) (place 0 0))
        ∷ asks 8 (codes "formatting") [] ∷ [])
        ≡ replied (
        initialized
        ∷ reports (codes "r\",\"version\":1") blank_is_missing
        ∷ answers 2 (codes "{\"contents\":" ++ meaning_of_builtin ++ codes ",\"range\":" ++ range (place 1 28) (place 1 35) ++ codes "}")
        ∷ answers 3 (codes "[{\"label\":\"program\",\"kind\":12,\"documentation\":" ++ meaning_of_program ++ codes ",\"textEdit\":{\"range\":"
        ++ range (place 1 28) (place 1 28) ++ codes ",\"newText\":\"program\"}},"
        ++ codes "{\"label\":\"builtin\",\"kind\":12,\"documentation\":" ++ meaning_of_builtin ++ codes ",\"textEdit\":{\"range\":"
        ++ range (place 1 28) (place 1 28) ++ codes ",\"newText\":\"builtin\"}}]")
        ∷ answers 4 (codes "{\"uri\":\"r\",\"range\":" ++ range (place 1 7) (place 1 8) ++ codes "}")
        ∷ answers 5 (codes "[{\"uri\":\"r\",\"range\":" ++ range (place 0 18) (place 0 19) ++ codes "}]")
        ∷ answers 6 (codes "[{\"name\":\"KERNEL==\\\"k\\\"\",\"kind\":24,\"range\":" ++ range (place 0 0) (place 0 20) ++ codes ",\"selectionRange\":"
        ++ range (place 0 0) (place 0 20) ++ codes "},{\"name\":\"a\",\"kind\":20,\"range\":" ++ range (place 1 0) (place 1 44)
        ++ codes ",\"selectionRange\":" ++ range (place 1 0) (place 1 44) ++ codes "}]")
        ∷ answers 7 (codes "[{\"title\":\"Mend the style of this file\",\"kind\":\"quickfix\",\"edit\":{\"changes\":{\"r\":[" ++ mended ++ codes "]}}}]")
        ∷ answers 8 (codes "[" ++ mended ++ codes "]") ∷ []) 1 }
{}

/// The status is 1 if the input ends before the client exits, and if it exits without `shutdown`.
pub fn the_status_says_how_a_session_ended()
    ensures ends { session [] ≡ replied [] 1 }
    ensures exits { session (codes "{\"method\":\"exit\"}" ∷ []) ≡ replied [] 1 }
{}
