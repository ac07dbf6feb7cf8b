//! What is true of frames. Each law is the contract of a function with an empty body.
ghost use Rattle.std.specs.Prelude.{◌≡◌, ◌+◌, ◌^◌, ◌<◌, ◌≤◌, List, [], ◌∷◌, ◌++◌, codes, flat_map, length, map};
ghost use Rattle.std.specs.List.{AllByRecursion};
ghost use Rattle.text_bytes.specs.Text.{Text};
ghost use Rattle.lsp_server.specs.Framed.{framed};
ghost use Rattle.lsp_server.specs.Held.{Held, start};
ghost use Rattle.lsp_server.specs.Items.{held_after, items, items_after, most_content};
ghost use Rattle.lsp_server.specs.FrameLaws.{HasNoNewline, HoldsLittle};
ghost use Rattle.lsp_server.specs.declared.frames.Item.TheVariants as item;

/// In which pieces a text is read changes nothing: what is held after a text is all that counts for the text that follows.
pub fn pieces_do_not_count()
    ensures held { (held : Held) (first second : Text) → held_after held (first ++ second) ≡ held_after (held_after held first) second }
    ensures items { (held : Held) (first second : Text) → items_after held (first ++ second)
        ≡ items_after held first ++ items_after (held_after held first) second }
{}

/// Contents that are framed, one after another, are read back, and nothing is held after them.
pub fn what_is_framed_is_read_back()
    ensures items { (contents : List Text) → AllByRecursion (λ content. length content ≤ most_content) contents
        → items (flat_map framed contents) ≡ map item.Content contents }
    ensures held { (contents : List Text) → AllByRecursion (λ content. length content ≤ most_content) contents
        → held_after start (flat_map framed contents) ≡ start }
{}

/// What stands before a frame in its first line is lost, and nothing else.
pub fn what_stands_before_a_frame_is_skipped()
    ensures { (before content later : Text) → HasNoNewline before → length before ≤ 4000
        → length content ≤ most_content → items (before ++ framed content ++ later) ≡ item.Content content ∷ items later }
{}

/// A content that is too long is reported once, and as many bytes as its header part gives are passed over.
pub fn a_content_too_long_is_passed_over()
    ensures { (content later : Text) → most_content < length content → length content < 2 ^ 32
        → items (framed content ++ later) ≡ item.TooLong ∷ items later }
{}

/// Whatever is read, no more is held than a header part or a content may have.
pub fn little_is_held()
    ensures { (text : Text) → HoldsLittle (held_after start text) }
{}

/// How header parts are read.
#[tactic(auto, unfolding(crate::specs::Headers::content_length, text_bytes::specs::Numbers::decimal_below))]
pub fn header_parts_of_examples()
    // letters of any case, and other headers
    ensures case { items (codes "content-LENGTH:2\r\nContent-Type: text; charset=utf-8\r\n\r\n{}") ≡ item.Content (codes "{}") ∷ [] }
    // the last length counts
    ensures last { items (codes "Content-Length: 1\r\nContent-Length: 2\r\n\r\n{}") ≡ item.Content (codes "{}") ∷ [] }
    // a content without a byte is complete with its header part
    ensures none { items (codes "Content-Length: 0\r\n\r\n") ≡ item.Content [] ∷ [] }
    // no length, and a length that is no number
    ensures missing { items (codes "Content-Type: text\r\n\r\nContent-Length: 2x\r\n\r\n") ≡ item.NoFrame ∷ item.NoFrame ∷ [] }
    // newlines without carriage returns end no header part
    ensures newlines { items (codes "Content-Length: 2\n\n{}") ≡ [] }
{}
