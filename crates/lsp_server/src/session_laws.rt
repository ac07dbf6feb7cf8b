//! What is true of sessions. Each law is the contract of a function with an empty body.
ghost use Rattle.std.specs.Prelude.{◌≡◌, ◌≤◌, List, ◌++◌, None, Some, codes, flat_map, length, map};
ghost use Rattle.std.specs.List.{AllByRecursion};
ghost use Rattle.text_bytes.specs.Text.{Text};
ghost use Rattle.lsp_server.specs.Framed.{framed};
ghost use Rattle.lsp_server.specs.Items.{most_content};
ghost use Rattle.lsp_server.specs.declared.frames.Item.TheVariants as item;
ghost use Rattle.lsp_server.specs.Examples.{repeats};
ghost use Rattle.lsp_server.specs.AnyServer.{IsFirstOf, acting, said_of, said_to};
ghost use Rattle.lsp_server.specs.declared.replying.Exit.{Exit};
ghost use Rattle.lsp_server.specs.declared.replying.Exit.TheVariants.{AfterShutdown};

use crate::replying::Replying;

/// What is said to the first bytes of an input stays, however it goes on; and if the client exits in them, that is all.
pub fn what_is_said_stays<S: Replying>()
    ensures first { (state : S) (input later : Text) → IsFirstOf (said_of (acting S.replies S.after state) input).text
        (said_of (acting S.replies S.after state) (input ++ later)).text }
    ensures exit { (state : S) (input later : Text) (exit : Exit) → (said_of (acting S.replies S.after state) input).exit ≡ Some exit
        → said_of (acting S.replies S.after state) (input ++ later) ≡ said_of (acting S.replies S.after state) input }
{}

/// Contents that are framed, one after another, are replied to in their order.
pub fn framed_contents_are_replied_to<S: Replying>()
    ensures { (state : S) (contents : List Text) → AllByRecursion (λ content. length content ≤ most_content) contents
        → said_of (acting S.replies S.after state) (flat_map framed contents) ≡ said_to (acting S.replies S.after state) (map item.Content contents) }
{}

/// What a server says in whole sessions: a header part without a length is replied to as well, nothing is said after the exit,
/// and a frame that has not ended is not replied to.
#[tactic(auto, unfolding(crate::specs::Headers::content_length, text_bytes::specs::Numbers::decimal_below))]
pub fn some_sessions()
    ensures exits { said_of repeats (codes "Content-Length: 1\r\n\r\naX: 1\r\n\r\nContent-Length: 2\r\n\r\nbcContent-Length: 1\r\n\r\nd")
        ≡ record { text = codes "a?bc"; exit = Some AfterShutdown } }
    ensures goes_on { said_of repeats (codes "Content-Length: 1\r\n\r\naContent-Length: 2\r\n\r\nb")
        ≡ record { text = codes "a"; exit = None } }
{}
