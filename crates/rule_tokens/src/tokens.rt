//! The tokens of a line in turn.

ghost use Rattle.std.specs.Prelude.{◌≡◌, ◌≤◌, All, [], false, length, true};
ghost use Rattle.rule_tokens.specs.Grammar.{Given, GivenFrom, Only, OnlyFrom};
ghost use Rattle.rule_tokens.specs.Places.{LiesIn, RisesFrom};
ghost use Rattle.rule_tokens.specs.Lines.{is_over, items_from, items_of};

use crate::kinds::{Span, TokenFault};
use crate::parts::{Token, token_of};
use crate::runs::after_gap;
use std::marker::Model;

/// The tokens of a line in turn, and the fault that ends them, if one does: a fault is the last item. Blanks and
/// commas between tokens are skipped. Nothing is allocated.
#[derive(Drop)]
pub struct Tokens<'a> {
    rest: &'a [u8],
    at: usize,
    done: bool,
}

impl<'a> Model for Tokens<'a> {
    ghost use Rattle.std.specs.Prelude.{List, ◌+◌, ◌<◌, ◌^◌, length};
    ghost use Rattle.rule_tokens.specs.Grammar.{Item};

    ghost Value = { List Item };

    ghost use Rattle.rule_tokens.specs.Lines.{items_left};

    ghost view = { λ s. items_left s.done s.at s.rest.now };

    ghost invariant = { λ s. s.at + length s.rest.now < 2 ^ 64 };
}

impl<'a> Tokens<'a> {
    /// The tokens of a line of a rules file, as udev(7) describes it. The line has already been joined and has no
    /// newline. A line with nothing on it is a fault at 0.
    pub fn new(line: &'a [u8]) -> Tokens<'a>
        // The items are tokens of the line, up to its end.
        ensures given { Given line.now result }
        // The line has no others.
        ensures only { Only line.now result }
        // Each token's parts are in the line at their places, a fault's place is in the line.
        ensures within { All (LiesIn line.now) result }
        // Each item begins where the one before it ends, or after that.
        ensures rising { RisesFrom 0 result }
        // The same as a function of the line, for definitions above.
        ensures value { result ≡ items_of line.now }
    {
        Tokens::from_place(line, 0)
    }

    /// The tokens of a line from a place on, as in `new`; if the line ends at a place after its start, there are
    /// none. Here too, a place is counted from the start of the line.
    #[tactic(auto, using(crate::proofs::PlaceLemmas::tokens_from))]
    pub fn from_place(line: &'a [u8], start: usize) -> Tokens<'a>
        requires { start ≤ length line.now }
        // The items are tokens of the line from there on, up to its end.
        ensures given { is_over start line.now ≡ false → GivenFrom start line.now result }
        // From there on the line has no others.
        ensures only { is_over start line.now ≡ false → OnlyFrom start line.now result }
        // Nothing is left of a line that is over.
        ensures none { is_over start line.now ≡ true → result ≡ [] }
        // Each token's parts are in the line at their places, a fault's place is in the line.
        ensures within { All (LiesIn line.now) result }
        // Each item begins where the one before it ends, or after that.
        ensures rising { RisesFrom start result }
        // The same as a function of the line, for definitions above.
        ensures value { result ≡ items_from start line.now }
    {
        let (_, rest) = line.split_at(start);
        Tokens {
            rest,
            at: start,
            done: is_over(line, start),
        }
    }
}

/// Whether a line ends at a place, and begins before it.
fn is_over(line: &[u8], start: usize) -> bool
    ensures { result ≡ is_over start line.now }
{
    0 < start && start == line.len()
}

impl<'a> Iterator for Tokens<'a> {
    type Item = Result<Token<'a>, TokenFault>;

    ghost use Rattle.std.specs.Iterator.{YieldsFirst, item_count};

    ghost next_gives = { YieldsFirst (λ items. items) };

    ghost remaining = { item_count (λ items. items) };

    #[tactic(auto, using(crate::proofs::Steps::token_left))]
    fn next(&mut self) -> Option<Result<Token<'a>, TokenFault>> {
        if self.done {
            return None;
        }
        let start = self.at;
        let text = self.rest;
        match token_of(text) {
            Err(kind) => {
                self.done = true;
                Some(Err(TokenFault { at: start, kind }))
            }
            Ok((parts, after)) => {
                let end = start + (text.len() - after.len());
                let rest = after_gap(after);
                self.at = start + (text.len() - rest.len());
                self.rest = rest;
                self.done = rest.is_empty();
                let span = Span { start, end };
                Some(Ok(Token { parts, span }))
            }
        }
    }
}
