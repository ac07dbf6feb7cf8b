//! Whether searches and assignments of rules ask for attributes of which a block may tell nothing. It is asked once for all events: rules of which none does
//! leave no note.
ghost use Rattle.std.specs.Prelude.{◌≡◌};
ghost use Rattle.eval_unread.specs.Given.{is_of_others};
ghost use Rattle.eval_unread.specs.Others.{ask_others, change_asks, piece_asks, pieces_of, rule_asks, up_asks};

use eval_rendering::may_be_untold;
use rule_tokens::Piece;
use rule_types::{Assignment, Change, Rule, UpKey};
use text_bytes::begins_with;

/// Whether a name may lead to another device, or to what a block does not tell.
pub(crate) fn is_of_others(name: &[u8]) -> bool
    ensures { result ≡ is_of_others name.now }
{
    begins_with(b'[', name) || begins_with(b'.', name) || may_be_untold(name)
}

/// Whether a piece is an attribute of such a name.
fn piece_asks(piece: &Piece) -> bool
    ensures { result ≡ piece_asks piece.now }
{
    match piece {
        Piece::Attr(name) => is_of_others(name.as_slice()),
        _ => false,
    }
}

/// The pieces of the text of an assignment, whether it is rendered or not.
fn pieces_of(change: &Change) -> &[Piece]
    ensures { result.now ≡ pieces_of change.now }
{
    match change {
        Change::Option(_) => &[],
        Change::Text(_, template) => template.pieces(),
        Change::Run(_, template) => template.pieces(),
    }
}

/// Whether the text of an assignment asks for such an attribute.
fn assignment_asks(assignment: &Assignment) -> bool
    ensures { result ≡ change_asks assignment.now.change }
{
    pieces_of(&assignment.change)
        .iter()
        .any(|piece| piece_asks(piece))
}

/// Whether a match of one device does.
fn up_asks(key: &UpKey) -> bool
    ensures { result ≡ up_asks key.now }
{
    match key {
        UpKey::Attrs(name) => is_of_others(name.as_slice()),
        _ => false,
    }
}

/// Whether a match of one device or an assignment of a rule does.
fn rule_asks(rule: &Rule) -> bool
    ensures { result ≡ rule_asks rule.now }
{
    let searches = rule.up.iter().any(|part| up_asks(&part.key));
    let assigns = rule.sets.iter().any(|set| assignment_asks(set));
    searches | assigns
}

/// Whether ATTRS or the text of an assignment, by `$attr`, asks in one of these rules for an attribute of which a block may tell nothing: its
/// name begins with `[` or with `.`, as names do that lead to another device, leads into a folder, or is that of a file that has no
/// value of one line.
pub fn ask_others(rules: &[Rule]) -> bool
    ensures { result ≡ ask_others rules.now }
{
    rules.iter().any(|rule| rule_asks(rule))
}
