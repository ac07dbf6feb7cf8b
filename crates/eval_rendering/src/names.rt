//! Names of attributes in matches, which udev renders while it compares.
//!
//! A match takes no memory, so such a name is put together in room of its own.
ghost use Rattle.std.specs.Prelude.{◌≡◌, option_map};
ghost use Rattle.rule_tokens.specs.Cuts.{copied};
ghost use Rattle.eval_state.specs.Start.{node_path};
ghost use Rattle.eval_state.specs.Texts.{or_empty};
ghost use Rattle.eval_rendering.specs.Lengthened.{lengthened};
ghost use Rattle.eval_rendering.specs.Bounds.{short};
ghost use Rattle.eval_rendering.specs.Names.{name_piece, name_text};

use crate::pieces::{driver_at, kernel_at, major, minor, name, parent_node};
use crate::short_name::ShortName;
use crate::words::{from_word, number_as, word_at};
use eval_state::State;
use rule_tokens::{Cut, Piece, kept};

/// Puts the path of a node after a name, if there is one.
#[tactic(auto, using(crate::proofs::Naming::lengthened_twice))]
fn push_node(node: Option<&[u8]>, text: &mut ShortName)
    ensures { text.new ≡ lengthened text.old (or_empty (option_map (λ n. node_path n.now) node.entry)) }
{
    match node {
        Some(node) => {
            text.push(b"/dev/");
            text.push(node);
        }
        None => text.push(b""),
    }
}

/// Puts what is in place of a piece after a name.
fn push_piece(state: &State<'_>, selected: Option<usize>, piece: &Piece, text: &mut ShortName)
    ensures { text.new ≡ lengthened text.old (name_piece (record state.now { selected = selected }) piece.now) }
{
    let profile = state.event.event().profile();
    let result = state.result.as_slice();
    match piece {
        Piece::Plain(plain) => text.push(plain.as_slice()),
        Piece::Kernel => text.push(state.event.kernel()),
        Piece::Number => text.push(number_as(profile, state.event.kernel())),
        Piece::Devpath => text.push(state.event.device().path()),
        Piece::Id => text.push(kernel_at(state, selected)),
        Piece::Driver => text.push(driver_at(state, selected)),
        Piece::Attr(_) => text.push(b""),
        Piece::Env(name) => text.push(state.property(name.as_slice())),
        Piece::Major => text.push(major(state)),
        Piece::Minor => text.push(minor(state)),
        Piece::Result => text.push(result),
        Piece::Word(number) => text.push(word_at(number.saturating_sub(1), result)),
        Piece::From(number) => text.push(from_word(number.saturating_sub(1), result)),
        Piece::Parent => text.push(parent_node(state)),
        Piece::Name => text.push(name(profile, state)),
        Piece::Links => text.push_spaced(state.links.as_slice()),
        Piece::Root => text.push(b"/dev"),
        Piece::Sys => text.push(b"/sys"),
        Piece::Devnode => push_node(state.event.device().node(), text),
    }
}

/// The same of a piece whose bytes still are in the name that is read.
fn push_cut(state: &State<'_>, selected: Option<usize>, cut: &Cut<'_>, text: &mut ShortName)
    ensures { text.new ≡ lengthened text.old (name_piece (record state.now { selected = selected }) (copied cut.now)) }
{
    match cut {
        Cut::Plain(plain) => text.push(plain),
        Cut::Attr(_) => text.push(b""),
        Cut::Env(name) => text.push(state.property(name)),
        Cut::Other(piece) => push_piece(state, selected, piece, text),
    }
}

/// The name of an attribute with its substitutions made, as udev of systemd 257 makes them when a match asks for it:
/// all after a fault is left out, and `$id` and `$driver` stand for the device at the place that is given as selected.
pub fn rendered_name(state: &State<'_>, selected: Option<usize>, name: &[u8]) -> ShortName
    ensures { result ≡ short (name_text name.now (record state.now { selected = selected })) }
{
    let mut text = ShortName::new();
    let mut rest = name;
    while let Some((byte, after)) = rest.split_first() {
        let Some((cut, next)) = kept(rest, *byte, after) else {
            return text;
        };
        push_cut(state, selected, &cut, &mut text);
        rest = next;
    }
    text
}
