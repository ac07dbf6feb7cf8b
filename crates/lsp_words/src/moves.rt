//! Where a row goes on to at its next byte.
ghost use Rattle.std.specs.Prelude.{◌≡◌};
ghost use Rattle.lsp_words.specs.Moves.{go, in_braces, in_escape, in_indent, in_inner, in_later, in_name, in_value, outside};

use crate::classes::Class;

/// Where in a row of a rules file a place is.
#[derive(Clone, Copy, PartialEq, Eq)]
pub(crate) enum Place {
    /// Where only blanks come before.
    Indent,
    /// In a comment.
    Comment,
    /// Between two tokens.
    Gap,
    /// In a key.
    Key,
    /// In the braces of a key.
    Braces,
    /// After a key or its braces.
    Head,
    /// In an operator.
    Operator,
    /// After an operator, where the letters of a value's prefix may stand.
    Prefix,
    /// In a word of a value, if a name may stand there.
    Value,
    /// In the rest of a value.
    Later,
    /// In a value, directly after a backslash.
    Escape,
    /// In the name of a substitution, its sign included.
    Name,
    /// In the braces of a substitution.
    Inner,
}

/// What becomes of the word before a byte.
#[derive(Clone, Copy, PartialEq, Eq)]
pub(crate) enum Turn {
    /// The byte belongs to it.
    Longer,
    /// The byte begins another one.
    Fresh,
    /// The byte belongs to none, and the next word begins behind it.
    Empty,
}

/// Where a row goes on to, and what becomes of its word.
#[derive(Clone, Copy, PartialEq, Eq)]
pub(crate) struct Move {
    pub(crate) place: Place,
    pub(crate) turn: Turn,
}

/// What of a value, or of the name of a substitution, decides where a row goes on to.
#[derive(Clone, Copy)]
pub(crate) struct Bounds {
    /// Whether the value has substitutions.
    pub(crate) substitutes: bool,
    /// Whether a bar ends a word of the value.
    pub(crate) splits: bool,
    /// Whether a backslash takes away the meaning of any byte behind it, and not only that of a quote.
    pub(crate) escapes: bool,
}

/// A move.
pub(crate) fn go(place: Place, turn: Turn) -> Move
    ensures { result ≡ go place turn }
{
    Move { place, turn }
}

/// The move outside quotes and braces, by the place after a blank, the move at a letter, and the turn at a byte of an
/// operator.
pub(crate) fn outside(blank: Place, letter: Move, operator: Turn, class: Class) -> Move
    ensures { result ≡ outside blank letter operator class }
{
    match class {
        Class::Letter => letter,
        Class::Operator => go(Place::Operator, operator),
        Class::Blank => go(blank, Turn::Empty),
        Class::Quote => go(Place::Value, Turn::Empty),
        Class::OpenBrace => go(Place::Braces, Turn::Empty),
        _ => go(Place::Gap, Turn::Empty),
    }
}

/// The move where only blanks come before.
pub(crate) fn in_indent(class: Class) -> Move
    ensures { result ≡ in_indent class }
{
    match class {
        Class::Hash => go(Place::Comment, Turn::Fresh),
        _ => outside(
            Place::Indent,
            go(Place::Key, Turn::Fresh),
            Turn::Fresh,
            class,
        ),
    }
}

/// The move in the braces of a key.
pub(crate) fn in_braces(class: Class) -> Move
    ensures { result ≡ in_braces class }
{
    match class {
        Class::CloseBrace => go(Place::Head, Turn::Empty),
        _ => go(Place::Braces, Turn::Longer),
    }
}

/// The move in the rest of a value.
pub(crate) fn in_later(bounds: Bounds, class: Class) -> Move
    ensures { result ≡ in_later bounds class }
{
    match class {
        Class::Quote => go(Place::Gap, Turn::Empty),
        Class::Backslash => go(Place::Escape, Turn::Longer),
        Class::Sign if bounds.substitutes => go(Place::Name, Turn::Fresh),
        Class::Bar if bounds.splits => go(Place::Value, Turn::Empty),
        _ => go(Place::Later, Turn::Longer),
    }
}

/// The move in a word of a value where a name may stand.
pub(crate) fn in_value(bounds: Bounds, is_empty: bool, class: Class) -> Move
    ensures { result ≡ in_value bounds is_empty class }
{
    match class {
        Class::Blank if is_empty => go(Place::Value, Turn::Empty),
        Class::Quote | Class::Backslash | Class::Sign | Class::Bar | Class::Blank => {
            in_later(bounds, class)
        }
        _ => go(Place::Value, Turn::Longer),
    }
}

/// The move directly after a backslash.
pub(crate) fn in_escape(bounds: Bounds, class: Class) -> Move
    ensures { result ≡ in_escape bounds class }
{
    match class {
        Class::Quote => go(Place::Later, Turn::Longer),
        _ if bounds.escapes => go(Place::Later, Turn::Longer),
        _ => in_later(bounds, class),
    }
}

/// The move in the name of a substitution, by whether the byte is the sign that the name consists of, whether a letter
/// may follow, and whether the name has a letter.
pub(crate) fn in_name(
    bounds: Bounds,
    is_double: bool,
    takes_letter: bool,
    has_letter: bool,
    class: Class,
) -> Move
    ensures { result ≡ in_name bounds is_double takes_letter has_letter class }
{
    match class {
        Class::Sign if is_double => go(Place::Later, Turn::Longer),
        Class::Letter if takes_letter => go(Place::Name, Turn::Longer),
        Class::OpenBrace if has_letter => go(Place::Inner, Turn::Empty),
        _ => in_later(bounds, class),
    }
}

/// The move in the braces of a substitution.
pub(crate) fn in_inner(class: Class) -> Move
    ensures { result ≡ in_inner class }
{
    match class {
        Class::CloseBrace => go(Place::Later, Turn::Empty),
        Class::Quote => go(Place::Gap, Turn::Empty),
        _ => go(Place::Inner, Turn::Longer),
    }
}
