//! A line of a rules file as tokens, and a value with substitutions as pieces, as described in udev(7).
//!
//! A token is a key, optionally an attribute in braces, an operator and a quoted value, with blanks and commas in between. A
//! line is only cut, and its values are unquoted; the crates above decide what a key means and which operators it takes. A
//! token borrows its line, and cutting allocates nothing. `specs/Grammar.antt` states the language of lines as a relation,
//! and is what a reader has to believe; `specs/Values.antt` does the same for the text between the quotes.
//!
//! A substitution is `$kernel`, `%k`, `$attr{size}` and the like. A value is read into pieces once, so that a rule that is
//! tried on a thousand devices is not read a thousand times, and so that a bad substitution is found when rules are checked.
#![tactic(auto)]

mod braces;
mod cut;
mod escapes;
mod fault;
mod heads;
mod integers;
mod kinds;
mod laws;
mod letters;
mod names;
mod number;
mod parts;
mod piece;
mod prefixes;
mod reading;
mod runs;
mod substituted;
mod template;
mod tokens;
mod unquoting;
mod values;

pub use cut::Cut;
pub use fault::TemplateFault;
pub use integers::{after_separators, integer_of, is_separator, leading_whitespace, natural_of};
pub use kinds::{Operator, Quote, Span, TokenFault, TokenFaultKind};
pub use letters::letters_before_quote;
pub use parts::Token;
pub use piece::Piece;
pub use reading::{is_faulty, kept};
pub use substituted::{has_sign, is_substituted};
pub use template::Template;
pub use tokens::Tokens;
pub use unquoting::unquote;
