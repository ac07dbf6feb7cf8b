//! Which places a text of `--why` asks for.
ghost use Rattle.std.specs.Prelude.{◌≡◌, not, ◌&&◌, ◌∷◌, decimal, map};
ghost use Rattle.text_bytes.specs.Names.{colon};
ghost use Rattle.text_tables.specs.Texts.{same_text};
ghost use Rattle.engine_courses.specs.Asked.{asks, has_rule, is_asked, is_known};

use crate::named::alike;
use crate::places::Place;
use file_messages::Message;
use itoa::Buffer;
use rule_types::Rule;
use text_bytes::following;

/// Whether a text is `:` and the number of a line.
fn is_line(text: &[u8], line: u32) -> bool
    ensures { result ≡ same_text text.now (colon ∷ decimal line) }
{
    match following(b":", text) {
        None => false,
        Some(digits) => digits == Buffer::new().format(line).as_bytes(),
    }
}

/// Whether a text asks for a line of a file: it is the name of the file, or that and the line.
fn asks(text: &[u8], file: &[u8], line: u32) -> bool
    ensures { result ≡ asks text.now (file.now, line) }
{
    let both = alike(text, file);
    match following(both.file, both.text) {
        None => false,
        Some(rest) => rest.is_empty() || is_line(rest, line),
    }
}

/// Whether one of the texts of `--why` asks for a line of a file.
pub(crate) fn is_asked(why: &[&str], file: &[u8], line: u32) -> bool
    ensures { result ≡ is_asked (map (λ t. t.now) why.now) file.now line }
{
    why.iter().any(|text| asks(text.as_bytes(), file, line))
}

/// Whether a text asks for one of these places.
pub(crate) fn is_known(text: &[u8], places: &[Place<'_>]) -> bool
    ensures { result ≡ is_known places.now text.now }
{
    places
        .iter()
        .any(|place| asks(text, place.file, place.line))
}

/// Whether one of these rules is on a line of a file.
fn has_rule(rules: &[Rule], file: &[u8], line: u32) -> bool
    ensures { result ≡ has_rule rules.now file.now line }
{
    rules
        .iter()
        .any(|rule| rule.file() == file && rule.line == line)
}

/// Whether a message is on a line that is asked for and was not read.
pub(crate) fn is_unread(why: &[&str], message: &Message, rules: &[Rule]) -> bool
    ensures { result ≡ (is_asked (map (λ t. t.now) why.now) message.now.file message.now.line && not (has_rule rules.now message.now.file message.now.line)) }
{
    let file = message.file.as_slice();
    is_asked(why, file, message.line) && !has_rule(rules, file, message.line)
}
