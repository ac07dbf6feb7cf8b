//! What a text of `--why` and the name of a file are compared as.
ghost use Rattle.std.specs.Prelude.{◌≡◌};
ghost use Rattle.engine_courses.specs.Named.{alike, file_in, has_folder};

use text_bytes::{ends_in, find, last_component, trailing_digits, without_last};

/// A text and the name of a file, as they are compared.
#[derive(Clone, Copy)]
pub(crate) struct Names<'a, 'b> {
    /// The text, or what it ends in.
    pub(crate) text: &'a [u8],
    /// The name of the file, or what it ends in.
    pub(crate) file: &'b [u8],
}

/// Whether a path leads through a folder.
fn has_folder(path: &[u8]) -> bool
    ensures { result ≡ has_folder path.now }
{
    find(b'/', path).is_some()
}

/// A text and the name of a file as they are compared: by what follows the last slash if only one of the two has one.
#[tactic(auto, unfolding(crate::specs::Named::alike))]
pub(crate) fn alike<'a, 'b>(text: &'a [u8], file: &'b [u8]) -> Names<'a, 'b>
    ensures { (result.text.now, result.file.now) ≡ alike text.entry.now file.entry.now }
{
    if has_folder(text) == has_folder(file) {
        Names { text, file }
    } else {
        Names {
            text: last_component(text),
            file: last_component(file),
        }
    }
}

/// The file that a text names: what comes before `:` and digits at its end, if it ends so, or else all of it.
pub(crate) fn file_in(text: &[u8]) -> &[u8]
    ensures { result.now ≡ file_in text.now }
{
    let front = text.split_at(text.len() - trailing_digits(text)).0;
    if ends_in(b':', front) {
        without_last(front)
    } else {
        text
    }
}
