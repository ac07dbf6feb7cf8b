//! The words of a command without quotes, which are parts of its text.
ghost use Rattle.std.specs.Prelude.{◌≡◌, ◌<◌, ◌≤◌, length, option_map, IfSome};
ghost use Rattle.std.specs.List.{list_any, prefix_len};
ghost use Rattle.eval_commands.specs.Unquoted.{first_and_others, is_inside, spaced_words};
ghost use Rattle.eval_commands.specs.Words.{is_quote};

use crate::words::is_quote;

/// Whether a text has a quote.
pub(crate) fn has_quote(text: &[u8]) -> bool
    ensures { result ≡ list_any is_quote text.now }
{
    text.iter().any(|byte| is_quote(*byte))
}

/// How many bytes a text has before its first space.
fn count_before_space(text: &[u8]) -> usize
    ensures value { result ≡ prefix_len is_inside text.now }
    ensures within { result ≤ length text.now }
{
    text.iter().take_while(|byte| **byte != b' ').count()
}

/// The first word of a text that spaces split, and what follows it; `None` if the text has no word.
pub(crate) fn cut_word(text: &[u8]) -> Option<(&[u8], &[u8])>
    ensures value { option_map (λ cut. (cut.0.now, spaced_words cut.1.now)) result ≡ first_and_others (spaced_words text.now) }
    ensures shorter { IfSome result (λ cut. length cut.1.now < length text.now) }
{
    let mut rest = text;
    while let Some((byte, after)) = rest.split_first() {
        if *byte != b' ' {
            return Some(rest.split_at(count_before_space(after) + 1));
        }
        rest = after;
    }
    None
}
