//! The length that a header part gives.
ghost use Rattle.std.specs.Prelude.{◌≡◌, ◌==◌, ◌^◌, ◌<◌, ◌≤◌, length, not};
ghost use Rattle.std.specs.Option.{ForSome};
ghost use Rattle.std.specs.List.{after_last, before_last, suffix_len};
ghost use Rattle.text_bytes.specs.Names.{colon};
ghost use Rattle.lsp_server.specs.Headers.{content_length, is_ended, is_length_line, is_length_name, length_of};

use text_bytes::{decimal_below, first_line, trimmed, unindented};

/// The lengths that are read are below this.
const LENGTH_BOUND: u64 = 1 << 32;

const LENGTH_NAME: &[u8] = b"Content-Length";

/// Whether a header part ends here.
pub(crate) fn is_ended(header: &[u8]) -> bool
    ensures { result ≡ is_ended header.now }
{
    header.ends_with(b"\r\n\r\n")
}

/// How many bytes follow the last colon of a line, which are all if it has none.
fn value_count(line: &[u8]) -> usize
    ensures value { result ≡ suffix_len (λ b. not (b == colon)) line.now }
    ensures within { result ≤ length line.now }
{
    line.iter().rev().take_while(|byte| **byte != b':').count()
}

/// What comes before the last colon of a line, and nothing if it has none.
fn name_of(line: &[u8]) -> &[u8]
    ensures { result.now ≡ before_last (λ b. b == colon) line.now }
{
    let (before, _) = line.split_at(line.len() - value_count(line));
    before.split_at(before.len().saturating_sub(1)).0
}

/// What follows the last colon of a line, and all of it if it has none.
fn value_of(line: &[u8]) -> &[u8]
    ensures { result.now ≡ after_last (λ b. b == colon) line.now }
{
    line.split_at(line.len() - value_count(line)).1
}

/// Whether a name ends in `Content-Length`, in letters of any case.
fn is_length_name(name: &[u8]) -> bool
    ensures { result ≡ is_length_name name.now }
{
    let (_, end) = name.split_at(name.len().saturating_sub(14));
    end.eq_ignore_ascii_case(LENGTH_NAME)
}

/// Whether a line gives a length.
fn is_length_line(line: &[u8]) -> bool
    ensures { result ≡ is_length_line line.now }
{
    is_length_name(name_of(line))
}

/// The length that a line gives, if it is a decimal number below 2^32.
fn length_of(line: &[u8]) -> Option<u64>
    ensures value { result ≡ length_of line.now }
    ensures below { ForSome result (λ size. size < 2 ^ 32) }
{
    decimal_below(LENGTH_BOUND, trimmed(unindented(value_of(line))))
}

/// The length that a header part gives, if it is below 2^32: that of the last of its lines that gives one.
#[tactic(auto, unfolding(crate::specs::Headers::content_length))]
pub(crate) fn content_length(header: &[u8]) -> Option<u64>
    ensures value { result ≡ content_length header.now }
    ensures below { ForSome result (λ size. size < 2 ^ 32) }
{
    let mut found = None;
    let mut rest = header;
    while !rest.is_empty() {
        let (line, later) = first_line(rest);
        if is_length_line(line) {
            found = length_of(line);
        }
        rest = later;
    }
    found
}
