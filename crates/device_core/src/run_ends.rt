//! How far a run of lines reaches: up to the first empty line that follows another line.
//!
//! Most of a text is looked at in chunks of one size, all bytes of a chunk at once; only around the run's end it is
//! looked at byte by byte.
ghost use Rattle.std.specs.Prelude.{◌≡◌, ◌≤◌, length};
ghost use Rattle.device_core.specs.Filling.{first_run, has_empty_line};

/// How many bytes are looked at together.
const CHUNK: usize = 64;

/// Whether a newline is followed by another.
fn has_empty_line(text: &[u8]) -> bool
    ensures { result ≡ has_empty_line text.now }
{
    let mut found = false;
    for at in 1..text.len() {
        found |= (text[at - 1] == b'\n') & (text[at] == b'\n');
    }
    found
}

/// How long the first run is, looked at byte by byte.
fn short_run_length(text: &[u8]) -> usize
    ensures value { result ≡ length (first_run text.now) }
    ensures within { result ≤ length text.now }
{
    for at in 1..text.len() {
        if (text[at - 1] == b'\n') & (text[at] == b'\n') {
            return at;
        }
    }
    text.len()
}

/// How long the first run is, including the newline of its last line if it has one.
pub(crate) fn run_length(text: &[u8]) -> usize
    ensures value { result ≡ length (first_run text.now) }
    ensures within { result ≤ length text.now }
{
    let mut len = 0;
    while text.len() - len > CHUNK {
        if has_empty_line(&text[len..len + CHUNK + 1]) {
            break;
        }
        len += CHUNK;
    }
    len + short_run_length(&text[len..])
}
