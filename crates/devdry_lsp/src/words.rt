//! What the words of a command line ask for.
ghost use Rattle.std.specs.Prelude.{◌≡◌, map, string_bytes};
ghost use Rattle.devdry_lsp.specs.Words.{asked_by, asked_of};

/// What words ask for.
#[derive(Clone, Copy, PartialEq, Eq)]
pub(crate) enum Asked {
    /// To serve a client.
    Serve,
    /// How the program is used.
    Help,
    /// Which version it is.
    Version,
    /// Nothing that the program knows.
    Unknown,
}

/// What a single word asks for.
fn asked_by(word: &str) -> Asked
    ensures { result ≡ asked_by word.now }
{
    match word {
        "--stdio" => Asked::Serve,
        "--help" => Asked::Help,
        "-h" => Asked::Help,
        "--version" => Asked::Version,
        "-V" => Asked::Version,
        _ => Asked::Unknown,
    }
}

/// What words ask for: to serve a client if there are none.
pub(crate) fn asked_of(words: &[String]) -> Asked
    ensures { result ≡ asked_of (map string_bytes words.now) }
{
    match words.split_first() {
        None => Asked::Serve,
        Some((word, others)) => {
            if others.is_empty() {
                asked_by(word)
            } else {
                Asked::Unknown
            }
        }
    }
}
