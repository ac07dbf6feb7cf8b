//! The words of systemd's files that mean yes and no.
ghost use Rattle.std.specs.Char.{to_ascii_lowercase};
ghost use Rattle.std.specs.Prelude.{◌≡◌, map};
ghost use Rattle.text_tables.specs.Texts.{same_text};
ghost use Rattle.link_files.specs.Booleans.{is_any_of, is_no, is_yes};

/// The words that mean yes.
pub(crate) const YES: [&[u8]; 6] = [b"1", b"yes", b"y", b"true", b"t", b"on"];

/// The words that mean no.
pub(crate) const NO: [&[u8]; 6] = [b"0", b"no", b"n", b"false", b"f", b"off"];

/// Whether a word is another, in letters of any case.
fn is_same_word(word: &[u8], other: &[u8]) -> bool
    ensures { result ≡ same_text (map to_ascii_lowercase word.now) (map to_ascii_lowercase other.now) }
{
    word.eq_ignore_ascii_case(other)
}

/// Whether a word is one of these, in letters of any case.
fn is_any_of(words: &[&[u8]], word: &[u8]) -> bool
    ensures { result ≡ is_any_of (map (λ w. w.now) words.now) word.now }
{
    for other in words {
        if is_same_word(word, other) {
            return true;
        }
    }
    false
}

/// Whether a word means yes, in letters of any case.
#[tactic(auto, unfolding(crate::specs::Booleans::is_yes))]
pub fn is_yes(word: &[u8]) -> bool
    ensures { result ≡ is_yes word.now }
{
    is_any_of(&YES, word)
}

/// Whether a word means no, in letters of any case.
#[tactic(auto, unfolding(crate::specs::Booleans::is_no))]
pub fn is_no(word: &[u8]) -> bool
    ensures { result ≡ is_no word.now }
{
    is_any_of(&NO, word)
}
