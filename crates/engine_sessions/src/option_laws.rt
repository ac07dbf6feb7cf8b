//! What is true of files of options.
//!
//! Each function here is empty: its contract is the law.
ghost use Rattle.std.specs.Prelude.{◌≡◌, ◌∷◌, None, Some, [], codes, false, true};
ghost use Rattle.engine_sessions.specs.Files.{bad_line, words_of};
ghost use Rattle.engine_sessions.specs.Words.{is_option, is_word};

/// A flag has no value, and any other option has one, which may be empty.
pub fn options_have_their_values()
    ensures flag { is_option (codes "--lint") ≡ true }
    ensures flag_with_value { is_option (codes "--lint=yes") ≡ false }
    ensures valued { is_option (codes "--root=/mnt/a b") ≡ true }
    ensures empty_value { is_option (codes "--format=") ≡ true }
    ensures without_value { is_option (codes "--format") ≡ false }
    ensures repeated { is_option (codes "--ignore=V6,S=2") ≡ true }
    ensures letter { is_option (codes "-s") ≡ false }
    ensures file { is_option (codes "a.rules") ≡ false }
    ensures another_file { is_option (codes "--options=a") ≡ false }
    ensures two_words { is_option (codes "--format gcc") ≡ false }
{}

/// The words of a file: blanks around them, empty lines and comments are left out, and a control character makes a line bad.
pub fn lines_are_words()
    ensures words { words_of (codes "# ours\n --lint\t\r\n\n--ignore=S2") ≡ codes "--lint" ∷ codes "--ignore=S2" ∷ [] }
    ensures control { is_word (codes "--root=/a\tb") ≡ false }
{}

/// The first bad line of a file is the one that counts.
pub fn lines_that_are_bad()
    ensures one { bad_line (codes "--lint\n lint\n-s\n") ≡ Some (record { number = 2; text = codes " lint" }) }
    ensures none { bad_line (codes "#-s\n\n--lint\n") ≡ None }
{}
