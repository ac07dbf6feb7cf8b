//! What is true of the words of a command, in terms of how it is written.
ghost use Rattle.text_bytes.specs.Text.{Text};
ghost use Rattle.eval_laws.specs.Grammar.{IsRead, IsReadToEnd};

/// The law of a builtin's command.
///
/// A command is written in pieces: bytes that separate words, bytes that mean themselves, and groups between two
/// quotes. Its words are the longest runs of pieces without such a byte. By the manual it has none if and only if a
/// quote follows some pieces and no such quote follows it; for udev that quote then ends with the command.
pub fn words_are_what_a_command_writes()
    ensures manual { (command : Text) → IsRead command }
    ensures udev { (command : Text) → IsReadToEnd command }
{}
