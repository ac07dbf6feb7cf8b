//! What is true of an input that is read whole.
//!
//! The function here is empty: its contract is the law.
ghost use Rattle.std.specs.Prelude.{◌≡◌, Some};
ghost use Rattle.text_bytes.specs.Text.{Text};
ghost use Rattle.engine_sessions.specs.Sources.{SourceState};
ghost use Rattle.devdry_files.specs.Whole.{ReadsWhole};

/// What is read whole of an input that shows its bytes is all of them, to its end.
pub fn an_input_is_read_to_its_end()
    ensures { (before now : SourceState) (text all : Text) → ReadsWhole before text now → before.left ≡ Some all → text ≡ all }
{}
