//! What a line of `events` that asks for no more than the answers gets.
//!
//! The function here is empty: its contract is the law.
ghost use Rattle.std.specs.Prelude.{◌≡◌, false, List, Option, Result, vec_len};
ghost use Rattle.text_bytes.specs.declared.source_file.SourceFile.{SourceFile};
ghost use Rattle.trie_build.specs.Contents.{Contents};
ghost use Rattle.trie_build.specs.declared.index_fault.IndexFault.{IndexFault};
ghost use Rattle.builtin_devices.specs.Knowledge.{FilesFound};
ghost use Rattle.engine_sessions.specs.declared.line.Line.{Line};
ghost use Rattle.engine_sessions.specs.declared.line.Verb.TheVariants.{Events};
ghost use Rattle.engine_reports.specs.Openings.{OpeningValue, opening};
ghost use Rattle.engine_answers.specs.Answers.{answer_by};
ghost use Rattle.engine_core.specs.Outcomes.{answer_with, before_input, is_json, known_for};
ghost use Rattle.engine_sessions.specs.Sessions.{answers_as};

/// Without `--questions`, `--sources`, `--why` and `--format=json` events get the answers by rules and entries, over which rules are
/// evaluated by the line's profile, and nothing is said before them but the messages.
pub fn a_line_that_asks_for_no_more_gets_the_answers_alone()
    ensures answers { (line : Line) (found : FilesFound) (opened : OpeningValue) → line.questions ≡ false → line.sources ≡ false → vec_len line.why ≡ 0
        → is_json line.format ≡ false → answer_with line found opened ≡ answers_as line.profile (answer_by opened.rules (known_for line found opened)) }
    ensures opening { (line : Line) (files : List SourceFile) (index : Option (Result Contents IndexFault)) → vec_len line.why ≡ 0
        → before_input Events line files index ≡ opening line files index }
{}
