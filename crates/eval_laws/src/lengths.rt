//! The bound on how many bytes an answer has, whatever the event and its outcome are.
//!
//! The function here is empty: its contract is the law.
ghost use Rattle.std.specs.Prelude.{◌≡◌, ◌≤◌, ◌+◌, ◌*◌, ◌^◌, IfSome, List, Ok, length, unsigned_abs};
ghost use Rattle.text_bytes.specs.Text.{Text};
ghost use Rattle.text_bytes.specs.declared.profile.Profile.{Profile};
ghost use Rattle.text_bytes.specs.declared.source_file.SourceFile.{SourceFile};
ghost use Rattle.builtin_devices.specs.Knowledge.{Known};
ghost use Rattle.rule_core.specs.Rules.{set_of_as};
ghost use Rattle.device_core.specs.Faults.{block_gives};
ghost use Rattle.device_core.specs.Values.{EventValue, by_profile};
ghost use Rattle.eval_rules.specs.declared.outcome.Outcome.{Outcome};
ghost use Rattle.eval_unread.specs.Unread.{whole_outcome};
ghost use Rattle.eval_laws.specs.Weights.{most_about_a_block, outcome_weight};
ghost use Rattle.engine_answers.specs.Answers.{answer};

/// The answer to an event that a block gives has at most eight times the weight of the event's whole outcome, four times
/// the length of the block, and 64 bytes, for udev 1,204 more, as there are notes about the block. That holds by the
/// rules of any files, read and evaluated by either profile, whatever a database and the builtins say, and for every
/// other outcome whose priority, if it has one, is a number of 32 bits.
pub fn an_answer_is_no_longer_than_its_weight()
    ensures files { (read profile : Profile) (files : List SourceFile) (known : Known) (block : Text) (event : EventValue)
        → block_gives block ≡ Ok event
        → length (answer (by_profile profile event) (whole_outcome (set_of_as read files).rules known (by_profile profile event)))
        ≤ 8 * outcome_weight (whole_outcome (set_of_as read files).rules known (by_profile profile event))
        + 4 * length block + 64 + most_about_a_block profile }
    ensures others { (profile : Profile) (block : Text) (event : EventValue) (other : Outcome) → block_gives block ≡ Ok event
        → IfSome other.priority (λ priority. unsigned_abs priority ≤ 2 ^ 31)
        → length (answer (by_profile profile event) other) ≤ 8 * outcome_weight other + 4 * length block + 64 + most_about_a_block profile }
{}
