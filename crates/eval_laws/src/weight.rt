//! The bounds on what an answer weighs and on its notes, whatever the rules, the event and the database
//! are.
//!
//! Each function here is empty: its contract is the law.
ghost use Rattle.std.specs.Prelude.{◌≡◌, ◌≤◌, ◌+◌, ◌*◌, ℕ, List, length, Ok};
ghost use Rattle.std.specs.List.{sum_by};
ghost use Rattle.text_bytes.specs.declared.profile.Profile.{Profile};
ghost use Rattle.text_bytes.specs.declared.profile.Profile.TheVariants.{Manual, Udev};
ghost use Rattle.text_bytes.specs.Text.{Text};
ghost use Rattle.trie_nodes.specs.declared.entry.Entry.{Entry};
ghost use Rattle.builtin_devices.specs.Knowledge.{Known};
ghost use Rattle.rule_types.specs.Rules.{Rule};
ghost use Rattle.rule_types.specs.WrittenParts.{attribute_of_act_kind};
ghost use Rattle.rule_types.specs.declared.part.ActKind.TheVariants as act_kind;
ghost use Rattle.rule_types.specs.declared.part.Import.{Import};
ghost use Rattle.device_core.specs.Faults.{block_gives};
ghost use Rattle.device_core.specs.Values.{EventValue, by_profile};
ghost use Rattle.eval_rules.specs.Outcomes.{outcome};
ghost use Rattle.eval_unread.specs.Unread.{whole_outcome};
ghost use Rattle.eval_laws.specs.Allowances.{act_kind_allowance, entries_weight, most_weight, part_allowance};
ghost use Rattle.eval_laws.specs.Counts.{most_notes, most_told};
ghost use Rattle.eval_laws.specs.Weights.{outcome_weight};

/// The texts in the whole outcome of an event, each with one more, are together at most four times its block and 133, and
/// for each part of a rule 32,896, the length of its attribute and that of its file's name, and in addition for each
/// IMPORT twice the block and all keys and values of the database, each with one more. For udev the outcome may have
/// more: the text of each SECLABEL as it is written, the block for each ATTR, 65,536 and the length of its file's name
/// for each IMPORT, and 280 and the length of its file's name for each rule, for each match of one device and each assignment.
pub fn an_answer_weighs_no_more_than_is_allowed()
    ensures { (profile : Profile) (rules : List Rule) (known : Known) (block : Text) (event : EventValue) → block_gives block ≡ Ok event
        → outcome_weight (whole_outcome rules known (by_profile profile event)) ≤ most_weight profile (length block) known.entries rules }
{}

/// By the manual an IMPORT may add what any part may, with one note, and in addition twice the block and the whole database. For
/// udev it may add 65,536 and the length of its file's name more, since it may leave a second note.
pub fn an_import_leaves_a_second_note_for_udev_alone()
    ensures manual { (len : ℕ) (entries : List Entry) (r : Rule) (from : Import) → act_kind_allowance Manual len entries r (act_kind.Import from)
        ≡ part_allowance r (attribute_of_act_kind (act_kind.Import from)) + (2 * len + entries_weight entries) }
    ensures udev { (len : ℕ) (entries : List Entry) (r : Rule) (from : Import) → act_kind_allowance Udev len entries r (act_kind.Import from)
        ≡ act_kind_allowance Manual len entries r (act_kind.Import from) + (65536 + length r.file) }
{}

/// The outcome of an event has no more notes than two for each act of its rules, and one for each other part: each part
/// is met at most once. Its whole outcome has at most two for each match of one device and each assignment, too, and one on a block
/// without attributes.
pub fn acts_and_assignments_leave_at_most_two_notes()
    ensures own { (rules : List Rule) (known : Known) (event : EventValue) → length (outcome rules known event).notes ≤ sum_by most_notes rules }
    ensures whole { (rules : List Rule) (known : Known) (event : EventValue) → length (whole_outcome rules known event).notes ≤ sum_by most_told rules + 1 }
{}
