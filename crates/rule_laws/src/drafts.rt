//! Laws of drafts, each the contract of a function with an empty body.
ghost use Rattle.std.specs.Prelude.{◌≡◌, ◌↔◌, [], None, Some, List, filter_map, slice_get};
ghost use Rattle.text_bytes.specs.Text.{Text};
ghost use Rattle.text_bytes.specs.declared.profile.Profile.{Profile};
ghost use Rattle.text_bytes.specs.declared.profile.Profile.TheVariants.{Manual};
ghost use Rattle.rule_types.specs.WrittenParts.{key_of_change};
ghost use Rattle.rule_types.specs.declared.part.ActKind.{ActKind};
ghost use Rattle.rule_types.specs.declared.part.Change.{Change};
ghost use Rattle.rule_types.specs.declared.part.Part.{Part};
ghost use Rattle.rule_tokens.specs.Grammar.{Placed, answers};
ghost use Rattle.rule_tokens.specs.Lines.{items_of};
ghost use Rattle.rule_core.specs.Drafts.{assignment_in, sets_of};
ghost use Rattle.rule_laws.specs.Turns.{EachKeyAsWritten, acts_in_order, key_and_type, keys_in_order};
ghost use Rattle.rule_core.specs.Laws.{AreInOrder, IsPlain, IsReportedWhereAgain, NoneIsLost};
ghost use Rattle.rule_core.specs.Style.{style_findings};
ghost use Rattle.rule_core.specs.Turns.{turn_of_act_kind, turn_of_change};
ghost use Rattle.rule_types.specs.Tokens.{WrittenPart};

/// The acts and the assignments among parts are put in the order of their turns, those of one turn as they are
/// written.
pub fn parts_are_kept_in_order()
    ensures { (by : Profile) (parts : List Part) → AreInOrder by parts }
{}

/// By the manual the assignments of each key are made as they are written, whatever their values are.
pub fn keys_are_assigned_as_written()
    ensures { (parts : List Part) → EachKeyAsWritten (filter_map assignment_in parts) (sets_of Manual parts) }
{}

/// By the manual the assignments of a rule are made in the order of a list of their keys, and its acts in that of another,
/// whatever is written first: the turn of each is its place in the list.
pub fn kinds_have_their_order()
    ensures assignments { (change : Change) → slice_get keys_in_order (turn_of_change Manual change) ≡ Some (key_of_change change) }
    ensures acts { (act_kind : ActKind) → slice_get acts_in_order (turn_of_act_kind act_kind) ≡ Some (key_and_type act_kind) }
{}

/// Each part of a line is in one list of its rule, or gives a label or a jump.
pub fn no_part_is_lost()
    ensures { (parts : List Part) → NoneIsLost parts }
{}

/// By the manual a LABEL is reported as given twice if and only if one comes before it in the line, and so is a
/// GOTO.
pub fn names_given_again_are_reported()
    ensures { (parts : List WrittenPart) (w : WrittenPart) → IsReportedWhereAgain parts w }
{}

/// By the manual, for a line that is tokens to its end, there is no finding about how it is written if and only
/// if each gap between tokens is blanks, one comma and blanks, at least one of them, only blanks are at the end,
/// and no operator is read as `=`.
pub fn plain_lines_are_passed()
    ensures { (line : Text) (tokens : List Placed) → items_of line ≡ answers tokens None → (style_findings Manual line tokens ≡ []) ↔ IsPlain line tokens }
{}
