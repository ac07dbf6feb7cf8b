//! When a search or an assignment leaves a note, and when none does. Each function here is empty: its contract is the law.
ghost use Rattle.std.specs.Prelude.{◌≡◌, ◌↔◌, ◌∷◌, ◌++◌, ℕ, [], codes, false, if◌then◌else◌, is_none, is_some, List, None, Option, Some, true};
ghost use Rattle.std.specs.List.{list_all};
ghost use Rattle.text_bytes.specs.Texts.{is_empty};
ghost use Rattle.text_bytes.specs.Names.{digit_zero};
ghost use Rattle.text_tables.specs.Pairs.{value_of};
ghost use Rattle.rule_types.specs.Topics.{mode_of};
ghost use Rattle.eval_assignments.specs.Modes.{four_digits};
ghost use Rattle.eval_rules.specs.declared.outcome.Outcome.{Outcome};
ghost use Rattle.eval_unread.specs.KernelModes.{with_kernel_mode};
ghost use Rattle.text_bytes.specs.declared.profile.Profile.TheVariants.{Manual, Udev};
ghost use Rattle.text_bytes.specs.Text.{Text};
ghost use Rattle.rule_tokens.specs.Template as templates;
ghost use Rattle.rule_types.specs.declared.part.Change.TheVariants as change;
ghost use Rattle.rule_types.specs.declared.roles.Target.TheVariants as target;
ghost use Rattle.rule_types.specs.declared.rule_option.RuleOption.{RuleOption};
ghost use Rattle.rule_types.specs.declared.types.RunType.{RunType};
ghost use Rattle.rule_types.specs.Rules.{Rule};
ghost use Rattle.device_core.specs.Values.{DeviceValue, EventValue, NumberValue};
ghost use Rattle.builtin_devices.specs.Knowledge.{Known};
ghost use Rattle.eval_state.specs.Scenes.{start};
ghost use Rattle.eval_state.specs.declared.notes.Note.{Note};
ghost use Rattle.eval_assignments.specs.Names.{is_interface};
ghost use Rattle.eval_state.specs.Notes.{note_about};
ghost use Rattle.eval_state.specs.declared.note_kind.NoteKind.TheVariants.{AttributesNotGiven};
ghost use Rattle.eval_unread.specs.Given.{gives_none, looked_at, not_given};
ghost use Rattle.eval_unread.specs.Laws.{IsAmong, Leaves};
ghost use Rattle.eval_unread.specs.Others.{ask_others};
ghost use Rattle.eval_unread.specs.Unread.{rendered_pieces, unread};

/// For udev there is a note if and only if a search or an assignment leaves it. A search leaves it if it is reached and no device meets
/// all of its matches, about the attribute of the first match that the nearest device fails since the block does not tell it. An
/// assignment leaves it if it is reached, its key is not final, and its text, if it is rendered for the device, asks for an attribute
/// that is not read; it is about the first such attribute.
pub fn a_note_is_left_by_a_search_or_an_assignment_that_asks_for_what_is_not_read()
    ensures { (rules : List Rule) (known : Known) (event : EventValue) (note : Note) → event.profile ≡ Udev
        → IsAmong note (unread rules known event) ↔ Leaves known None rules (start event) note }
{}

/// A command is rendered for every device, and so is the text of most keys; that of the keys of a node and of its labels is for a
/// device with a number, and a name for an interface. An option has no text.
pub fn texts_are_rendered_for_the_devices_that_their_keys_apply_to()
    ensures command { (braces : Option RunType) (template : templates.Parts) (device : DeviceValue)
        → rendered_pieces (change.Run braces template) device ≡ template.pieces }
    ensures option { (known : RuleOption) (device : DeviceValue) → rendered_pieces (change.Option known) device ≡ [] }
    ensures name { (template : templates.Parts) (device : DeviceValue)
        → rendered_pieces (change.Text target.Name template) device ≡ (if is_interface device then template.pieces else []) }
    ensures owner { (template : templates.Parts) (device : DeviceValue)
        → rendered_pieces (change.Text target.Owner template) device ≡ (if is_some device.number then template.pieces else []) }
    ensures group { (template : templates.Parts) (device : DeviceValue)
        → rendered_pieces (change.Text target.Group template) device ≡ (if is_some device.number then template.pieces else []) }
    ensures mode { (template : templates.Parts) (device : DeviceValue)
        → rendered_pieces (change.Text target.Mode template) device ≡ (if is_some device.number then template.pieces else []) }
    ensures symlink { (template : templates.Parts) (device : DeviceValue)
        → rendered_pieces (change.Text target.Symlink template) device ≡ (if is_some device.number then template.pieces else []) }
    ensures seclabel { (name : Text) (template : templates.Parts) (device : DeviceValue)
        → rendered_pieces (change.Text (target.Seclabel name) template) device ≡ (if is_some device.number then template.pieces else []) }
    ensures tag { (template : templates.Parts) (device : DeviceValue) → rendered_pieces (change.Text target.Tag template) device ≡ template.pieces }
    ensures property { (name : Text) (template : templates.Parts) (device : DeviceValue)
        → rendered_pieces (change.Text (target.Env name) template) device ≡ template.pieces }
    ensures attribute { (name : Text) (template : templates.Parts) (device : DeviceValue)
        → rendered_pieces (change.Text (target.Attr name) template) device ≡ template.pieces }
    ensures parameter { (name : Text) (template : templates.Parts) (device : DeviceValue)
        → rendered_pieces (change.Text (target.Sysctl name) template) device ≡ template.pieces }
{}

/// By the manual there is no note, and neither is there one if no match of one device and no assignment asks for an attribute whose
/// name begins with `[` or with `.`, or of which a block may tell nothing: such rules need not be evaluated again.
#[tactic(auto, using(crate::proofs::Unasked::manual_unread, crate::proofs::Unasked::none_unread))]
pub fn rules_that_ask_for_no_other_device_leave_no_note()
    ensures manual { (rules : List Rule) (known : Known) (event : EventValue) → event.profile ≡ Manual → unread rules known event ≡ [] }
    ensures unasked { (rules : List Rule) (known : Known) (event : EventValue) → ask_others rules ≡ false → unread rules known event ≡ [] }
{}

/// For udev a block that gives no attribute leaves one note, by the first rule that looks at one. Any other block leaves none, and neither
/// does one by rules of which none looks at an attribute, or by the manual.
pub fn a_block_without_attributes_is_noted_by_the_first_rule_that_looks_at_one()
    ensures noted { (before following : List Rule) (r : Rule) (name : Text) (event : EventValue) → event.profile ≡ Udev → gives_none event ≡ true
        → list_all (λ (q : Rule). is_none (looked_at q)) before ≡ true → looked_at r ≡ Some name
        → not_given (before ++ r ∷ following) event ≡ Some (note_about r AttributesNotGiven name) }
    ensures unlooked { (rules : List Rule) (event : EventValue) → list_all (λ (q : Rule). is_none (looked_at q)) rules ≡ true → not_given rules event ≡ None }
    ensures given { (rules : List Rule) (event : EventValue) → gives_none event ≡ false → not_given rules event ≡ None }
    ensures manual { (rules : List Rule) (event : EventValue) → event.profile ≡ Manual → not_given rules event ≡ None }
{}

/// A block gives an attribute if its event device or one above has one; and one whose device is removed counts as such, since a device
/// that is gone has none.
pub fn a_block_gives_attributes_if_a_device_of_it_has_one()
    ensures gone { (event : EventValue) → event.action ≡ codes "remove" → gives_none event ≡ false }
    ensures own { (event : EventValue) → is_empty event.device.attrs ≡ false → gives_none event ≡ false }
    ensures above { (event : EventValue) (before following : List DeviceValue) (d : DeviceValue) → event.parents ≡ before ++ d ∷ following
        → is_empty d.attrs ≡ false → gives_none event ≡ false }
{}

/// The mode of the node is the one that rules set. Without one it is for udev that of the property DEVMODE, if the device has a number
/// and the mode is written as the kernel writes it, and by the manual there is none.
pub fn the_mode_of_a_node_is_the_kernels_unless_rules_set_one()
    ensures set { (event : EventValue) (o : Outcome) (mode : Text) → o.mode ≡ Some mode → (with_kernel_mode event o).mode ≡ Some mode }
    ensures manual { (event : EventValue) (o : Outcome) → event.profile ≡ Manual → o.mode ≡ None → (with_kernel_mode event o).mode ≡ None }
    ensures kernel { (event : EventValue) (o : Outcome) (number : NumberValue) (digits : Text) (mode : ℕ) → event.profile ≡ Udev → o.mode ≡ None
        → event.device.number ≡ Some number → value_of event.device.env (codes "DEVMODE") ≡ Some (digit_zero ∷ digits)
        → mode_of (digit_zero ∷ digits) ≡ Some mode → (with_kernel_mode event o).mode ≡ Some (four_digits mode) }
    ensures numberless { (event : EventValue) (o : Outcome) → o.mode ≡ None → event.device.number ≡ None → (with_kernel_mode event o).mode ≡ None }
{}
