//! Laws of what udev compares, each the contract of a function with an empty body.
ghost use Rattle.std.specs.Prelude.{◌≡◌, ◌≤◌, ◌<◌, ◌==◌, ◌||◌, ◌++◌, option_map, ◌∷◌, ℕ, length, Option, Some, None, true, false};
ghost use Rattle.std.specs.List.{list_all, list_any};
ghost use Rattle.text_bytes.specs.Names.{bar, carriage_return, newline, open_bracket};
ghost use Rattle.text_bytes.specs.Texts.{begins_with, is_empty};
ghost use Rattle.text_bytes.specs.declared.profile.Profile.TheVariants as profile;
ghost use Rattle.text_core.specs.Choices.{is_bar};
ghost use Rattle.text_bytes.specs.Text.{Text};
ghost use Rattle.text_tables.specs.Pairs.{value_of};
ghost use Rattle.device_core.specs.Values.{DeviceValue, EventValue};
ghost use Rattle.rule_tokens.specs.Integers.{is_separator};
ghost use Rattle.rule_tokens.specs.Substituted.{has_sign};
ghost use Rattle.rule_types.specs.declared.part.Comparison.{Comparison};
ghost use Rattle.rule_types.specs.declared.roles.PlainKey.TheVariants as plain;
ghost use Rattle.rule_types.specs.declared.roles.UpKey.TheVariants as up;
ghost use Rattle.eval_state.specs.Chains.{device_at};
ghost use Rattle.eval_state.specs.Named.{NamedValue, named, named_place};
ghost use Rattle.eval_state.specs.Texts.{or_empty};
ghost use Rattle.eval_state.specs.declared.state.State.{State};
ghost use Rattle.eval_rendering.specs.Names.{name_text};
ghost use Rattle.eval_rendering.specs.Paths.{is_unread, read_value};
ghost use Rattle.eval_rendering.specs.Pieces.{as_read};
ghost use Rattle.eval_rendering.specs.Attributes.{is_unread_at, told_subject, udev_subject, udev_value};
ghost use Rattle.eval_rendering.specs.Holding.{holds, udev_attribute, udev_unread};
ghost use Rattle.eval_rendering.specs.Subjects.{plain_subject, up_subject};
ghost use Rattle.eval_rendering.specs.Udev.{capped, first_part, last_is, without_end};

/// For udev, ATTR with an attribute that the device does not have fails, with `==` and with `!=`.
pub fn an_absent_attribute_fails_both()
    ensures { (name : Text) (state : State) (wanted : Comparison) → state.event.profile ≡ profile.Udev → begins_with open_bracket name ≡ false
        → udev_value name state state.event.device ≡ None → holds (plain_subject (plain.Attr name) state) wanted ≡ false }
{}

/// A name that names a device of the chain, and an attribute, looks at that attribute of that device, and the device's
/// own attribute does not matter; it is empty if the device has none. Of a device that is not in the chain it is what
/// the event device has under the whole name, and not read if that has none.
pub fn a_named_device_is_looked_at()
    ensures there { (text : Text) (event : EventValue) (at : Option DeviceValue) (own : Option Text) (n : NamedValue) (place : ℕ) (device : DeviceValue)
        → named (open_bracket ∷ text) ≡ Some n → is_empty n.attribute ≡ false → named_place n event ≡ Some place → device_at event place ≡ Some device
        → udev_subject (open_bracket ∷ text) event at own ≡ udev_attribute (Some (capped (as_read (or_empty (value_of device.attrs n.attribute))))) }
    ensures given { (text : Text) (event : EventValue) (at : Option DeviceValue) (own : Option Text) (n : NamedValue) (value : Text)
        → named (open_bracket ∷ text) ≡ Some n → is_empty n.attribute ≡ false → named_place n event ≡ None
        → value_of event.device.attrs (open_bracket ∷ text) ≡ Some value
        → udev_subject (open_bracket ∷ text) event at own ≡ udev_attribute (Some (capped (as_read value))) }
    ensures elsewhere { (text : Text) (event : EventValue) (at : Option DeviceValue) (own : Option Text) (n : NamedValue) → named (open_bracket ∷ text) ≡ Some n
        → is_empty n.attribute ≡ false → named_place n event ≡ None → value_of event.device.attrs (open_bracket ∷ text) ≡ None
        → udev_subject (open_bracket ∷ text) event at own ≡ udev_unread }
    ensures nameless { (text : Text) (event : EventValue) (at : Option DeviceValue) (own : Option Text) (n : NamedValue) → named (open_bracket ∷ text) ≡ Some n
        → is_empty n.attribute ≡ true → udev_subject (open_bracket ∷ text) event at own ≡ udev_attribute None }
    ensures unnamed { (text : Text) (event : EventValue) (at : Option DeviceValue) (own : Option Text) → named (open_bracket ∷ text) ≡ None
        → udev_subject (open_bracket ∷ text) event at own ≡ udev_attribute None }
{}

/// A name that does not begin with `[` looks at the device's own attribute. If it has none, and the block does not tell what the name
/// stands for there, it is not read.
pub fn a_plain_name_looks_at_the_device()
    ensures had { (name : Text) (event : EventValue) (at : Option DeviceValue) (value : Text) → begins_with open_bracket name ≡ false
        → udev_subject name event at (Some value) ≡ udev_attribute (Some value) }
    ensures denied { (name : Text) (event : EventValue) (at : Option DeviceValue) → begins_with open_bracket name ≡ false
        → is_unread_at name event at ≡ false → udev_subject name event at None ≡ udev_attribute None }
    ensures untold { (name : Text) (event : EventValue) (at : Option DeviceValue) → begins_with open_bracket name ≡ false
        → is_unread_at name event at ≡ true → udev_subject name event at None ≡ udev_unread }
{}

/// A name without a byte that begins a substitution stands for itself. Any other that does not begin with `[` stands
/// for what it is rendered to, if that has at most 511 bytes; no attribute has a longer name. An attribute is what
/// udev reads for the device, without the ends of lines at its end.
pub fn a_name_with_a_sign_is_rendered()
    ensures plain { (name : Text) (state : State) (device : DeviceValue) → has_sign name ≡ false
        → udev_value name state device ≡ option_map as_read (read_value state.event device name) }
    ensures rendered { (name : Text) (state : State) (device : DeviceValue) → begins_with open_bracket name ≡ false → has_sign name ≡ true
        → length (name_text name state) ≤ 511 → udev_value name state device ≡ option_map as_read (read_value state.event device (name_text name state)) }
    ensures long { (name : Text) (state : State) (device : DeviceValue) → begins_with open_bracket name ≡ false → has_sign name ≡ true
        → 511 < length (name_text name state) → udev_value name state device ≡ None }
{}

/// ATTRS with a name that does not begin with `[` looks at each device by the name that is rendered while that device
/// is selected.
pub fn a_device_that_is_tried_is_selected()
    ensures { (name : Text) (state : State) (place : ℕ) (device : DeviceValue) → state.event.profile ≡ profile.Udev → begins_with open_bracket name ≡ false
        → device_at state.event place ≡ Some device → up_subject (up.Attrs name) state place
        ≡ told_subject (is_unread state.event device name) (udev_value name (record state { selected = Some place }) device) }
{}

/// The first part of a value follows its first bars, and before the next one or its end.
pub fn the_first_part_is_between_bars()
    ensures last { (bars part : Text) → list_all is_bar bars ≡ true → list_any is_bar part ≡ false → first_part (bars ++ part) ≡ part }
    ensures others { (bars part rest : Text) → list_all is_bar bars ≡ true → list_any is_bar part ≡ false → is_empty part ≡ false
        → first_part (bars ++ (part ++ bar ∷ rest)) ≡ part }
{}

/// What is cut off at the end of an attribute as it is compared is all of the spaces, tabs and ends of lines there, and no
/// other byte; as it is read, all of the newlines and carriage returns, and no other byte.
pub fn all_that_may_be_cut_off_is()
    ensures compared { (text end : Text) → list_all is_separator end ≡ true → last_is is_separator text ≡ false → without_end (text ++ end) ≡ text }
    ensures read { (text end : Text) → list_all (λ b. b == newline || b == carriage_return) end ≡ true
        → last_is (λ b. b == newline || b == carriage_return) text ≡ false → as_read (text ++ end) ≡ text }
{}
