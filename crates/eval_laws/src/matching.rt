//! What is true of matches, whatever the rules are. Each function here is empty: its contract is the law.
ghost use Rattle.std.specs.Prelude.{◌≡◌, ◌≢◌, ◌↔◌, ◌&&◌, ◌∷◌, [], ℕ, List, Some, None, true, false};
ghost use Rattle.text_bytes.specs.declared.profile.Profile.TheVariants.{Manual};
ghost use Rattle.text_bytes.specs.Text.{Text};
ghost use Rattle.text_tables.specs.Pairs.{value_of};
ghost use Rattle.text_core.specs.Choices.{choice_fits};
ghost use Rattle.device_core.specs.Values.{DeviceValue};
ghost use Rattle.rule_types.specs.declared.roles.MatchOperator.TheVariants.{Equal, NotEqual};
ghost use Rattle.rule_types.specs.declared.roles.PlainKey.{PlainKey};
ghost use Rattle.rule_types.specs.declared.roles.PlainKey.TheVariants as plain;
ghost use Rattle.rule_types.specs.declared.roles.UpKey.{UpKey};
ghost use Rattle.rule_types.specs.declared.roles.UpKey.TheVariants as up;
ghost use Rattle.rule_types.specs.declared.part.Comparison.{Comparison};
ghost use Rattle.rule_types.specs.declared.part.UpMatch.{UpMatch};
ghost use Rattle.eval_state.specs.Chains.{device_at};
ghost use Rattle.eval_state.specs.declared.state.State.{State};
ghost use Rattle.eval_laws.specs.Comparing.{AreOpposite, ComparesAsItIs, ComparesWithoutItsEnd, device_texts, event_texts};
ghost use Rattle.eval_rendering.specs.Holding.{Subject, agrees, holds, one};
ghost use Rattle.eval_rendering.specs.Laws.{IsFirstToMeet, NoneMeets};
ghost use Rattle.eval_rendering.specs.Subjects.{found_place, is_known, plain_subject, up_subject};

/// A search finds one device that meets all of the matches, and of several the nearest.
pub fn one_device_meets_all_matches()
    ensures { (parts : List UpMatch) (state : State) (place : ℕ) → found_place parts state ≡ Some place → IsFirstToMeet parts state place }
{}

/// A search finds nothing if and only if no device of the chain meets all of the matches.
pub fn nothing_is_found_where_no_device_meets_all_matches()
    ensures { (parts : List UpMatch) (state : State) → (found_place parts state ≡ None) ↔ NoneMeets parts state }
{}

/// `==` of any key except ATTR and ATTRS holds if and only if the choice fits a text that the key looks at, as it
/// is. With udev that is so for keys other than SUBSYSTEM, and those of links and tags.
pub fn texts_are_compared_as_they_are()
    ensures event { (key : PlainKey) (state : State) → state.event.profile ≡ Manual → ((name : Text) → ¬ (key ≡ plain.Attr name))
        → ComparesAsItIs (plain_subject key state) (event_texts key state) }
    ensures device { (key : UpKey) (state : State) (place : ℕ) (device : DeviceValue) → device_at state.event place ≡ Some device
        → state.event.profile ≡ Manual → ((name : Text) → ¬ (key ≡ up.Attrs name))
        → ComparesAsItIs (up_subject key state place) (device_texts key state place device) }
    ensures udev_event { (key : PlainKey) (state : State) → ((name : Text) → ¬ (key ≡ plain.Attr name)) → key ≢ plain.Subsystem → key ≢ plain.Symlink
        → key ≢ plain.Tag → ComparesAsItIs (plain_subject key state) (event_texts key state) }
    ensures udev_device { (key : UpKey) (state : State) (place : ℕ) (device : DeviceValue) → device_at state.event place ≡ Some device
        → ((name : Text) → ¬ (key ≡ up.Attrs name)) → key ≢ up.Tags
        → ComparesAsItIs (up_subject key state place) (device_texts key state place device) }
    ensures program { (state : State) → ComparesAsItIs (one state.result) (state.result ∷ []) }
{}

/// By the manual `!=` holds just where `==` does not, whatever a key looks at; a CONST of a name that is no constant holds
/// with neither. With udev a match holds with at most one of the two.
pub fn unequal_holds_just_where_equal_does_not()
    ensures event { (key : PlainKey) (state : State) → state.event.profile ≡ Manual → ((name : Text) → key ≡ plain.Const name → is_known name ≡ true)
        → AreOpposite (plain_subject key state) }
    ensures device { (key : UpKey) (state : State) (place : ℕ) → state.event.profile ≡ Manual → AreOpposite (up_subject key state place) }
    ensures program { (state : State) → AreOpposite (one state.result) }
    ensures unknown { (name : Text) (state : State) (wanted : Comparison) → is_known name ≡ false
        → holds (plain_subject (plain.Const name) state) wanted ≡ false }
    ensures udev { (subject : Subject) (wanted : Comparison)
        → (holds subject (record wanted { operator = NotEqual }) && holds subject (record wanted { operator = Equal })) ≡ false }
{}

/// CONST looks at the constant of its name as it is, and if the event gives none, `==` fails and `!=` holds.
pub fn constants_are_compared_as_they_are()
    ensures given { (name text : Text) (state : State) (wanted : Comparison) → is_known name ≡ true → value_of state.event.constants name ≡ Some text
        → holds (plain_subject (plain.Const name) state) wanted ≡ agrees wanted.operator (choice_fits wanted.choice text) }
    ensures absent { (name : Text) (state : State) (wanted : Comparison) → is_known name ≡ true → value_of state.event.constants name ≡ None
        → holds (plain_subject (plain.Const name) state) wanted ≡ agrees wanted.operator false }
{}

/// `==` of ATTR and ATTRS holds if and only if the choice fits the attribute, if the last pattern of the choice
/// ends in whitespace, and else if and only if it fits the attribute without the whitespace at its end.
pub fn attributes_are_compared_without_their_end()
    ensures event { (name text : Text) (state : State) → state.event.profile ≡ Manual → value_of state.event.device.attrs name ≡ Some text
        → ComparesWithoutItsEnd (plain_subject (plain.Attr name) state) text }
    ensures device { (name text : Text) (state : State) (place : ℕ) (device : DeviceValue) → state.event.profile ≡ Manual
        → device_at state.event place ≡ Some device → value_of device.attrs name ≡ Some text
        → ComparesWithoutItsEnd (up_subject (up.Attrs name) state place) text }
{}
