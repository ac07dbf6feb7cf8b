//! What `hwdb` is asked, which texts it looks up, and what it finds. Each function here is empty: its
//! contract is the law.
ghost use Rattle.std.specs.Prelude.{◌≡◌, ◌↔◌, ◌≤◌, [], ◌∷◌, ◌++◌, ℕ, List, Some, None, Ok, codes, filter, length, take, true, false};
ghost use Rattle.std.specs.List.{flat_map, list_any};
ghost use Rattle.text_bytes.specs.Texts.{is_empty};
ghost use Rattle.text_bytes.specs.declared.profile.Profile.{Profile};
ghost use Rattle.text_bytes.specs.declared.profile.Profile.TheVariants.{Manual, Udev};
ghost use Rattle.text_bytes.specs.Text.{Text};
ghost use Rattle.text_tables.specs.Pairs.{Pair, value_of};
ghost use Rattle.text_core.specs.Fits.{fits};
ghost use Rattle.text_core.specs.Spell.{spell};
ghost use Rattle.text_core.specs.declared.item.Item.{Item};
ghost use Rattle.trie_nodes.specs.Query.{query};
ghost use Rattle.builtin_devices.specs.Knowledge.{Known};
ghost use Rattle.device_core.specs.Values.{DeviceValue};
ghost use Rattle.builtin_devices.specs.Devices.{is_of};
ghost use Rattle.builtin_devices.specs.Numbers.{number_in};
ghost use Rattle.builtin_devices.specs.declared.numbers.Base.TheVariants.{Hexadecimal};
ghost use Rattle.eval_state.specs.Texts.{or_empty};
ghost use Rattle.eval_state.specs.declared.state.State.{State};
ghost use Rattle.eval_commands.specs.Hwdb.{hwdb_of};
ghost use Rattle.eval_commands.specs.LookUps.{Candidate, candidate, candidates, counted_properties, found, is_last, texts};
ghost use Rattle.eval_commands.specs.UsbModalias.{four_digits, made_up, number_of};
ghost use Rattle.eval_commands.specs.declared.hwdb.Hwdb.{Hwdb};
ghost use Rattle.eval_laws.specs.LookUps.{HasNoValue, IsFirstAnswer, IsLastValue, texts_of};

/// The properties that are found are the whole answer to the first text that has one, and none are found if and
/// only if no text has one.
pub fn the_first_answer_is_found()
    ensures some { (known : Known) (hwdb : Hwdb) (state : State) (properties : List Pair) → is_empty properties ≡ false
        → (found known hwdb state ≡ properties) ↔ IsFirstAnswer known hwdb (texts hwdb state) properties }
    ensures none { (known : Known) (hwdb : Hwdb) (state : State)
        → (found known hwdb state ≡ []) ↔ (flat_map (counted_properties known hwdb) (texts hwdb state) ≡ []) }
{}

/// Of what the database has for a text those properties count whose keys the filter takes, and without one all.
pub fn properties_that_the_filter_takes_count()
    ensures filtered { (known : Known) (hwdb : Hwdb) (text : Text) (pattern : List Item) → hwdb.filter ≡ Some pattern
        → counted_properties known hwdb text ≡ filter (λ property. fits pattern property.0) (query known.entries text) }
    ensures all { (known : Known) (hwdb : Hwdb) (text : Text) → hwdb.filter ≡ None → counted_properties known hwdb text ≡ query known.entries text }
{}

/// A modalias that is given is the only text, after the prefix. Without one, the texts are the modaliases
/// of the wanted devices, nearest first, each after the prefix: up to the first wanted device whose
/// subsystem is `usb` and whose DEVTYPE is `usb_device`, with that one, or of all if there is none.
/// With udev the first text of that device or one after it is still looked up, and none after that.
pub fn no_device_after_a_usb_device_is_asked()
    ensures given { (hwdb : Hwdb) (state : State) (modalias : Text) → hwdb.modalias ≡ Some modalias → texts hwdb state ≡ (hwdb.prefix ++ modalias) ∷ [] }
    ensures up_to { (hwdb : Hwdb) (state : State) (before following : List Candidate) (last : Candidate) → state.event.profile ≡ Manual
        → hwdb.modalias ≡ None → candidates state ≡ before ++ last ∷ following → list_any (is_last hwdb.subsystem) before ≡ false
        → is_last hwdb.subsystem last ≡ true → texts hwdb state ≡ texts_of hwdb (before ++ last ∷ []) }
    ensures udev { (hwdb : Hwdb) (state : State) (before following : List Candidate) (last : Candidate) → state.event.profile ≡ Udev → hwdb.modalias ≡ None
        → candidates state ≡ before ++ last ∷ following → list_any (is_last hwdb.subsystem) before ≡ false → is_last hwdb.subsystem last ≡ true
        → texts hwdb state ≡ texts_of hwdb before ++ take 1 (texts_of hwdb (last ∷ following)) }
    ensures all { (hwdb : Hwdb) (state : State) → hwdb.modalias ≡ None → list_any (is_last hwdb.subsystem) (candidates state) ≡ false
        → texts hwdb state ≡ texts_of hwdb (candidates state) }
{}

/// A device that has the property MODALIAS is looked up by it; with udev an empty one is none. With udev a USB device without it has `usb:v`, four
/// digits, `p`, four digits, a colon and the product's name, cut off after 2,047 bytes, if both attributes are
/// numbers of at most 65,535; the digits are those of these numbers. By the manual it has none, and with udev no other
/// device has one.
pub fn a_usb_device_may_have_a_modalias_made_up()
    ensures own { (profile : Profile) (device : DeviceValue) (env : List Pair) (modalias : Text) → value_of env (codes "MODALIAS") ≡ Some modalias
        → is_empty modalias ≡ false → (candidate profile device env).modalias ≡ Some modalias }
    ensures empty { (device : DeviceValue) (env : List Pair) → value_of env (codes "MODALIAS") ≡ Some []
        → (candidate Udev device env).modalias ≡ made_up device }
    ensures made { (device : DeviceValue) (env : List Pair) (vendor product : ℕ) → value_of env (codes "MODALIAS") ≡ None
        → is_of (codes "usb") (Some (codes "usb_device")) device ≡ true → number_of device (codes "idVendor") ≡ Some vendor
        → number_of device (codes "idProduct") ≡ Some product
        → (candidate Udev device env).modalias ≡ Some (take 2047 (codes "usb:v" ++ four_digits vendor ++ codes "p" ++ four_digits product ++ codes ":"
        ++ or_empty (value_of device.attrs (codes "product")))) }
    ensures digits { (number : ℕ) → number ≤ 65535 → (length (four_digits number) ≡ 4) × (number_in Hexadecimal 65535 (four_digits number) ≡ Some number) }
    ensures manual { (device : DeviceValue) (env : List Pair) → value_of env (codes "MODALIAS") ≡ None → (candidate Manual device env).modalias ≡ None }
    ensures others { (device : DeviceValue) (env : List Pair) → value_of env (codes "MODALIAS") ≡ None
        → is_of (codes "usb") (Some (codes "usb_device")) device ≡ false → (candidate Udev device env).modalias ≡ None }
{}

/// Of an option that is given several times, the last counts; one that is not given leaves no subsystem, an empty
/// prefix and no filter.
pub fn the_last_of_an_option_counts()
    ensures subsystem { (words : List Text) (hwdb : Hwdb) (value : Text) → hwdb_of words ≡ Some hwdb
        → (hwdb.subsystem ≡ Some value) ↔ IsLastValue (codes "--subsystem") words value }
    ensures prefix { (words : List Text) (hwdb : Hwdb) (value : Text) → hwdb_of words ≡ Some hwdb → IsLastValue (codes "--lookup-prefix") words value
        → hwdb.prefix ≡ value }
    ensures no_prefix { (words : List Text) (hwdb : Hwdb) → hwdb_of words ≡ Some hwdb → HasNoValue (codes "--lookup-prefix") words → hwdb.prefix ≡ [] }
    ensures filter { (words : List Text) (hwdb : Hwdb) (pattern : List Item) → hwdb_of words ≡ Some hwdb
        → (hwdb.filter ≡ Some pattern) ↔ ((value : Text) × IsLastValue (codes "--filter") words value × (spell value ≡ Ok pattern)) }
{}
