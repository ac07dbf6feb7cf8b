//! What is true of names that udev looks up below a device, and of paths.
//!
//! Each function here is empty: its contract is the law.
ghost use Rattle.std.specs.Prelude.{◌≡◌, ◌≤◌, ◌∷◌, ◌++◌, ℕ, List, [], Some, codes, length, take, true, false};
ghost use Rattle.text_bytes.specs.Names.{slash};
ghost use Rattle.text_bytes.specs.declared.profile.Profile.TheVariants.{Manual, Udev};
ghost use Rattle.text_tables.specs.Pairs.{Pair};
ghost use Rattle.text_bytes.specs.Text.{Text};
ghost use Rattle.text_tables.specs.Texts.{same_text};
ghost use Rattle.device_core.specs.Values.{DeviceValue, EventValue};
ghost use Rattle.eval_state.specs.Files.{has_name, star_place, starred};
ghost use Rattle.eval_state.specs.Laws.{leads};
ghost use Rattle.eval_state.specs.Notes.{kept_word};
ghost use Rattle.eval_state.specs.Properties.{given_properties};
ghost use Rattle.eval_state.specs.Places.{PlaceValue, gone, has, is_there, path_to, stays};
ghost use Rattle.eval_state.specs.declared.note_kind.NoteKind.TheVariants.{BuiltinNeeds, NoAnswer};

/// What a name with a folder `*` stands for is a file or a folder of the device.
pub fn starred_names_are_there()
    ensures { (device : DeviceValue) (name found : Text) (place : ℕ) → star_place name ≡ Some place → starred device name ≡ Some found
        → has_name device found ≡ true }
{}

/// A component of a path that is empty or `.` does not change where the next one leads. A component that leads into a folder,
/// and `..` after it, lead back.
pub fn a_path_leads_where_its_components_do()
    ensures stays { (at : PlaceValue) (component next : Text) → stays component ≡ true → gone (gone at component) next ≡ gone at next }
    ensures back { (at : PlaceValue) (component : Text) → stays component ≡ false → same_text component (codes "..") ≡ false
        → (gone (gone at component) (codes "..")).components ≡ at.components }
{}

/// What the event device has under a name is there, below the device's own path.
pub fn what_the_device_has_is_there()
    ensures { (event : EventValue) (at : PlaceValue) (name : Text) → path_to at ≡ event.device.path ++ slash ∷ name → has at.is_folder event.device name ≡ true
        → is_there event at ≡ true }
{}

/// Where some names lead in the folder of a device with the attributes `q/a/x` and `q/b/y`, below one with the attribute `v`.
#[tactic(auto, unfolding(crate::specs::Files::star_place))]
pub fn some_paths()
    ensures own { leads (codes "") ≡ true }
    ensures dot { leads (codes ".") ≡ true }
    ensures end { leads (codes "q/") ≡ true }
    ensures double { leads (codes "q//a") ≡ true }
    ensures here { leads (codes "./q") ≡ true }
    ensures up { leads (codes "q/a/../b") ≡ true }
    ensures star { leads (codes "q/*/") ≡ true }
    ensures star_up { leads (codes "q/*/../b") ≡ true }
    ensures parent { leads (codes "../v") ≡ true }
    ensures itself { leads (codes "../s/q/a/x") ≡ true }
    ensures above { leads (codes "../..") ≡ true }
    ensures file { leads (codes "q/a/x/") ≡ false }
    ensures literal { leads (codes "q/*") ≡ false }
    ensures absent { leads (codes "q/c") ≡ false }
    ensures other { leads (codes "../w") ≡ false }
{}

/// By the manual a device has the properties that its block gives it. For udev it has those of them that are not empty, in
/// their order.
pub fn an_empty_property_is_none_for_udev()
    ensures manual { (env : List Pair) → given_properties Manual env ≡ env }
    ensures none { given_properties Udev [] ≡ [] }
    ensures empty { (before following : List Pair) (name : Text)
        → given_properties Udev (before ++ (name, []) ∷ following) ≡ given_properties Udev before ++ given_properties Udev following }
    ensures filled { (before following : List Pair) (name text : Text) (byte : ℕ)
        → given_properties Udev (before ++ (name, byte ∷ text) ∷ following)
        ≡ given_properties Udev before ++ (name, byte ∷ text) ∷ given_properties Udev following }
{}

/// What a builtin needs is told in up to 256 bytes, and what another note is about in up to 32.
pub fn a_note_keeps_the_first_bytes()
    ensures needs { (text : Text) → length text ≤ 256 → kept_word BuiltinNeeds text ≡ text }
    ensures more { (text following : Text) → length text ≡ 256 → kept_word BuiltinNeeds (text ++ following) ≡ text }
    ensures other { (text : Text) → kept_word NoAnswer text ≡ take 32 text }
{}
