//! What is true of the notes about a block. Each function here is empty: its contract is the law.
ghost use Rattle.std.specs.Prelude.{◌≡◌, ◌≢◌, ◌↔◌, ◌⊎◌, ◌∷◌, ◌++◌, ℕ, [], List, None, Some, codes, false, flat_map, unwrap_or};
ghost use Rattle.text_bytes.specs.declared.profile.Profile.TheVariants.{Manual, Udev};
ghost use Rattle.text_bytes.specs.Names.{carriage_return};
ghost use Rattle.text_bytes.specs.Text.{Text};
ghost use Rattle.text_bytes.specs.Texts.{ends_in};
ghost use Rattle.text_tables.specs.Pairs.{value_of};
ghost use Rattle.device_core.specs.Values.{EventValue};
ghost use Rattle.device_core.specs.Laws.{IsNoneOf, notes_of};
ghost use Rattle.device_core.specs.Notes.{block_notes, note_about};
ghost use Rattle.device_core.specs.Tried.{tried};
ghost use Rattle.device_core.specs.declared.kinds.BlockNoteKind.TheVariants.{BehindCommands, GoneAttributes, NoSubsystem, PathBeginsWithSys};
ghost use Rattle.device_core.specs.declared.kinds.BlockNoteKind.TheVariants.{ReturnAtEnds, StoredByUdev, UnknownAction};

/// For udev the action of a block is noted if and only if it is none of the eight that udev has, and then once.
pub fn an_action_that_udev_does_not_have_is_noted()
    ensures noted { (event : EventValue) → event.profile ≡ Udev
        → (notes_of UnknownAction event ≡ note_about UnknownAction event.action ∷ [])
        ↔ IsNoneOf event.action (codes "add" ∷ codes "remove" ∷ codes "change" ∷ codes "move" ∷ codes "online" ∷ codes "offline"
        ∷ codes "bind" ∷ codes "unbind" ∷ []) }
    ensures once { (event : EventValue)
        → (notes_of UnknownAction event ≡ []) ⊎ (notes_of UnknownAction event ≡ note_about UnknownAction event.action ∷ []) }
{}

/// For udev the path of the event device is noted if and only if it is written with `/sys` at its start, and then once.
pub fn a_path_that_begins_with_sys_is_noted()
    ensures noted { (event : EventValue) → event.profile ≡ Udev
        → (notes_of PathBeginsWithSys event ≡ note_about PathBeginsWithSys event.device.path ∷ [])
        ↔ ((below : Text) × (event.device.path ≡ codes "/sys/" ++ below)) }
    ensures once { (event : EventValue)
        → (notes_of PathBeginsWithSys event ≡ []) ⊎ (notes_of PathBeginsWithSys event ≡ note_about PathBeginsWithSys event.device.path ∷ []) }
{}

/// For udev the property USEC_INITIALIZED of the event device is noted if and only if the action is `add` and it is there with a
/// value, and then once.
pub fn a_property_that_udev_stores_is_noted()
    ensures noted { (event : EventValue) → event.profile ≡ Udev
        → (notes_of StoredByUdev event ≡ note_about StoredByUdev (codes "USEC_INITIALIZED") ∷ [])
        ↔ ((event.action ≡ codes "add")
        × ((byte : ℕ) × (following : Text) × (value_of event.device.env (codes "USEC_INITIALIZED") ≡ Some (byte ∷ following)))) }
    ensures once { (event : EventValue)
        → (notes_of StoredByUdev event ≡ []) ⊎ (notes_of StoredByUdev event ≡ note_about StoredByUdev (codes "USEC_INITIALIZED") ∷ []) }
{}

/// For udev a property behind commands is noted if and only if there is one below the last `P:`, and a parent, whose property it
/// is; then it is noted once, by its name.
pub fn a_property_behind_commands_is_noted()
    ensures noted { (event : EventValue) (name : Text) → event.profile ≡ Udev → event.misplaced ≡ Some name
        → (notes_of BehindCommands event ≡ note_about BehindCommands name ∷ []) ↔ (event.parents ≢ []) }
    ensures none { (event : EventValue) → event.misplaced ≡ None → notes_of BehindCommands event ≡ [] }
    ensures once { (event : EventValue) → (notes_of BehindCommands event ≡ [])
        ⊎ (notes_of BehindCommands event ≡ note_about BehindCommands (unwrap_or event.misplaced []) ∷ []) }
{}

/// By the manual the rules of every event are tried. For udev they are if the device has a subsystem or is removed, and otherwise
/// none is.
pub fn no_rule_is_tried_at_a_device_without_a_subsystem()
    ensures manual { (event : EventValue) (rules : List ℕ) → event.profile ≡ Manual → tried event rules ≡ rules }
    ensures of_a_subsystem { (event : EventValue) (rules : List ℕ) (subsystem : Text) → event.device.subsystem ≡ Some subsystem
        → tried event rules ≡ rules }
    ensures removed { (event : EventValue) (rules : List ℕ) → event.action ≡ codes "remove" → tried event rules ≡ rules }
    ensures none { (event : EventValue) (rules : List ℕ) → event.profile ≡ Udev → event.device.subsystem ≡ None
        → event.action ≢ codes "remove" → tried event rules ≡ [] }
{}

/// A device at which no rule is tried is noted, once and by its path, and no other is.
pub fn a_device_without_an_event_is_noted()
    ensures noted { (event : EventValue) (rule : ℕ) → tried event (rule ∷ []) ≡ []
        → notes_of NoSubsystem event ≡ note_about NoSubsystem event.device.path ∷ [] }
    ensures none { (event : EventValue) (rule : ℕ) → tried event (rule ∷ []) ≢ [] → notes_of NoSubsystem event ≡ [] }
{}

/// For udev attributes of the event device are noted if and only if it is removed and the block has some, and then once, by its path.
pub fn attributes_of_a_removed_device_are_noted()
    ensures noted { (event : EventValue) → event.profile ≡ Udev
        → (notes_of GoneAttributes event ≡ note_about GoneAttributes event.device.path ∷ [])
        ↔ ((event.action ≡ codes "remove") × (event.device.attrs ≢ [])) }
    ensures once { (event : EventValue)
        → (notes_of GoneAttributes event ≡ []) ⊎ (notes_of GoneAttributes event ≡ note_about GoneAttributes event.device.path ∷ []) }
{}

/// For udev a path of the event device that ends in a carriage return is noted, once, and no other is.
pub fn a_carriage_return_at_line_ends_is_noted()
    ensures noted { (event : EventValue) (front : Text) → event.profile ≡ Udev → event.device.path ≡ front ++ carriage_return ∷ []
        → notes_of ReturnAtEnds event ≡ note_about ReturnAtEnds event.device.path ∷ [] }
    ensures none { (event : EventValue) → ends_in carriage_return event.device.path ≡ false → notes_of ReturnAtEnds event ≡ [] }
{}

/// The notes about a block are those of its action, of its path, of what udev stores, of properties behind commands, of a device without
/// an event, of attributes that are gone, and of line ends, in this order.
pub fn notes_about_a_block_are_in_order()
    ensures { (event : EventValue)
        → block_notes event
        ≡ flat_map (λ kind. notes_of kind event) (UnknownAction ∷ PathBeginsWithSys ∷ StoredByUdev ∷ BehindCommands ∷ NoSubsystem
        ∷ GoneAttributes ∷ ReturnAtEnds ∷ []) }
{}

/// By the manual nothing about a block is noted.
pub fn nothing_about_a_block_is_noted_by_the_manual()
    ensures { (event : EventValue) → event.profile ≡ Manual → block_notes event ≡ [] }
{}
