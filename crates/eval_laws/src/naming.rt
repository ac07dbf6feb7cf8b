//! What is true of names of attributes that also name their device, as udev reads them. Each function here is
//! empty: its contract is the law.
ghost use Rattle.std.specs.Prelude.{◌≡◌, ◌↔◌, ◌<◌, ◌∷◌, ◌++◌, ℕ, Some, None, true, false, length};
ghost use Rattle.text_bytes.specs.Names.{close_bracket, slash};
ghost use Rattle.text_bytes.specs.Texts.{begins_with};
ghost use Rattle.text_bytes.specs.Text.{Text};
ghost use Rattle.device_core.specs.Values.{DeviceValue, EventValue, chain};
ghost use Rattle.eval_state.specs.Chains.{device_at, kernel_of};
ghost use Rattle.eval_state.specs.Named.{NamedValue, is_named, named, named_place};
ghost use Rattle.eval_assignments.specs.Attributes.{named_whole};
ghost use Rattle.eval_laws.specs.Naming.{HasNone, IsNearestNamed, IsWrittenSo, bracketed};

/// A name that begins with `[SUBSYSTEM/KERNEL]` names a device and, after that, its attribute, if the subsystem has
/// no slash and the kernel's name no `]`. One slash before the attribute is not part of it. No other name names a
/// device.
pub fn a_name_in_brackets_names_a_device()
    ensures plain { (subsystem kernel attribute : Text) → HasNone slash subsystem → HasNone close_bracket kernel → begins_with slash attribute ≡ false
        → named (bracketed subsystem kernel attribute) ≡ Some (record { subsystem = subsystem; kernel = kernel; attribute = attribute }) }
    ensures slashed { (subsystem kernel attribute : Text) → HasNone slash subsystem → HasNone close_bracket kernel
        → named (bracketed subsystem kernel (slash ∷ attribute)) ≡ Some (record { subsystem = subsystem; kernel = kernel; attribute = attribute }) }
    ensures others { (name : Text) (is : NamedValue) → named name ≡ Some is → IsWrittenSo name is }
{}

/// A device is the named one if and only if it has both the subsystem and the kernel's name; of several in a chain the nearest is
/// meant.
pub fn the_nearest_device_is_named()
    ensures meant { (is : NamedValue) (device : DeviceValue)
        → (is_named is (Some device) ≡ true) ↔ ((device.subsystem ≡ Some is.subsystem) × (kernel_of device ≡ is.kernel)) }
    ensures found { (is : NamedValue) (event : EventValue) (place : ℕ) → named_place is event ≡ Some place → IsNearestNamed is event place }
    ensures none { (is : NamedValue) (event : EventValue) → (named_place is event ≡ None) ↔ ((place : ℕ) → place < length (chain event)
        → is_named is (device_at event place) ≡ false) }
{}

/// An attribute that is found on a device above is reported with what stands before the attribute in the written name.
pub fn an_attribute_above_keeps_what_stands_before_it()
    ensures { (is : NamedValue) (front found : Text) → named_whole is (front ++ is.attribute) found ≡ front ++ found }
{}
