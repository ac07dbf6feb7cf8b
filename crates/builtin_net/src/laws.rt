//! What is true of the names of each interface.
//!
//! Each function here is empty: its contract is the law.
ghost use Rattle.std.specs.Prelude.{◌≡◌, ◌≤◌, All, List, None, Some, [], codes, false, length, not};
ghost use Rattle.link_files.specs.Booleans.{is_yes};
ghost use Rattle.text_bytes.specs.Text.{Text};
ghost use Rattle.text_tables.specs.Pairs.{Pair, value_of};
ghost use Rattle.device_core.specs.Values.{EventValue};
ghost use Rattle.builtin_net.specs.Allowed.{interface, permission, permission_of_all};
ghost use Rattle.builtin_net.specs.Identity.{is_alone};
ghost use Rattle.builtin_net.specs.NetId.{net_id};
ghost use Rattle.builtin_net.specs.declared.allowed.Attribute.TheVariants.{Iflink};

/// No property has more than 127 bytes.
pub fn names_are_short()
    ensures { (event : EventValue) (env : List Pair) → All (λ pair. length pair.1 ≤ 127) (net_id event env).properties }
{}

/// An interface that is stacked on another has no names.
pub fn stacked_interfaces_have_no_names()
    ensures { (event : EventValue) (env : List Pair) → is_alone event (interface event env) ≡ false → (net_id event env).properties ≡ [] }
{}

/// If a property forbids all attributes of an interface, and none allows its `iflink`, net_id fails.
pub fn forbidden_interfaces_fail()
    ensures { (event : EventValue) (env : List Pair) (word : Text)
        → value_of env permission_of_all ≡ Some word → is_yes word ≡ false → value_of env (permission Iflink) ≡ None
        → (net_id event env).is_done ≡ false }
{}
