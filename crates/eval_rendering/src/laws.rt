//! What holds of names of attributes, whatever they are. Each function here is empty: its contract is the law.
ghost use Rattle.std.specs.Prelude.{◌≡◌, ◌++◌, codes, false, true, None, Some};
ghost use Rattle.text_bytes.specs.Names.{dot};
ghost use Rattle.text_bytes.specs.Texts.{begins_with};
ghost use Rattle.text_tables.specs.Pairs.{value_of};
ghost use Rattle.text_bytes.specs.Text.{Text};
ghost use Rattle.text_tables.specs.Texts.{same_text};
ghost use Rattle.device_core.specs.Values.{DeviceValue, EventValue};
ghost use Rattle.rule_tokens.specs.Bare.{has_close};
ghost use Rattle.eval_state.specs.Laws.{with_folders};
ghost use Rattle.eval_state.specs.declared.state.State.{State};
ghost use Rattle.eval_rendering.specs.Behind.{linked_device, rest_behind};
ghost use Rattle.eval_rendering.specs.Names.{name_text};
ghost use Rattle.eval_rendering.specs.Paths.{is_unread, read_value};
ghost use Rattle.eval_rendering.specs.Rendering.{rendered_as_udev};
ghost use Rattle.eval_rendering.specs.declared.rendered.Rendered.TheVariants as rendered;

/// A name without a closing brace, as each name between braces is, is what rendering makes of it.
pub fn a_name_is_rendered_as_a_text()
    ensures { (name text : Text) (state : State) → has_close name ≡ false → rendered_as_udev name state ≡ rendered.Text text → name_text name state ≡ text }
{}

/// What the block has for a device under a name is what udev reads. If it has nothing, and the name neither begins with a
/// dot nor is that of a link nor leads through the link `device`, udev reads nothing.
pub fn what_the_block_has_is_read()
    ensures had { (event : EventValue) (device : DeviceValue) (name value : Text) → value_of device.attrs name ≡ Some value
        → read_value event device name ≡ Some value }
    ensures absent { (event : EventValue) (device : DeviceValue) (name : Text) → value_of device.attrs name ≡ None → begins_with dot name ≡ false
        → same_text name (codes "driver") ≡ false → same_text name (codes "subsystem") ≡ false → rest_behind name ≡ None
        → read_value event device name ≡ None }
{}

/// What udev reads for a device of the subsystem `m` with the attributes `q/a/x` and `q/b/y`, below one with the attribute
/// `v`, which is in the top folder; and which of the names lead to what the block does not tell.
#[tactic(auto, unfolding(crate::specs::Paths::led_place, crate::specs::Paths::is_unread, text_bytes::specs::Texts::split_once))]
pub fn some_names_of_attributes()
    ensures own { read_value with_folders with_folders.device (codes "q/b/y") ≡ Some (codes "6") }
    ensures here { read_value with_folders with_folders.device (codes "./q/b/y") ≡ Some (codes "6") }
    ensures up { read_value with_folders with_folders.device (codes "../v") ≡ Some (codes "1") }
    ensures here_and_up { read_value with_folders with_folders.device (codes "./../v") ≡ Some (codes "1") }
    ensures down { read_value with_folders with_folders.device (codes "../s/q/b/y") ≡ None }
    ensures above { read_value with_folders with_folders.device (codes "../../v") ≡ None }
    ensures link { read_value with_folders with_folders.device (codes "subsystem") ≡ Some (codes "m") }
    ensures no_link { read_value with_folders with_folders.device (codes "driver") ≡ None }
    ensures link_above { read_value with_folders with_folders.device (codes "../subsystem") ≡ None }
    ensures told { is_unread with_folders with_folders.device (codes "../v") ≡ false }
    ensures denied { is_unread with_folders with_folders.device (codes "../w") ≡ false }
    ensures denied_here { is_unread with_folders with_folders.device (codes "./w") ≡ false }
    ensures beside { is_unread with_folders with_folders.device (codes "../t/v") ≡ true }
    ensures outside { is_unread with_folders with_folders.device (codes "../../v") ≡ true }
    ensures plain { is_unread with_folders with_folders.device (codes "w") ≡ false }
{}

/// Behind the link `device` lies what the block has of the device to which it leads, unless the block has it for the device itself.
pub fn an_attribute_behind_the_link_is_one_of_the_device_above()
    ensures { (event : EventValue) (device above : DeviceValue) (rest : Text) → linked_device event device ≡ Some above
        → value_of device.attrs (codes "device/" ++ rest) ≡ None
        → read_value event device (codes "device/" ++ rest) ≡ value_of above.attrs rest }
{}
