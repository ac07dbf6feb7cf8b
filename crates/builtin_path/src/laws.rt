//! What is true of paths.
ghost use Rattle.std.specs.Prelude.{◌≡◌, ◌∷◌, ◌++◌, ◌≤◌, [], List, Option, false, length};
ghost use Rattle.std.specs.List.{join_with_byte};
ghost use Rattle.text_bytes.specs.Names.{minus};
ghost use Rattle.text_bytes.specs.Text.{Text};
ghost use Rattle.device_core.specs.Values.{EventValue};
ghost use Rattle.builtin_path.specs.Path.{path_id, tag};
ghost use Rattle.builtin_path.specs.Usb.{port_start};
ghost use Rattle.builtin_path.specs.declared.usb.Revision.{Revision};

/// Paths whose parts are the same except for one are the same only if that one is.
pub fn each_part_distinguishes_paths()
    ensures { (prefix back : List Text) (part other : Text)
        → join_with_byte minus (prefix ++ part ∷ back) ≡ join_with_byte minus (prefix ++ other ∷ back) → part ≡ other }
{}

/// Parts of ports below root hubs of one revision are the same only if the ports are.
pub fn parts_distinguish_ports()
    ensures { (revision : Option Revision) (port other : Text) → port_start revision ++ port ≡ port_start revision ++ other → port ≡ other }
{}

/// If path_id fails it sets nothing.
pub fn nothing_is_set_without_a_path()
    ensures { (event : EventValue) → (path_id event).is_done ≡ false → (path_id event).properties ≡ [] }
{}

/// A tag has at most 511 bytes.
pub fn tags_are_short()
    ensures { (text : Text) → length (tag text) ≤ 511 }
{}
