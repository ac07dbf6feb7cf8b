//! What names and paths say, by examples, and which builtins ask for a device of each kind.
ghost use Rattle.std.specs.Prelude.{◌≡◌, ◌∷◌, [], None, Some, codes, filter};
ghost use Rattle.builtin_core.specs.Kinds.{kind_of};
ghost use Rattle.builtin_core.specs.Needs.{asks};
ghost use Rattle.builtin_core.specs.Paths.{shown_paths};

use crate::asking::Asker;
use crate::kinds::Kind;

/// Examples: what a name says that a device is.
pub fn names_say_what_devices_are()
    ensures function { kind_of (codes "0000:04:00.0") ≡ Some Kind.Function }
    ensures domain { kind_of (codes "10000:e1:1f.7") ≡ Some Kind.Function }
    ensures hub { kind_of (codes "usb12") ≡ Some Kind.UsbDevice }
    ensures port { kind_of (codes "1-2.3") ≡ Some Kind.UsbDevice }
    ensures interface { kind_of (codes "1-2.3:1.0") ≡ Some Kind.UsbInterface }
    ensures host { kind_of (codes "host6") ≡ Some Kind.ScsiParent }
    ensures target { kind_of (codes "target6:0:0") ≡ Some Kind.ScsiParent }
    ensures unit { kind_of (codes "6:0:0:0") ≡ Some Kind.ScsiDevice }
    ensures controller { kind_of (codes "nvme0") ≡ Some Kind.Nvme }
    ensures subsystem { kind_of (codes "nvme-subsys0") ≡ Some Kind.Nvme }
    ensures virtio { kind_of (codes "virtio2") ≡ Some Kind.Virtio }
    ensures serio { kind_of (codes "serio1") ≡ Some Kind.Serio }
    ensures input { kind_of (codes "input7") ≡ Some Kind.Input }
{}

/// Examples: names that say nothing.
pub fn other_names_say_nothing()
    ensures bus { kind_of (codes "pci0000:00") ≡ None }
    ensures folder { kind_of (codes "input") ≡ None }
    ensures node { kind_of (codes "nvme0n1") ≡ None }
    ensures hid { kind_of (codes "0003:046D:C03E.0001") ≡ None }
    ensures port { kind_of (codes "usb1-port2") ≡ None }
    ensures place { kind_of (codes "6:0:0") ≡ None }
    ensures ports { kind_of (codes "1-2.") ≡ None }
{}

/// Examples: the devices that a path shows.
pub fn paths_show_devices()
    ensures shown { shown_paths (codes "/d/0000:00:14.0/usb1/1-2/1-2:1.0/x") ≡ codes "/d/0000:00:14.0/usb1/1-2/1-2:1.0" ∷ codes "/d/0000:00:14.0/usb1/1-2"
        ∷ codes "/d/0000:00:14.0/usb1" ∷ codes "/d/0000:00:14.0" ∷ [] }
    ensures own { shown_paths (codes "/d/input7") ≡ codes "/d/input7" ∷ [] }
{}

/// Which builtins ask for a device of each kind that a path shows: for one of input `input_id` alone, and for any other
/// `path_id`; beside it `usb_id` for those of USB and for a SCSI device, and `net_id` for a function of PCI, an interface of
/// USB and a device of virtio.
pub fn each_kind_is_asked_for_by_its_builtins()
    ensures function { filter (λ who. asks who Kind.Function) (Asker.UsbId ∷ Asker.PathId ∷ Asker.InputId ∷ Asker.NetId ∷ [])
        ≡ Asker.PathId ∷ Asker.NetId ∷ [] }
    ensures device { filter (λ who. asks who Kind.UsbDevice) (Asker.UsbId ∷ Asker.PathId ∷ Asker.InputId ∷ Asker.NetId ∷ []) ≡ Asker.UsbId ∷ Asker.PathId ∷ [] }
    ensures interface { filter (λ who. asks who Kind.UsbInterface) (Asker.UsbId ∷ Asker.PathId ∷ Asker.InputId ∷ Asker.NetId ∷ [])
        ≡ Asker.UsbId ∷ Asker.PathId ∷ Asker.NetId ∷ [] }
    ensures host { filter (λ who. asks who Kind.ScsiParent) (Asker.UsbId ∷ Asker.PathId ∷ Asker.InputId ∷ Asker.NetId ∷ []) ≡ Asker.PathId ∷ [] }
    ensures unit { filter (λ who. asks who Kind.ScsiDevice) (Asker.UsbId ∷ Asker.PathId ∷ Asker.InputId ∷ Asker.NetId ∷ []) ≡ Asker.UsbId ∷ Asker.PathId ∷ [] }
    ensures controller { filter (λ who. asks who Kind.Nvme) (Asker.UsbId ∷ Asker.PathId ∷ Asker.InputId ∷ Asker.NetId ∷ []) ≡ Asker.PathId ∷ [] }
    ensures virtio { filter (λ who. asks who Kind.Virtio) (Asker.UsbId ∷ Asker.PathId ∷ Asker.InputId ∷ Asker.NetId ∷ []) ≡ Asker.PathId ∷ Asker.NetId ∷ [] }
    ensures serio { filter (λ who. asks who Kind.Serio) (Asker.UsbId ∷ Asker.PathId ∷ Asker.InputId ∷ Asker.NetId ∷ []) ≡ Asker.PathId ∷ [] }
    ensures input { filter (λ who. asks who Kind.Input) (Asker.UsbId ∷ Asker.PathId ∷ Asker.InputId ∷ Asker.NetId ∷ []) ≡ Asker.InputId ∷ [] }
{}
