//! What holds of properties behind commands, and of the numbers of devices by a profile. Each function here is empty: its
//! contract is the law.
ghost use Rattle.std.specs.Prelude.{◌≡◌, List, [], ◌∷◌, ◌++◌, Option, Some, None, codes, true, false};
ghost use Rattle.std.specs.List.{AllByRecursion};
ghost use Rattle.text_bytes.specs.Text.{Text};
ghost use Rattle.text_tables.specs.Pairs.{Pair};
ghost use Rattle.device_core.specs.Blocks.{behind_in, is_kind};
ghost use Rattle.device_core.specs.Lines.{Row};
ghost use Rattle.device_core.specs.Parts.{pair_of};
ghost use Rattle.device_core.specs.declared.lines.DeviceField.TheVariants.{Attribute, Property};
ghost use Rattle.device_core.specs.declared.lines.LineKind.TheVariants.{Action, Answer, Command, Device, Field};
ghost use Rattle.text_bytes.specs.declared.profile.Profile.TheVariants.{Manual};
ghost use Rattle.device_core.specs.Values.{NumberValue, is_given, number_by};

/// Of the lines about the last device, the first property behind the first command is known, whatever else there is; if there
/// is no command, none is.
pub fn a_property_behind_a_command_is_known()
    ensures known { (above about between below : List Row) (path command text : Text) (pair : Pair)
        → AllByRecursion (λ row. is_kind Command row ≡ false) about
        → AllByRecursion (λ row. is_kind Device row ≡ false) between → AllByRecursion (λ row. is_kind (Field Property) row ≡ false) between
        → AllByRecursion (λ row. is_kind Device row ≡ false) below → pair_of text ≡ Some pair
        → (behind_in (((above ++ (Device, path) ∷ about) ++ (Command, command) ∷ between) ++ (Field Property, text) ∷ below)).property ≡ Some pair.0 }
    ensures none { (above about : List Row) (path : Text) → AllByRecursion (λ row. is_kind Command row ≡ false) about
        → (behind_in (above ++ (Device, path) ∷ about)).property ≡ None }
{}

/// A property behind a command of the farthest parent, in a whole block; the one behind a command of the device is not meant.
pub fn a_property_of_the_farthest_parent()
    ensures { (behind_in ((Action, codes "add") ∷ (Device, codes "/a/b") ∷ (Command, codes "x") ∷ (Answer, codes "0") ∷ (Field Property, codes "MINE=1")
        ∷ (Device, codes "/a") ∷ (Field Property, codes "ITS=1") ∷ (Command, codes "y") ∷ (Answer, codes "0") ∷ (Field Attribute, codes "n=1")
        ∷ (Field Property, codes "LATE=1") ∷ (Field Property, codes "LATER=1") ∷ [])).property ≡ Some (codes "LATE") }
{}

/// By the manual a device has the number that its block gives it.
pub fn a_number_of_the_block_is_kept_by_the_manual()
    ensures { (number : Option NumberValue) → number_by Manual number ≡ number }
{}

/// Numbers that are those of a device for udev, and some that are not.
pub fn some_numbers()
    ensures usual { is_given (record { major = codes "8"; minor = codes "0" }) ≡ true }
    ensures greatest { is_given (record { major = codes "4095"; minor = codes "1048575" }) ≡ true }
    ensures zero { is_given (record { major = codes "0"; minor = codes "5" }) ≡ false }
    ensures zeros { is_given (record { major = codes "00"; minor = codes "5" }) ≡ false }
    ensures major { is_given (record { major = codes "4096"; minor = codes "1" }) ≡ false }
    ensures minor { is_given (record { major = codes "1"; minor = codes "1048576" }) ≡ false }
{}
