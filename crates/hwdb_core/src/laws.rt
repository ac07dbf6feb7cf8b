//! Examples of whole results, each the contract of a function with an empty body.
ghost use Rattle.std.specs.Prelude.{◌≡◌, ◌∷◌, ◌++◌, List, [], codes, false, true, None, Some, Ok};
ghost use Rattle.text_bytes.specs.Text.{Text};
ghost use Rattle.text_core.specs.Fits.{fits};
ghost use Rattle.text_core.specs.Spell.{spell};
ghost use Rattle.text_core.specs.declared.item.Item.{Item};
ghost use Rattle.hwdb_core.specs.Forms.{has_swapped, is_of_form, match_fault, meeting_of};
ghost use Rattle.hwdb_core.specs.Lints.{database_lints};
ghost use Rattle.hwdb_core.specs.Names.{is_name};
ghost use Rattle.hwdb_core.specs.Placed.{placed};
ghost use Rattle.hwdb_core.specs.Values.{takes};
ghost use Rattle.hwdb_core.specs.declared.forms.Meeting.{Meeting};
ghost use Rattle.hwdb_core.specs.declared.lint.DatabaseLint.TheVariants.{BlankAtEnd, BlankAtEquals, ByteOrderMark, CutWord, DigitCase, EndMissing};
ghost use Rattle.hwdb_core.specs.declared.lint.DatabaseLint.TheVariants.{MatchTwice, NoModalias, OddName, OpenSet, PropertyTwice, UnknownPrefix, WrongValue};

/// What a match has after its prefix, read as a pattern, fits no modalias of a form if it is reported to end before the
/// form does, to have another byte, or to have a digit in the other case.
pub fn reported_matches_fit_no_modalias()
    ensures { (form text modalias : Text) (items : List Item) → spell text ≡ Ok items → fits items modalias ≡ true → is_of_form form modalias ≡ true
        → (meeting_of form text ≡ Meeting.Fits) × (has_swapped form text ≡ false) }
{}

/// The kernel writes the numbers of a USB device in capitals, and the rules for mice those of a mouse in small letters.
pub fn digits_have_the_case_of_their_prefix()
    ensures usb { match_fault (codes "usb:v1d6Bp0002*") ≡ Some DigitCase }
    ensures capitals { match_fault (codes "usb:v1D6Bp0002*") ≡ None }
    ensures mouse { match_fault (codes "mouse:usb:v046Dpc53f:name:*:") ≡ Some DigitCase }
    ensures small { match_fault (codes "mouse:usb:v046dpc53f:name:*:") ≡ None }
    ensures kinds { match_fault (codes "id-input:modalias:input:b0003v28dep*") ≡ Some DigitCase }
    ensures buses { match_fault (codes "id-input:usb:v28DEp*:name:*:") ≡ Some DigitCase }
    ensures bus { match_fault (codes "id-input:i2c:*:name:*Mouse:") ≡ None }
    ensures ends { match_fault (codes "usb:v1d6bp0002") ≡ Some DigitCase }
    ensures any { match_fault (codes "usb:v1D6Bp0002?Hub*") ≡ None }
    ensures sets { match_fault (codes "usb:v1D6Bp000[12a]*") ≡ None }
{}

/// A match has to go on as far as the modaliases of its prefix do, or end in `*`; one of another prefix than those
/// that something looks up fits nothing.
pub fn matches_end_where_modaliases_do()
    ensures number { match_fault (codes "usb:v1D6Bp0002") ≡ Some EndMissing }
    ensures named { match_fault (codes "usb:v1D6Bp0002:USB Hub") ≡ None }
    ensures text { match_fault (codes "evdev:atkbd:dmi:bvn*:svnAcer") ≡ Some EndMissing }
    ensures class { match_fault (codes "vmbus:02780ada77e3ac4a8e770558eb1073f8") ≡ None }
    ensures short { match_fault (codes "pci:v8086d1234*") ≡ Some NoModalias }
    ensures input { match_fault (codes "evdev:nam:Apple*") ≡ Some NoModalias }
    ensures unknown { match_fault (codes "foo:bar*") ≡ Some UnknownPrefix }
    ensures wildcard { match_fault (codes "us*") ≡ None }
{}

/// Programs ask for names of capitals, digits and `_`, and udev for scan codes and axes in small digits.
pub fn names_are_those_of_udev()
    ensures capitals { is_name (codes "ID_INPUT_3D_MOUSE") ≡ true }
    ensures small { is_name (codes "Id_vendor") ≡ false }
    ensures blank { is_name (codes "ID VENDOR") ≡ false }
    ensures digit { is_name (codes "3D_MOUSE") ≡ false }
    ensures code { is_name (codes "KEYBOARD_KEY_c1") ≡ true }
    ensures capital_code { is_name (codes "KEYBOARD_KEY_C1") ≡ false }
    ensures no_code { is_name (codes "KEYBOARD_KEY_") ≡ false }
    ensures axis { is_name (codes "EVDEV_ABS_0a") ≡ true }
    ensures short_axis { is_name (codes "EVDEV_ABS_0") ≡ false }
    ensures sane { is_name (codes "libsane_matched") ≡ true }
{}

/// A known property takes the values that systemd says of it, and any other property all values.
pub fn properties_take_their_values()
    ensures resolutions { takes (codes "MOUSE_DPI") (codes "400@125 *800@125") ≡ true }
    ensures stars { takes (codes "MOUSE_DPI") (codes "*400 *800") ≡ false }
    ensures letters { takes (codes "MOUSE_DPI") (codes "abc@x") ≡ false }
    ensures key { takes (codes "KEYBOARD_KEY_c1") (codes "!volumeup") ≡ true }
    ensures capitals { takes (codes "KEYBOARD_KEY_c1") (codes "VOLUMEUP") ≡ false }
    ensures axis { takes (codes "EVDEV_ABS_00") (codes "::40") ≡ true }
    ensures words { takes (codes "EVDEV_ABS_00") (codes "max:40") ≡ false }
    ensures matrix { takes (codes "ACCEL_MOUNT_MATRIX") (codes "0, -1, 0; -1, 0, 0; 0, 0, 1") ≡ true }
    ensures two_rows { takes (codes "ACCEL_MOUNT_MATRIX") (codes "0, -1, 0; -1, 0, 0") ≡ false }
    ensures flag { takes (codes "ID_AUTOSUSPEND") (codes "yes") ≡ false }
    ensures unset { takes (codes "ID_INPUT_MOUSE") [] ≡ true }
    ensures word { takes (codes "ID_INTEGRATION") (codes "built-in") ≡ false }
    ensures number { takes (codes "MOUSE_WHEEL_CLICK_ANGLE") (codes "15 degrees") ≡ false }
    ensures other { takes (codes "GPHOTO2_DRIVER") (codes "a\\b") ≡ true }
{}

/// A match that an earlier line of the file has is reported, in whatever record that is; a property is if its own record
/// has it.
#[tactic(auto, unfolding(crate::specs::Lints::database_lints, text_bytes::specs::Texts::split_once))]
pub fn a_match_is_given_twice_in_its_file()
    ensures matches { database_lints (codes "usb:v1D6B*\n A=1\n\nusb:v1D6B*\n A=1\n") ≡ placed 4 MatchTwice 0 (codes "usb:v1D6B*") ∷ [] }
    ensures keys { database_lints (codes "usb:v1D6B*\n A=1\n B=\n A=2\n") ≡ placed 4 PropertyTwice 1 (codes "A") ∷ [] }
{}

/// A blank beside the `=` belongs to the key or the value, one at the end of a match to nothing, and a `#` ends its
/// line wherever it stands.
#[tactic(auto, unfolding(crate::specs::Lints::database_lints, text_bytes::specs::Texts::split_once))]
pub fn blanks_belong_to_nothing()
    ensures equals { database_lints (codes "usb:v1D6B*\n A = 1\n") ≡ placed 2 BlankAtEquals 1 (codes "A = 1") ∷ [] }
    ensures end { database_lints (codes "usb:v1D6B* \n A=1\n") ≡ placed 1 BlankAtEnd 0 (codes "usb:v1D6B*") ∷ [] }
    ensures cut { database_lints (codes "usb:v1D6B*\n A=b#1\n") ≡ placed 2 CutWord 4 (codes "#1") ∷ [] }
    ensures comment { database_lints (codes "usb:v1D6B*\n A=b #1\n") ≡ [] }
    ensures set { database_lints (codes "usb:v1D6B[2*\n A=1\n") ≡ placed 1 OpenSet 9 (codes "[2*") ∷ [] }
    ensures name { database_lints (codes "usb:v1D6B*\n a=1\n") ≡ placed 2 OddName 1 (codes "a") ∷ [] }
    ensures value { database_lints (codes "usb:v1D6B*\n ID_PDA=x\n") ≡ placed 2 WrongValue 1 (codes "ID_PDA=x") ∷ [] }
    ensures mark { database_lints ((239 ∷ 187 ∷ 191 ∷ []) ++ codes "usb:v*\n") ≡ placed 1 ByteOrderMark 3 (codes "usb:v*") ∷ [] }
{}
