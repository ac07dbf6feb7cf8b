//! Laws of the lints of one rule, each the contract of a function with an empty body.
ghost use Rattle.std.specs.Prelude.{◌≡◌, ◌↔◌, List, Option, None, Some, true, false, codes};
ghost use Rattle.std.specs.List.{list_any};
ghost use Rattle.text_bytes.specs.Text.{Text};
ghost use Rattle.text_core.specs.Fits.{fits};
ghost use Rattle.text_core.specs.declared.item.Item.{Item};
ghost use Rattle.rule_lints.specs.Commands.{has_shell_sign, is_forbidden, lacks_path, lacks_shell};
ghost use Rattle.rule_lints.specs.Devices.{group_of_plain, group_of_up, is_of_net, stranger};
ghost use Rattle.rule_lints.specs.Laws.{AreOfOneGroup, AsksForNet, HasBraces, HasOpenParenthesis, HasSignOutside, IsStranger, WritesMode, has_capital};
ghost use Rattle.rule_lints.specs.Laws.{is_reported_as, is_reported_as_expression, is_reported_to_hold, is_small_text};
ghost use Rattle.rule_lints.specs.LetterCase.{is_capital, is_small_alias, items_in_place};
ghost use Rattle.rule_types.specs.Topics.{is_mode};
ghost use Rattle.rule_lints.specs.Modes.{no_mode};
ghost use Rattle.rule_lints.specs.Names.{links_by};
ghost use Rattle.rule_lints.specs.Patterns.{has_braces, has_open_parenthesis, is_expression, is_no_pattern, take_all};
ghost use Rattle.rule_tokens.specs.Template.{Parts as Template};
ghost use Rattle.rule_types.specs.declared.part.ActKind.TheVariants as act_kind;
ghost use Rattle.rule_types.specs.declared.part.Comparison.{Comparison};
ghost use Rattle.rule_types.specs.declared.part.Part.{Part};
ghost use Rattle.rule_types.specs.declared.part.Part.TheVariants as part;
ghost use Rattle.rule_types.specs.declared.roles.MatchOperator.{MatchOperator};
ghost use Rattle.rule_types.specs.declared.roles.PlainKey.TheVariants as plain;
ghost use Rattle.rule_types.specs.declared.roles.UpKey.TheVariants as up;
ghost use Rattle.text_bytes.specs.declared.profile.Profile.TheVariants.{Manual, Udev};
ghost use Rattle.text_tables.specs.Texts.{same_text};
ghost use Rattle.rule_lints.specs.declared.devices.Group.TheVariants.{Block, Input, Net, Tty, UsbInterface};
ghost use Rattle.rule_lints.specs.declared.devices.Side.{Side};
ghost use Rattle.rule_lints.specs.declared.letter_case.Writing.TheVariants.{Alias, Lower, Prefixed};
ghost use Rattle.rule_types.specs.Tokens.{WrittenPart};

/// A text gives a mode if and only if it is one octal digit or more, and nothing else, of a number of at most 7777.
#[tactic(auto, using(crate::proofs::ModeLaw::modes_written))]
pub fn modes_are_octal_numbers()
    ensures { (text : Text) → (is_mode text ≡ true) ↔ WritesMode text }
{}

/// A sign of the shell is reported if and only if it follows bytes and whole quoted parts, so outside of quotes.
#[tactic(auto, using(crate::proofs::SignLaw::signs_outside))]
pub fn signs_are_outside_of_quotes()
    ensures { (command : Text) → (has_shell_sign command ≡ true) ↔ HasSignOutside command }
{}

/// A pattern that is reported for its capital letters fits no text without one, so nothing that the kernel writes
/// in lower case letters.
#[tactic(auto, using(crate::proofs::FitLaws::capital_kept))]
pub fn capital_letters_are_never_written()
    ensures { (items : List Item) (text : Text) → list_any is_capital items ≡ true → fits items text ≡ true → has_capital text ≡ true }
{}

/// A pattern of an alias that is reported for its lower case digits fits only aliases that have a lower case digit
/// in a number of their device, which the kernel writes in capital ones.
#[tactic(auto, using(crate::proofs::AliasLaw::aliases_kept))]
pub fn small_digits_of_aliases_are_never_written()
    ensures { (items : List Item) (text : Text) → is_small_alias (items_in_place items) ≡ true → fits items text ≡ true → is_small_text text ≡ true }
{}

/// No token is reported because of its device if and only if no two tokens of a side ask for different kinds of devices.
#[tactic(auto, using(crate::proofs::DeviceLaw::strangers))]
pub fn strangers_are_of_two_groups()
    ensures { (side : Side) (tokens : List WrittenPart) → (stranger side tokens ≡ None) ↔ AreOfOneGroup side tokens }
{}

/// The token that is reported because of its device is the first of its side that asks for another kind than one before
/// it.
#[tactic(auto, using(crate::proofs::DeviceLaw::stranger_found))]
pub fn the_first_stranger_is_reported()
    ensures { (side : Side) (tokens : List WrittenPart) (reported : WrittenPart) → stranger side tokens ≡ Some reported → IsStranger side tokens reported }
{}

/// A rule is for network devices alone, so that a link of it is reported, if and only if one of its tokens is a match
/// of the event that only they meet.
#[tactic(auto, using(crate::proofs::DeviceLaw::asks_for_net))]
pub fn rules_of_network_devices_ask_for_one()
    ensures { (tokens : List WrittenPart) → (is_of_net tokens ≡ true) ↔ AsksForNet tokens }
{}

/// Values, of which some ask for a known kind of devices.
pub fn some_kinds_of_devices()
    ensures terminal { group_of_plain plain.Kernel (codes "ttyUSB*") ≡ Some Tty }
    ensures disk { group_of_plain plain.Kernel (codes "sd[a-z]1") ≡ Some Block }
    ensures either { group_of_plain plain.Kernel (codes "ttyUSB*|sda") ≡ None }
    ensures other { group_of_plain plain.Kernel (codes "*") ≡ None }
    ensures interface { group_of_up up.Kernels (codes "5-2:1.0") ≡ Some UsbInterface }
    ensures device { group_of_up up.Kernels (codes "5-2") ≡ None }
    ensures function { group_of_up up.Kernels (codes "0000:00:1f.0") ≡ None }
    ensures driver { group_of_up up.Drivers (codes "cdc_acm") ≡ Some UsbInterface }
    ensures subsystem { group_of_plain plain.Subsystem (codes "input") ≡ Some Input }
    ensures subsystems { group_of_plain plain.Subsystem (codes "input|tty") ≡ None }
    ensures network { group_of_plain plain.Subsystem (codes "net") ≡ Some Net }
    ensures card { group_of_plain plain.Kernel (codes "eth0") ≡ Some Net }
{}

/// Braces are reported if and only if a comma is between them.
#[tactic(auto, using(crate::proofs::BraceLaw::braces))]
pub fn braces_have_a_comma()
    ensures { (text : Text) → (has_braces text ≡ true) ↔ HasBraces text }
{}

/// An open parenthesis is reported if and only if no closing one follows it.
#[tactic(auto, using(crate::proofs::ParenthesisLaw::parentheses))]
pub fn open_parentheses_are_not_closed()
    ensures { (text : Text) → (has_open_parenthesis text ≡ true) ↔ HasOpenParenthesis text }
{}

/// A match is reported as one that always holds if and only if each text fits it.
#[tactic(auto, using(crate::proofs::FitLaws::any_text_fits))]
pub fn what_always_holds_fits_each_text()
    ensures { (items : List Item) → (take_all items ≡ true) ↔ ((text : Text) → fits items text ≡ true) }
{}

/// Values of MODE, of which some are reported; udev passes over blanks before the digits.
#[tactic(auto, unfolding(rule_types::specs::Topics::mode_of))]
pub fn some_modes()
    ensures zeros { no_mode Manual (codes "0007777") ≡ None }
    ensures nine { no_mode Manual (codes "0669") ≡ Some (codes "0669") }
    ensures great { no_mode Manual (codes "10000") ≡ Some (codes "10000") }
    ensures empty { no_mode Manual (codes "") ≡ Some (codes "") }
    ensures substituted { no_mode Manual (codes "$env{MODE}") ≡ None }
    ensures indented { no_mode Manual (codes " 0640") ≡ Some (codes " 0640") }
    ensures udev_indented { no_mode Udev (codes " 0640") ≡ None }
    ensures udev_blank_after { no_mode Udev (codes "0640 ") ≡ Some (codes "0640 ") }
    ensures udev_great { no_mode Udev (codes "10000") ≡ Some (codes "10000") }
{}

/// Commands, of which some are reported.
pub fn some_commands()
    ensures quoted { lacks_shell (codes "/usr/bin/logger 'a > b | c'") ≡ None }
    ensures shell { lacks_shell (codes " /bin/sh -c 'a' | b") ≡ None }
    ensures bar { lacks_shell (codes "/bin/a | b") ≡ Some (codes "/bin/a | b") }
    ensures within { lacks_shell (codes "/sbin/sysctl -p ^fs.(a|b) -q") ≡ None }
    ensures address { lacks_shell (codes "/bin/get http://h/?a=1;b>2") ≡ None }
    ensures errors { lacks_shell (codes "/bin/a 2>&1") ≡ Some (codes "/bin/a 2>&1") }
    ensures other { lacks_shell (codes "/bin/fish -c a; b") ≡ Some (codes "/bin/fish -c a; b") }
    ensures single { lacks_shell (codes "/bin/get a&b") ≡ None }
    ensures double { lacks_shell (codes "/bin/a && b") ≡ Some (codes "/bin/a && b") }
    ensures background { lacks_shell (codes "/bin/a &") ≡ Some (codes "/bin/a &") }
    ensures home { lacks_shell (codes "~/bin/a b") ≡ Some (codes "~/bin/a b") }
    ensures variable { lacks_shell (codes "A=1 /bin/a") ≡ Some (codes "A=1 /bin/a") }
    ensures option { lacks_shell (codes "/bin/a --b=c ~/d") ≡ None }
    ensures path_with_equals { lacks_shell (codes "/bin/a=b c") ≡ None }
    ensures bare { lacks_path (codes " logger x") ≡ Some (codes " logger x") }
    ensures own { lacks_path (codes "cdrom_id --lock-media") ≡ None }
    ensures longer { lacks_path (codes "logger2") ≡ None }
    ensures path { lacks_path (codes "/bin/logger x") ≡ None }
    ensures script { lacks_path (codes "mine.sh %k") ≡ Some (codes "mine.sh %k") }
    ensures script_path { lacks_path (codes "/usr/local/bin/mine.sh") ≡ None }
    ensures mount { is_forbidden (codes "/bin/mount /dev/sda1 /mnt") ≡ Some (codes "/bin/mount /dev/sda1 /mnt") }
    ensures own_mount { is_forbidden (codes "/usr/bin/systemd-mount $devnode") ≡ None }
    ensures blanks { lacks_path (codes "  ") ≡ None }
{}

/// Values with which an alias is compared, of which some are reported.
pub fn some_aliases()
    ensures capital { is_reported_as Alias (codes "usb:v1D6Bp0002d*") ≡ false }
    ensures vendor { is_reported_as Alias (codes "usb:v1d6Bp*") ≡ true }
    ensures product { is_reported_as Alias (codes "usb:v1D6Bp000a*") ≡ true }
    ensures later { is_reported_as Alias (codes "usb:v*p000a*") ≡ false }
    ensures set { is_reported_as Alias (codes "usb:v1D6Bp000[0-9a-f]*") ≡ false }
    ensures pci { is_reported_as Alias (codes "pci:v00008086d0000100e*") ≡ true }
    ensures second { is_reported_as Alias (codes "usb:v1D6B*|pci:v0000808a*") ≡ true }
    ensures other { is_reported_as Alias (codes "acpi:device:") ≡ false }
{}

/// Values with which hexadecimal numbers are compared, of which some are reported.
pub fn some_numbers()
    ensures small { is_reported_as Lower (codes "046d|c52b") ≡ false }
    ensures capital { is_reported_as Lower (codes "046d|C52b") ≡ true }
    ensures set { is_reported_as Lower (codes "046[dD]") ≡ false }
    ensures prefixed { is_reported_as Prefixed (codes "0x8086|0x10DE") ≡ true }
    ensures prefix { is_reported_as Prefixed (codes "0X8086") ≡ true }
    ensures name { is_reported_as Prefixed (codes "ATA     ") ≡ false }
{}

/// Values with which something is compared that is always there, of which some are reported.
pub fn some_stars()
    ensures star { is_reported_to_hold (codes "*") ≡ true }
    ensures second { is_reported_to_hold (codes "sd*|**") ≡ true }
    ensures some { is_reported_to_hold (codes "?*") ≡ false }
    ensures none { is_reported_to_hold (codes "") ≡ false }
{}

/// Links, of which some are reported, but none for udev, which leaves `/dev/` out.
pub fn some_links()
    ensures second { links_by Manual (codes "a /dev/b") ≡ Some (codes "a /dev/b") }
    ensures within { links_by Manual (codes "a/dev/b dev/c") ≡ None }
    ensures udev { links_by Udev (codes "a /dev/b") ≡ None }
{}

/// A match of TAG, SYMLINK or TAGS is reported as no pattern exactly if its value is `?*`, and only for udev.
pub fn something_of_members_is_no_pattern()
    ensures tag { (wanted : Comparison) → is_no_pattern Udev (part.Plain (record { key = plain.Tag; wanted = wanted }))
        ≡ same_text wanted.written (codes "?*") }
    ensures symlink { (wanted : Comparison) → is_no_pattern Udev (part.Plain (record { key = plain.Symlink; wanted = wanted }))
        ≡ same_text wanted.written (codes "?*") }
    ensures tags { (wanted : Comparison) → is_no_pattern Udev (part.Up (record { key = up.Tags; wanted = wanted })) ≡ same_text wanted.written (codes "?*") }
    ensures test { (operator : MatchOperator) (mask : Option Text) (path : Template)
        → is_no_pattern Udev (part.Act (record { operator = operator; kind = act_kind.Test mask path })) ≡ same_text path.written (codes "?*") }
    ensures kernel { (wanted : Comparison) → is_no_pattern Udev (part.Plain (record { key = plain.Kernel; wanted = wanted })) ≡ false }
    ensures manual { (p : Part) → is_no_pattern Manual p ≡ false }
{}

/// Patterns, of which some are reported.
pub fn some_patterns()
    ensures start { is_expression (codes "^sd") ≡ true }
    ensures end { is_expression (codes "sd[a-z]$") ≡ true }
    ensures any { is_expression (codes ".*disk") ≡ true }
    ensures digit { is_expression (codes "sd\\d") ≡ true }
    ensures repeated { is_expression (codes "ttyUSB[0-9]+") ≡ true }
    ensures group { is_reported_as_expression (codes "(sda|sdb)1") ≡ true }
    ensures three { is_reported_as_expression (codes "sd(a|b|c)") ≡ true }
    ensures closed { is_reported_as_expression (codes "Disk (USB)|Disk (SATA)") ≡ false }
    ensures cut { is_reported_as_expression (codes "Flash Disk (Gen|Disk (USB)") ≡ false }
    ensures count { is_expression (codes "sd[a-z]{1,2}") ≡ true }
    ensures braces { is_expression (codes "{1} a,b") ≡ false }
    ensures plain { is_expression (codes "dm-[0-9]*.part?") ≡ false }
{}
