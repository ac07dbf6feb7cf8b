//! Laws of the lints of values, each the contract of a function with an empty body.
ghost use Rattle.std.specs.Prelude.{◌≡◌, List, Bool, true, false, codes, Some, None};
ghost use Rattle.text_bytes.specs.Text.{Text};
ghost use Rattle.text_core.specs.Fits.{fits};
ghost use Rattle.text_core.specs.declared.item.Item.{Item};
ghost use Rattle.rule_tokens.specs.declared.kinds.Operator.TheVariants as op;
ghost use Rattle.rule_types.specs.Tokens.{WrittenPart};
ghost use Rattle.rule_lints.specs.declared.lint.Lint.TheVariants.{BlankBesideBar, NeverFits};
ghost use Rattle.rule_lints.specs.Assignments.{changes_device, is_meant_to_match, is_untagged, replaces_list, wants_unit};
ghost use Rattle.rule_lints.specs.Kernel.{subject_of, writes};
ghost use Rattle.rule_lints.specs.ValueLaws.{is_reported, token};
ghost use Rattle.rule_lints.specs.Near.{known_for};
ghost use Rattle.rule_lints.specs.Never.{never_fits};
ghost use Rattle.rule_lints.specs.ValueLints.{Setting, word_of};
ghost use Rattle.rule_lints.specs.Values.{is_blank_beside_bar, is_long_name, is_no_substitution};
ghost use Rattle.rule_lints.specs.declared.subjects.Subject.{Subject};
ghost use Rattle.rule_lints.specs.declared.subjects.Subject.TheVariants.{Action, Kernel, Devpath, Subsystem, FourDigits, TwoDigits, Removable};
ghost use Rattle.rule_lints.specs.declared.subjects.Subject.TheVariants.{Architecture};

/// A pattern that is reported fits no text that the kernel writes there.
#[tactic(auto, using(crate::proofs::NeverLaw::never_written))]
pub fn nothing_that_the_kernel_writes_fits()
    ensures { (subject : Subject) (items : List Item) (text : Text) → never_fits subject items ≡ true → fits items text ≡ true → writes subject text ≡ false }
{}

/// W16 is reported only of a part that looks at what the kernel is known to write, and W17 only of a value with a blank
/// beside a `|`.
pub fn each_lint_of_a_value_has_its_reason()
    ensures never { (s : Setting) (w : WrittenPart) → subject_of w.part ≡ None → word_of s NeverFits w ≡ None }
    ensures blank { (s : Setting) (w : WrittenPart) → is_blank_beside_bar w.token.parts.value ≡ false → word_of s BlankBesideBar w ≡ None }
{}

/// Values that are compared with what the kernel writes, of which some are reported.
pub fn some_values()
    ensures action { is_reported Action (codes "add|remove") ≡ false }
    ensures actions { is_reported Action (codes "add|REMOVE") ≡ true }
    ensures unknown_action { is_reported Action (codes "plug") ≡ true }
    ensures some_action { is_reported Action (codes "*move") ≡ false }
    ensures kernel { is_reported Kernel (codes "sda|cciss/c0d0") ≡ false }
    ensures node { is_reported Kernel (codes "/dev/ttyUSB*") ≡ true }
    ensures path { is_reported Devpath (codes "/devices/pci*") ≡ false }
    ensures sys_path { is_reported Devpath (codes "*/usb1|/sys/devices/*") ≡ true }
    ensures subsystem { is_reported Subsystem (codes "usb|mISDN") ≡ false }
    ensures capitals { is_reported Subsystem (codes "USB") ≡ true }
    ensures digits { is_reported FourDigits (codes "046d|04*|????|") ≡ false }
    ensures prefixed { is_reported FourDigits (codes "0x046d") ≡ true }
    ensures three { is_reported FourDigits (codes "46d") ≡ true }
    ensures five { is_reported FourDigits (codes "046d?") ≡ true }
    ensures letters { is_reported FourDigits (codes "04*g") ≡ true }
    ensures one { is_reported TwoDigits (codes "3") ≡ true }
    ensures two { is_reported TwoDigits (codes "03|ff|e0") ≡ false }
    ensures removable { is_reported Removable (codes "1|fixed") ≡ false }
    ensures truth { is_reported Removable (codes "true") ≡ true }
    ensures architecture { is_reported Architecture (codes "x86*|arm64") ≡ false }
    ensures other_architecture { is_reported Architecture (codes "amd64") ≡ true }
{}

/// Values, of which some have a blank beside a `|`.
pub fn some_blanks_beside_bars()
    ensures both { is_blank_beside_bar (codes "sda | sdb") ≡ true }
    ensures after { is_blank_beside_bar (codes "sda| sdb") ≡ true }
    ensures before { is_blank_beside_bar (codes "sda |sdb") ≡ true }
    ensures none { is_blank_beside_bar (codes "a b|c d") ≡ false }
    ensures each_begins { is_blank_beside_bar (codes " 1| 2") ≡ false }
    ensures each_ends { is_blank_beside_bar (codes "ATA     |HP      ") ≡ false }
{}

/// Names, of which some are near known ones.
pub fn some_names()
    ensures known { known_for (codes "ATTR") (codes "idVendor") ≡ None }
    ensures small { known_for (codes "ATTRS") (codes "idvendor") ≡ Some (codes "idVendor") }
    ensures swapped { known_for (codes "ATTR") (codes "queue/shceduler") ≡ Some (codes "queue/scheduler") }
    ensures short { known_for (codes "ATTR") (codes "modem") ≡ None }
    ensures property { known_for (codes "ATTR") (codes "ID_VENDOR") ≡ Some (codes "ENV") }
    ensures left_out { known_for (codes "ENV") (codes "SYSTEMD_WANT") ≡ Some (codes "SYSTEMD_WANTS") }
    ensures within { known_for (codes "ENV") (codes "ID_VENDR") ≡ Some (codes "ID_VENDOR") }
    ensures attribute { known_for (codes "ENV") (codes "idVendor") ≡ Some (codes "ATTRS") }
    ensures other { known_for (codes "ENV") (codes "MY_SIDE") ≡ None }
    ensures path { known_for (codes "ENV") (codes "ID_PART") ≡ None }
    ensures key { known_for (codes "CONST") (codes "idvendor") ≡ None }
{}

/// Values, of which some have what looks like a substitution, in a match and elsewhere.
pub fn some_substitutions()
    ensures compared { is_no_substitution true (codes "%k") ≡ true }
    ensures long { is_no_substitution true (codes "a$env{X}") ≡ true }
    ensures none { is_no_substitution true (codes "100%|a$b|$") ≡ false }
    ensures name { is_no_substitution false (codes "usb%name") ≡ true }
    ensures word { is_no_substitution false (codes "disk/%c1") ≡ true }
    ensures bracket { is_no_substitution false (codes "$result[1]") ≡ true }
    ensures attribute { is_no_substitution false (codes "tty-$env{idVendor}") ≡ true }
    ensures right { is_no_substitution false (codes "%k-%n-%c{1}-$result{2+}") ≡ false }
    ensures percent { is_no_substitution false (codes "100%%name") ≡ false }
{}

/// Tokens that assign, of which some are reported.
pub fn some_assignments()
    ensures replaced { replaces_list (token (codes "RUN") None op.Assign (codes "/bin/a")) ≡ true }
    ensures added { replaces_list (token (codes "SYMLINK") None op.Add (codes "a")) ≡ false }
    ensures last { replaces_list (token (codes "SYMLINK") None op.AssignFinal (codes "a")) ≡ false }
    ensures emptied { replaces_list (token (codes "TAG") None op.Assign (codes "")) ≡ false }
    ensures mode { replaces_list (token (codes "MODE") None op.Assign (codes "0660")) ≡ false }
    ensures attribute { is_meant_to_match false (token (codes "ATTR") (Some (codes "removable")) op.Assign (codes "1")) ≡ true }
    ensures written { is_meant_to_match true (token (codes "ATTR") (Some (codes "power/control")) op.Assign (codes "on")) ≡ false }
    ensures property { is_meant_to_match true (token (codes "ENV") (Some (codes "ID_BUS")) op.Assign (codes "usb")) ≡ true }
    ensures alone { is_meant_to_match false (token (codes "ENV") (Some (codes "ID_BUS")) op.Assign (codes "usb")) ≡ false }
    ensures substituted { is_meant_to_match true (token (codes "ENV") (Some (codes "ID_SERIAL")) op.Assign (codes "$kernel")) ≡ false }
    ensures own { is_meant_to_match true (token (codes "ENV") (Some (codes "MY_SIDE")) op.Assign (codes "left")) ≡ false }
    ensures link { changes_device (token (codes "SYMLINK") None op.Add (codes "a")) ≡ true }
    ensures compared { changes_device (token (codes "SYMLINK") None op.Equal (codes "a")) ≡ false }
    ensures tag { changes_device (token (codes "TAG") None op.Add (codes "a")) ≡ false }
    ensures sixteen { is_long_name (token (codes "NAME") None op.Assign (codes "abcdefghijklmnop")) ≡ true }
    ensures fifteen { is_long_name (token (codes "NAME") None op.Assign (codes "abcdefghijklmno")) ≡ false }
    ensures unit { wants_unit (token (codes "ENV") (Some (codes "SYSTEMD_WANTS")) op.Add (codes "a.service")) ≡ true }
    ensures ready { wants_unit (token (codes "ENV") (Some (codes "SYSTEMD_READY")) op.Assign (codes "1")) ≡ false }
    ensures untagged { is_untagged (token (codes "SUBSYSTEM") None op.Equal (codes "usb")) ≡ true }
    ensures tagged { is_untagged (token (codes "SUBSYSTEM") None op.Equal (codes "tty")) ≡ false }
    ensures other { is_untagged (token (codes "SUBSYSTEM") None op.NotEqual (codes "usb")) ≡ false }
{}
