//! Examples of `verify`, and of `update --lint`.
ghost use Rattle.std.specs.Prelude.{◌∷◌, [], codes, false};
ghost use Rattle.text_bytes.specs.declared.profile.Profile.TheVariants.{Manual, Udev};
ghost use Rattle.text_bytes.specs.declared.source_file.FileKind.TheVariants.{Rules};
ghost use Rattle.engine_sessions.specs.declared.line.Format.TheVariants.{Gcc, Plain};
ghost use Rattle.example_laws.specs.Answered.{text};
ghost use Rattle.link_files.specs.Examples.{at};
ghost use Rattle.example_laws.specs.Checked.{Checks, ChecksDatabase, ChecksLinks, linting, not_linting, said};

/// W8 is reported for a NAME in a rule that no network device meets, and not in one that some may meet.
pub fn a_name_is_reported_in_a_rule_that_no_network_device_meets()
    ensures { Checks (linting Manual []) Gcc
        (text (
        codes "SUBSYSTEM==\"block\", NAME=\"a\"" ∷ codes "SUBSYSTEM==\"net\", NAME=\"b\"" ∷ codes "SUBSYSTEM!=\"net\", NAME=\"c\""
        ∷ codes "SUBSYSTEM!=\"block\", NAME=\"d\"" ∷ codes "KERNEL==\"e\", NAME=\"e\"" ∷ codes "SUBSYSTEM==\"net|block\", NAME=\"f\"" ∷ []))
        (said (codes "1 files checked, 0 good, 1 bad\n")
        (codes "r.rules:1:27: warning: name outside net: a [W8]\nr.rules:3:25: warning: name outside net: c [W8]\n") 1) }
{}

/// W7 is reported for an assignment before a match of its rule if a rule compares the same with the same value, and not
/// after the matches, nor with another value, another name, another key or `+=`.
pub fn an_assignment_is_reported_for_which_a_comparison_was_meant()
    ensures { Checks (linting Manual []) Gcc
        (text (
        codes "ENV{A}==\"1\", TAG+=\"t\"" ∷ codes "ENV{A}=\"1\", KERNEL==\"k\"" ∷ codes "KERNEL==\"k\", ENV{A}=\"1\""
        ∷ codes "ENV{A}=\"2\", KERNEL==\"k\"" ∷ codes "ENV{B}=\"1\", KERNEL==\"k\"" ∷ codes "ATTR{A}=\"1\", KERNEL==\"k\""
        ∷ codes "ENV{A}+=\"1\", KERNEL==\"k\"" ∷ []))
        (said (codes "1 files checked, 0 good, 1 bad\n")
        (codes "r.rules:2:1: warning: value assigned that others compare: A [W7]\n") 1) }
{}

/// W6 is reported for a match of a property whose family the file imports only further down, and, in a rule that imports what a
/// program prints, for a match behind the import and not for one before it.
pub fn a_property_that_is_imported_further_down_is_reported()
    ensures { Checks (linting Manual []) Gcc
        (text (
        codes "KERNEL==\"a\", ENV{ID_FS_TYPE}==\"ext4\", MODE=\"0660\"" ∷ codes "KERNEL==\"a\", IMPORT{builtin}=\"blkid\""
        ∷ codes "KERNEL==\"a\", ENV{ID_FS_TYPE}==\"ext4\", MODE=\"0660\""
        ∷ codes "KERNEL==\"a\", ENV{A}==\"1\", IMPORT{program}=\"/p\", ENV{B}==\"2\", MODE=\"0660\"" ∷ []))
        (said (codes "1 files checked, 0 good, 1 bad\n")
        (codes "r.rules:1:14: warning: property imported further down: ID_FS_TYPE [W6]\nr.rules:4:49: warning: property imported further down: B [W6]\n") 1) }
{}

/// W16 to W19 are reported at values that nothing has, at blanks beside a bar, at names near a known one, and at what is not
/// substituted, also for matches along the chain.
pub fn values_and_names_that_fit_nothing_are_reported()
    ensures { Checks (linting Manual []) Gcc
        (text (
        codes "ATTRS{idVendor}==\"0x04d8\", MODE=\"0660\"" ∷ codes "ATTRS{idVendor}==\"04d8\", MODE=\"0660\""
        ∷ codes "KERNEL==\"a | b\", MODE=\"0660\"" ∷ codes "KERNEL==\"a|b\", MODE=\"0660\""
        ∷ codes "KERNEL==\"a\", ENV{idVendor}==\"1\", MODE=\"0660\"" ∷ codes "KERNEL==\"%k\", MODE=\"0660\"" ∷ []))
        (said (codes "1 files checked, 0 good, 1 bad\n")
        (text (
        codes "r.rules:1:19: warning: value that never fits: 0x04d8 [W16]" ∷ codes "r.rules:3:10: warning: blank beside a bar: a | b [W17]"
        ∷ codes "r.rules:5:14: warning: name near a known one: ATTRS [W18]" ∷ codes "r.rules:6:10: warning: no substitution: %k [W19]" ∷ [])) 1) }
{}

/// W20 to W23 are reported for lists that are replaced, for values that were meant to be compared, for long names of interfaces,
/// and for units that are wanted by devices without a tag.
pub fn assignments_that_are_not_meant_are_reported()
    ensures { Checks (linting Manual []) Gcc
        (text (
        codes "KERNEL==\"a\", RUN=\"/b\"" ∷ codes "KERNEL==\"a\", ATTR{serial}=\"1\"" ∷ codes "SUBSYSTEM==\"net\", NAME=\"a-name-of-16-byt\""
        ∷ codes "SUBSYSTEM==\"net\", NAME=\"a-name-of-15-by\"" ∷ codes "SUBSYSTEM==\"usb\", ENV{SYSTEMD_WANTS}+=\"a\"" ∷ []))
        (said (codes "1 files checked, 0 good, 1 bad\n")
        (text (
        codes "r.rules:1:14: warning: list replaced: RUN [W20]" ∷ codes "r.rules:2:14: warning: value assigned instead of compared: ATTR [W21]"
        ∷ codes "r.rules:3:25: warning: name of a network device too long: a-name-of-16-byt [W22]"
        ∷ codes "r.rules:5:19: warning: unit wanted without a tag: ENV [W23]" ∷ [])) 1) }
{}

/// With `--links` L1 to L4 are reported at what a file may not have, and L5 for a file for no interface. A key about the machine asks
/// for one, too.
pub fn faults_of_link_files_are_reported()
    ensures { ChecksLinks not_linting Gcc
        (at Rules 3 (codes "a.link") (codes "[Match]\nVirtualization=yes\n[Link]\nNmae=a\nNTupleFilter=maybe\nName\n[Matsch]")
        ∷ at Rules 3 (codes "b.link") (codes "[Link]\nName=b") ∷ [])
        (said (codes "2 files checked, 0 good, 2 bad\n")
        (text (
        codes "a.link:4:1: error: unknown key: Nmae [L2]" ∷ codes "a.link:5:14: error: bad value: maybe [L4]"
        ∷ codes "a.link:6:1: error: bad line: Name [L3]" ∷ codes "a.link:7:2: error: unknown section: Matsch [L1]"
        ∷ codes "b.link:1:1: error: file for no interface [L5]" ∷ [])) 1) }
{}

/// A flag of the database is `1` or `0`: `update --lint` reports D13 for any other value.
pub fn a_flag_is_one_or_zero()
    ensures { ChecksDatabase (linting Manual []) Gcc
        (codes "usb:v0*\n ID_AUTOSUSPEND=0\n\nusb:v1*\n ID_AUTOSUSPEND=1\n\nusb:v2*\n ID_AUTOSUSPEND=2\n")
        (codes "d.hwdb:8:2: warning: value that the property does not take: ID_AUTOSUSPEND=2 [D13]\n") }
{}

/// W10 is reported for a name with a quote, and not for a value with one.
pub fn a_name_in_quotes_is_reported()
    ensures { Checks (linting Manual []) Gcc
        (text (codes "ENV{\"A\"}=\"1\"" ∷ codes "ENV{A}=\"\\\"1\\\"\"" ∷ codes "KERNEL==\"k\", ENV{a\"b}=\"1\"" ∷ []))
        (said (codes "1 files checked, 0 good, 1 bad\n")
        (codes "r.rules:1:1: warning: name in quotes: \"A\" [W10]\nr.rules:3:14: warning: name in quotes: a\"b [W10]\n") 1) }
{}

/// W15 is reported at the first key that changes the device in a rule without a match, and not in a rule that a match or
/// an import may end, nor below one that may jump.
pub fn a_rule_for_every_device_is_reported()
    ensures { Checks (linting Manual []) Gcc
        (text (
        codes "ENV{A}=\"1\", MODE=\"0660\", SYMLINK+=\"a\"" ∷ codes "KERNEL==\"b\", SYMLINK+=\"b\"" ∷ codes "IMPORT{parent}=\"C\", SYMLINK+=\"c\""
        ∷ codes "KERNEL==\"d\", GOTO=\"end\"" ∷ codes "SYMLINK+=\"e\"" ∷ codes "LABEL=\"end\"" ∷ []))
        (said (codes "1 files checked, 0 good, 1 bad\n")
        (codes "r.rules:1:13: warning: rule without a match: MODE [W15]\n") 1) }
{}

/// W25 is reported at the first match of RESULT in a rule if neither the rule nor one above it has a PROGRAM.
pub fn a_result_that_no_program_gives_yet_is_reported()
    ensures { Checks (linting Manual []) Gcc
        (text (
        codes "KERNEL==\"a\", RESULT==\"1\", RESULT!=\"2\", SYMLINK+=\"a\"" ∷ codes "KERNEL==\"b\", PROGRAM==\"/b\", RESULT==\"1\", SYMLINK+=\"b\""
        ∷ codes "KERNEL==\"c\", RESULT==\"1\", SYMLINK+=\"c\"" ∷ []))
        (said (codes "1 files checked, 0 good, 1 bad\n")
        (codes "r.rules:1:14: warning: result before its program: RESULT [W25]\n") 1) }
{}

/// The first option that udev does not know is reported for a rule that it leaves without effect, in place of the rule.
pub fn an_unknown_option_is_reported_in_place_of_its_rule()
    ensures { Checks (linting Udev []) Gcc
        (text (
        codes "KERNEL==\"a\", OPTIONS+=\"watch1\", OPTIONS+=\"watch2\"" ∷ codes "KERNEL==\"b\""
        ∷ codes "KERNEL==\"c\", OPTIONS+=\"watch3\", TAG+=\"t\"" ∷ []))
        (said (codes "1 files checked, 0 good, 1 bad\n")
        (codes "r.rules:1:24: error: bad value: watch1 [V5]\nr.rules:2:1: error: rule without effect [V18]\nr.rules:3:24: error: bad value: watch3 [V5]\n") 1) }
{}

/// W26 is reported for each link in a rule that only network devices meet, and not in one that others may meet.
pub fn a_link_of_a_network_device_is_reported()
    ensures { Checks (linting Manual []) Gcc
        (text (
        codes "SUBSYSTEM==\"net\", SYMLINK+=\"a\"" ∷ codes "KERNEL==\"eth0\", SYMLINK+=\"b\""
        ∷ codes "SUBSYSTEM==\"net|tty\", SYMLINK+=\"c\"" ∷ codes "SUBSYSTEM!=\"net\", SYMLINK+=\"d\""
        ∷ codes "SUBSYSTEM==\"net\", NAME=\"e\"" ∷ []))
        (said (codes "1 files checked, 0 good, 1 bad\n")
        (codes "r.rules:1:29: warning: link of a network device: a [W26]\nr.rules:2:27: warning: link of a network device: b [W26]\n") 1) }
{}

/// W27 is reported at the first tag `uaccess` of a file whose name comes after that of the file that reads it,
/// unless a rule of the file runs the builtin that does.
pub fn a_tag_that_comes_too_late_is_reported()
    ensures late { Checks (linting Manual []) Gcc
        (text (
        codes "KERNEL==\"a\", TAG+=\"seat\", TAG+=\"uaccess\", TAG+=\"uaccess\"" ∷ codes "KERNEL==\"b\", TAG-=\"uaccess\"" ∷ []))
        (said (codes "1 files checked, 0 good, 1 bad\n")
        (codes "r.rules:1:27: warning: tag uaccess in a late file: TAG [W27]\n") 1) }
    ensures run { Checks (linting Manual []) Gcc
        (text (
        codes "KERNEL==\"a\", TAG+=\"uaccess\"" ∷ codes "TAG==\"uaccess\", RUN{builtin}+=\"uaccess\"" ∷ []))
        (said (codes "1 files checked, 1 good, 0 bad\n") [] 0) }
{}

/// V8 is reported at the value of the second label or jump, and for udev, to which the last label counts, at that of the
/// label that does not count.
pub fn what_is_given_twice_is_reported_at_the_one_that_does_not_count()
    ensures manual { Checks not_linting Gcc
        (text (codes "GOTO=\"a\", GOTO=\"c\"" ∷ codes "LABEL=\"a\", LABEL=\"b\"" ∷ []))
        (said (codes "1 files checked, 0 good, 1 bad\n")
        (codes "r.rules:1:17: error: label or goto given twice: c [V8]\nr.rules:2:19: error: label or goto given twice: b [V8]\n") 1) }
    ensures udev { Checks (linting Udev []) Gcc
        (text (codes "GOTO=\"b\", GOTO=\"c\"" ∷ codes "LABEL=\"a\", LABEL=\"b\"" ∷ []))
        (said (codes "1 files checked, 0 good, 1 bad\n")
        (codes "r.rules:1:17: error: label or goto given twice: c [V8]\nr.rules:2:8: error: label or goto given twice: a [V8]\n") 1) }
{}

/// What is reported makes a file bad and the status 1, in each format; lints that are not asked for and codes that are
/// ignored do not.
pub fn the_status_is_that_of_what_is_reported()
    ensures linted { Checks (linting Manual []) Plain
        (codes "SUBSYSTEM==\"block\", NAME=\"a\"")
        (said (codes "1 files checked, 0 good, 1 bad\n") (codes "r.rules:1: W8 name outside net: a\n") 1) }
    ensures unasked { Checks not_linting Plain
        (codes "SUBSYSTEM==\"block\", NAME=\"a\"")
        (said (codes "1 files checked, 1 good, 0 bad\n") [] 0) }
    ensures ignored { Checks (linting Manual (codes "W8" ∷ [])) Gcc
        (codes "SUBSYSTEM==\"block\", NAME=\"a\"")
        (said (codes "1 files checked, 1 good, 0 bad\n") [] 0) }
    ensures message { Checks (linting Manual (codes "W8" ∷ [])) Plain
        (codes "NONE=\"1\"")
        (said (codes "1 files checked, 0 good, 1 bad\n") (codes "r.rules:1: V2 unknown key: NONE\n") 1) }
{}

/// Messages and lints are reported together in the order of their lines, lints after the messages about their rule.
pub fn lints_are_reported_among_messages_by_line()
    ensures { Checks (linting Manual []) Plain
        (text (
        codes "SUBSYSTEM==\"block\", NAME=\"a\"" ∷ codes "NONE=\"1\"" ∷ codes "SUBSYSTEM==\"block\",NAME=\"c\""
        ∷ codes "NONE=\"2\"" ∷ []))
        (said (codes "1 files checked, 0 good, 1 bad\n")
        (text (
        codes "r.rules:1: W8 name outside net: a" ∷ codes "r.rules:2: V2 unknown key: NONE"
        ∷ codes "r.rules:3: S2 blank after a comma expected: NAME" ∷ codes "r.rules:3: W8 name outside net: c"
        ∷ codes "r.rules:4: V2 unknown key: NONE" ∷ [])) 1) }
{}

/// Without options `verify` and `update` say a line for each message: the file's name, the line, the code with its text, and the
/// word. What lints would find is not told, and style where it is asked for.
pub fn messages_are_told_in_lines()
    ensures verify { Checks not_linting Plain
        (text (
        codes "KERNEL==\"a\", MODE=\"0660\"" ∷ codes "NONE=\"1\"" ∷ codes "KERNEL==\"b\",TAG+=\"t\"" ∷ codes "SUBSYSTEM==\"block\", NAME=\"c\"" ∷ []))
        (said (codes "1 files checked, 0 good, 1 bad\n")
        (codes "r.rules:2: V2 unknown key: NONE\nr.rules:3: S2 blank after a comma expected: TAG\n") 1) }
    ensures without_style { Checks (record not_linting { style = false }) Plain
        (text (codes "NONE=\"1\"" ∷ codes "KERNEL==\"b\",TAG+=\"t\"" ∷ []))
        (said (codes "1 files checked, 0 good, 1 bad\n") (codes "r.rules:1: V2 unknown key: NONE\n") 1) }
    ensures update { ChecksDatabase not_linting Plain
        (codes "usb:v0*\n\nusb:v1*\n A\n")
        (codes "d.hwdb:1: H2 match without a property: usb:v0*\nd.hwdb:4: H4 no =: A\n") }
{}
