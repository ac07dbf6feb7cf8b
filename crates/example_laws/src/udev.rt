//! Examples of what udev does and the manual does not say.
ghost use Rattle.std.specs.Prelude.{◌≡◌, ◌∷◌, [], codes};
ghost use Rattle.example_laws.specs.Answered.{answered, answered_as_udev, text};
ghost use Rattle.example_laws.specs.Reported.{sourced_as_udev};

/// The same rule by the manual and as udev: links are cleaned, a mode is a number, an empty owner is none, and a command is made at its
/// rule.
pub fn udev_takes_texts_otherwise()
    ensures manual { answered
        (text (codes "SYMLINK+=\"/dev/a//b/\", MODE=\"660\", OWNER=\"\", RUN+=\"r$env{X}\"" ∷ codes "ENV{X}=\"1\"" ∷ []))
        (codes "C: add\nP: /d\nD: 8:1")
        ≡ text (
        codes "event add /d" ∷ codes "mode 660" ∷ codes "link /dev/a//b/" ∷ codes "env ACTION=add" ∷ codes "env DEVPATH=/d"
        ∷ codes "env MAJOR=8" ∷ codes "env MINOR=1" ∷ codes "env X=1" ∷ codes "run program r1" ∷ codes "" ∷ []) }
    ensures udev { answered_as_udev
        (text (codes "SYMLINK+=\"/dev/a//b/\", MODE=\"660\", OWNER=\"\", RUN+=\"r$env{X}\"" ∷ codes "ENV{X}=\"1\"" ∷ []))
        (codes "C: add\nP: /d\nU: m\nD: 8:1")
        ≡ text (
        codes "event add /d" ∷ codes "mode 0660" ∷ codes "link a/b" ∷ codes "env ACTION=add" ∷ codes "env DEVPATH=/d"
        ∷ codes "env MAJOR=8" ∷ codes "env MINOR=1" ∷ codes "env SUBSYSTEM=m" ∷ codes "env X=1" ∷ codes "run program r"
        ∷ codes "note r.rules:1: no value: OWNER" ∷ codes "" ∷ []) }
{}

/// For udev an attribute that is absent fails `==` and `!=`. A block that gives no attribute has a note, by the first rule that looks at one.
pub fn an_attribute_that_is_absent_fails_both_for_udev()
    ensures some { answered_as_udev
        (text (
        codes "ATTR{a}==\"*\", ENV{A}=\"1\"" ∷ codes "ATTR{a}!=\"1\", ENV{B}=\"1\"" ∷ codes "ATTRS{a}!=\"1\", ENV{C}=\"1\"" ∷ []))
        (codes "C: add\nP: /d\nU: m\nA: b=1")
        ≡ codes "event add /d\nenv ACTION=add\nenv DEVPATH=/d\nenv SUBSYSTEM=m\n\n" }
    ensures none { answered_as_udev
        (codes "KERNEL==\"d\", ENV{A}=\"1\"\nKERNEL==\"e\", ATTRS{b}==\"1\", ATTR{a}!=\"1\", TAG+=\"t\"\nATTR{c}==\"1\", TAG+=\"t\"")
        (codes "C: add\nP: /d\nU: m")
        ≡ codes "event add /d\nenv A=1\nenv ACTION=add\nenv DEVPATH=/d\nenv SUBSYSTEM=m\nnote r.rules:2: attributes not given: a\n\n" }
{}

/// For udev SYMLINK, OWNER, GROUP, MODE and SECLABEL of a device without a number change nothing, with notes.
pub fn a_device_without_a_number_has_no_node_for_udev()
    ensures { answered_as_udev
        (codes "SYMLINK+=\"a\", OWNER=\"o\", GROUP=\"g\", MODE=\"1\", SECLABEL{s}=\"l\", ENV{X}=\"1\"")
        (codes "C: add\nP: /d\nU: m")
        ≡ text (
        codes "event add /d" ∷ codes "env ACTION=add" ∷ codes "env DEVPATH=/d" ∷ codes "env SUBSYSTEM=m" ∷ codes "env X=1"
        ∷ codes "note r.rules:1: no device number: OWNER" ∷ codes "note r.rules:1: no device number: GROUP"
        ∷ codes "note r.rules:1: no device number: MODE" ∷ codes "note r.rules:1: no device number: SECLABEL{s}"
        ∷ codes "note r.rules:1: no device number: SYMLINK" ∷ codes "" ∷ []) }
{}

/// For udev `[SUBSYSTEM/KERNEL]NAME` is the attribute of that device of the chain; one of a device that the block does not have is not
/// read.
pub fn an_attribute_may_name_its_device_for_udev()
    ensures { answered_as_udev
        (text (
        codes "ATTR{[u/h]a}==\"1\", ENV{A}=\"$attr{[u/h]a}\"" ∷ codes "ATTR{[u/g]a}==\"1\", ENV{B}=\"1\""
        ∷ codes "ATTR{[t/h]a}!=\"1\", ENV{C}=\"1\"" ∷ codes "TEST==\"[u/h]a\", ENV{D}=\"1\"" ∷ []))
        (codes "C: add\nP: /h/d\nU: m\nP: /h\nU: u\nA: a=1")
        ≡ text (
        codes "event add /h/d" ∷ codes "env A=1" ∷ codes "env ACTION=add" ∷ codes "env D=1" ∷ codes "env DEVPATH=/h/d" ∷ codes "env SUBSYSTEM=m"
        ∷ codes "note r.rules:2: attribute not read: [u/g]a" ∷ codes "note r.rules:3: attribute not read: [t/h]a" ∷ codes "" ∷ []) }
{}

/// For udev the event device may have, under the whole name, an attribute of a device that the block does not have.
pub fn an_attribute_of_a_device_elsewhere_may_be_given_for_udev()
    ensures { answered_as_udev
        (text (
        codes "ATTR{[u/g]a}==\"1\", ENV{A}=\"$attr{[u/g]a}\"" ∷ codes "ATTR{[u/g]a}!=\"1\", ENV{B}=\"1\""
        ∷ codes "ATTRS{[u/g]a}==\"1\", ENV{C}=\"1\"" ∷ codes "TEST==\"[u/g]a\", TEST!=\"[u/g]b\", ENV{D}=\"1\"" ∷ []))
        (codes "C: add\nP: /d\nU: m\nA: [u/g]a=1")
        ≡ text (
        codes "event add /d" ∷ codes "env A=1" ∷ codes "env ACTION=add" ∷ codes "env C=1" ∷ codes "env D=1" ∷ codes "env DEVPATH=/d" ∷ codes "env SUBSYSTEM=m"
        ∷ codes "note r.rules:4: test not made: [u/g]b" ∷ codes "" ∷ []) }
{}

/// For udev a block gives what is known of the machine: a constant that it does not give is noted, and IMPORT{cmdline} finds its words.
pub fn a_block_gives_what_udev_knows_of_the_machine()
    ensures given { answered_as_udev
        (text (
        codes "CONST{arch}==\"x\", ENV{A}=\"1\"" ∷ codes "CONST{virt}!=\"k\", ENV{B}=\"1\""
        ∷ codes "IMPORT{cmdline}=\"n_o\", ENV{C}=\"1\"" ∷ codes "IMPORT{cmdline}=\"m\"" ∷ codes "IMPORT{cmdline}!=\"n\", ENV{D}=\"1\"" ∷ []))
        (codes "C: add\nP: /d\nU: m\nK: arch=x\nK: cmdline=q n-o m=1 m=\"a b\" m")
        ≡ text (
        codes "event add /d" ∷ codes "env A=1" ∷ codes "env ACTION=add" ∷ codes "env B=1" ∷ codes "env C=1" ∷ codes "env D=1"
        ∷ codes "env DEVPATH=/d"
        ∷ codes "env SUBSYSTEM=m" ∷ codes "env m=a b" ∷ codes "env n_o=1" ∷ codes "note r.rules:2: constant not given: virt" ∷ codes "" ∷ []) }
    ensures missing { answered_as_udev (codes "IMPORT{cmdline}!=\"n\", ENV{A}=\"1\"") (codes "C: add\nP: /d\nU: m")
        ≡ codes "event add /d\nenv A=1\nenv ACTION=add\nenv DEVPATH=/d\nenv SUBSYSTEM=m\nnote r.rules:1: import not run: cmdline\n\n" }
    ensures manual { answered (codes "CONST{virt}!=\"k\", IMPORT{cmdline}!=\"n\", ENV{A}=\"1\"") (codes "C: add\nP: /d\nK: cmdline=n")
        ≡ codes "event add /d\nenv A=1\nenv ACTION=add\nenv DEVPATH=/d\nnote r.rules:1: import not run: cmdline\n\n" }
{}

/// For udev a block answers the builtins that are not computed; those that set nothing are done.
pub fn a_block_answers_builtins_for_udev()
    ensures { answered_as_udev
        (text (
        codes "IMPORT{builtin}=\"blkid -o\", ENV{X}=\"1\"" ∷ codes "IMPORT{program}=\"net_driver\", ENV{Y}=\"1\""
        ∷ codes "IMPORT{builtin}=\"kmod load m\", ENV{Z}=\"1\"" ∷ []))
        (codes "C: add\nP: /d\nU: m\nQ: builtin blkid -o\nR: 0 A=1\rB=2")
        ≡ text (
        codes "event add /d" ∷ codes "env A=1" ∷ codes "env ACTION=add" ∷ codes "env B=2" ∷ codes "env DEVPATH=/d" ∷ codes "env SUBSYSTEM=m" ∷ codes "env X=1"
        ∷ codes "env Z=1" ∷ codes "note r.rules:2: builtin not run: net_driver" ∷ codes "" ∷ []) }
{}

/// Udev skips a rule in which nothing counts for the event, and then selects no device.
pub fn a_rule_in_which_nothing_counts_is_skipped_by_udev()
    ensures manual { answered
        (text (codes "SUBSYSTEMS==\"u\", SYMLINK+=\"l\"" ∷ codes "ENV{X}=\"[$id]\"" ∷ []))
        (codes "C: add\nP: /h/d\nP: /h\nU: u")
        ≡ codes "event add /h/d\nlink l\nenv ACTION=add\nenv DEVPATH=/h/d\nenv X=[h]\n\n" }
    ensures udev { answered_as_udev
        (text (codes "SUBSYSTEMS==\"u\", SYMLINK+=\"l\"" ∷ codes "ENV{X}=\"[$id]\"" ∷ []))
        (codes "C: add\nP: /h/d\nU: m\nP: /h\nU: u")
        ≡ codes "event add /h/d\nenv ACTION=add\nenv DEVPATH=/h/d\nenv SUBSYSTEM=m\nenv X=[]\nnote r.rules:1: no device number: SYMLINK\n\n" }
{}

/// For udev `subsystem`, `bus` and `class` fit each other, `?*` always holds for tags and reverses a TEST, and a tag that was removed is
/// still met.
pub fn udev_compares_some_values_otherwise()
    ensures udev { answered_as_udev
        (text (
        codes "SUBSYSTEM==\"bus\", ENV{A}=\"1\"" ∷ codes "TAG==\"?*\", ENV{B}=\"1\"" ∷ codes "TEST==\"?*\", ENV{C}=\"1\""
        ∷ codes "TAG-=\"t\"" ∷ codes "TAG==\"t\", ENV{D}=\"1\"" ∷ []))
        (codes "C: add\nP: /d\nU: class\nG: t")
        ≡ codes "event add /d\nenv A=1\nenv ACTION=add\nenv B=1\nenv C=1\nenv D=1\nenv DEVPATH=/d\nenv SUBSYSTEM=class\n\n" }
    ensures manual { answered
        (text (
        codes "SUBSYSTEM==\"bus\", ENV{A}=\"1\"" ∷ codes "SYMLINK==\"?*\", ENV{B}=\"1\"" ∷ codes "TEST==\"?*\", ENV{C}=\"1\""
        ∷ codes "TAG-=\"t\"" ∷ codes "TAG==\"t\", ENV{D}=\"1\"" ∷ []))
        (codes "C: add\nP: /d\nU: class\nG: t")
        ≡ codes "event add /d\nenv ACTION=add\nenv DEVPATH=/d\nenv SUBSYSTEM=class\n\n" }
{}

/// For udev builtins come before programs, and a command is there as often as it is added.
pub fn udev_runs_builtins_before_programs()
    ensures manual { answered (codes "RUN+=\"a\", RUN{builtin}+=\"kmod b\", RUN+=\"a\"") (codes "C: add\nP: /d")
        ≡ codes "event add /d\nenv ACTION=add\nenv DEVPATH=/d\nrun program a\nrun builtin kmod b\n\n" }
    ensures udev { answered_as_udev (codes "RUN+=\"a\", RUN{builtin}+=\"kmod b\", RUN+=\"a\"") (codes "C: add\nP: /d\nU: m")
        ≡ codes "event add /d\nenv ACTION=add\nenv DEVPATH=/d\nenv SUBSYSTEM=m\nrun builtin kmod b\nrun program a\nrun program a\n\n" }
{}

/// For udev the block answers IMPORT{program} as it answers a PROGRAM: each line that sets a property is taken.
pub fn udev_imports_what_a_program_prints()
    ensures { answered_as_udev
        (codes "IMPORT{program}=\"/p\", ENV{X}=\"1\"")
        (codes "C: add\nP: /d\nU: m\nQ: /p\nR: 0 A=1\r# c\rB = \"2 \"\rC")
        ≡ codes "event add /d\nenv A=1\nenv ACTION=add\nenv B=2 \nenv DEVPATH=/d\nenv SUBSYSTEM=m\nenv X=1\n\n" }
{}

/// For udev `+=` adds a blank even to nothing, and a label even if it is there.
pub fn udev_adds_to_properties_and_labels_otherwise()
    ensures { answered_as_udev
        (text (codes "ENV{A}+=\"$env{N}\", SECLABEL{m}+=\"l\"" ∷ codes "SECLABEL{m}+=\"l\"" ∷ []))
        (codes "C: add\nP: /d\nU: m\nD: 8:1\nE: A=1")
        ≡ codes "event add /d\nlabel m=l\nlabel m=l\nenv A=1 \nenv ACTION=add\nenv DEVPATH=/d\nenv MAJOR=8\nenv MINOR=1\nenv SUBSYSTEM=m\n\n" }
{}

/// For udev `hwdb` that finds nothing tells which of the devices that it looked at lack a modalias; what it looks at ends with the first
/// wanted device of USB.
pub fn a_look_up_that_finds_nothing_tells_what_it_needs()
    ensures udev { answered_as_udev
        (text (
        codes "IMPORT{builtin}=\"hwdb --subsystem=pci\"" ∷ codes "IMPORT{builtin}=\"hwdb\"" ∷ codes "IMPORT{builtin}=\"hwdb m\"" ∷ []))
        (codes "C: add\nP: /c/p/input5/event5\nU: input\nP: /c/p/input5\nU: input\nP: /c/p\nU: pci\nP: /c\nU: virtio")
        ≡ text (
        codes "event add /c/p/input5/event5" ∷ codes "env ACTION=add" ∷ codes "env DEVPATH=/c/p/input5/event5" ∷ codes "env SUBSYSTEM=input"
        ∷ codes "note r.rules:1: builtin needs: hwdb: MODALIAS of p"
        ∷ codes "note r.rules:2: builtin needs: hwdb: MODALIAS of input5, MODALIAS of p, MODALIAS of c" ∷ codes "" ∷ []) }
    ensures last { answered_as_udev (codes "IMPORT{builtin}=\"hwdb\"")
        (codes "C: add\nP: /p/c/i\nU: usb\nP: /p/c\nU: usb\nE: DEVTYPE=usb_device\nE: MODALIAS=m\nP: /p\nU: pci")
        ≡ codes "event add /p/c/i\nenv ACTION=add\nenv DEVPATH=/p/c/i\nenv SUBSYSTEM=usb\nnote r.rules:1: builtin needs: hwdb: MODALIAS\n\n" }
    ensures manual { answered (codes "IMPORT{builtin}=\"hwdb\"") (codes "C: add\nP: /c\nU: pci")
        ≡ codes "event add /c\nenv ACTION=add\nenv DEVPATH=/c\nenv SUBSYSTEM=pci\n\n" }
{}

/// For udev an answer has notes about the block itself, before those of rules: of an action that udev does not have, of a path with
/// `/sys` at its start, under `add` of a property that udev stores later, and of a device without a subsystem, at which no rule is
/// tried.
pub fn udev_notes_what_is_odd_about_a_block()
    ensures two { answered_as_udev (codes "IMPORT{db}=\"A\"") (codes "C: plug\nP: /sys/d\nU: m")
        ≡ text (
        codes "event plug /sys/d" ∷ codes "env ACTION=plug" ∷ codes "env DEVPATH=/sys/d" ∷ codes "env SUBSYSTEM=m" ∷ codes "note -: unknown action: plug"
        ∷ codes "note -: path begins with /sys: /sys/d" ∷ codes "note r.rules:1: import not run: db" ∷ codes "" ∷ []) }
    ensures stored { answered_as_udev (codes "RUN+=\"r\"") (codes "C: add\nP: /d\nU: m\nE: USEC_INITIALIZED=7")
        ≡ text (
        codes "event add /d" ∷ codes "env ACTION=add" ∷ codes "env DEVPATH=/d"
        ∷ codes "env SUBSYSTEM=m" ∷ codes "env USEC_INITIALIZED=7" ∷ codes "run program r"
        ∷ codes "note -: stored by udev: USEC_INITIALIZED" ∷ codes "" ∷ []) }
    ensures later { answered_as_udev [] (codes "C: change\nP: /d\nU: m\nE: USEC_INITIALIZED=7")
        ≡ codes "event change /d\nenv ACTION=change\nenv DEVPATH=/d\nenv SUBSYSTEM=m\nenv USEC_INITIALIZED=7\n\n" }
    ensures sourced { sourced_as_udev [] (codes "C: plug\nP: /d\nU: m")
        ≡ codes "event plug /d\n-: env ACTION=plug\n-: env DEVPATH=/d\n-: env SUBSYSTEM=m\nnote -: unknown action: plug\n\n" }
    ensures subsystem { answered_as_udev (codes "ENV{F}=\"1\"") (codes "C: add\nP: /d\nE: A=1")
        ≡ codes "event add /d\nenv A=1\nenv ACTION=add\nenv DEVPATH=/d\nnote -: no subsystem, so no rule is tried: /d\n\n" }
    ensures manual { answered [] (codes "C: plug\nP: /sys/d")
        ≡ codes "event plug /sys/d\nenv ACTION=plug\nenv DEVPATH=/sys/d\n\n" }
{}

/// For udev the text of an assignment that asks for an attribute of a device that the block does not have leaves a note after all
/// others: about the first such attribute, if the assignment is reached and its text is rendered. So does ATTRS if no device meets the
/// rule and one is given up since the block does not tell the attribute. By the manual none leaves a note.
pub fn what_searches_and_assignments_ask_for_and_is_not_read_is_noted_for_udev()
    ensures searched { answered_as_udev
        (text (
        codes "ATTRS{q/x}==\"1\", ENV{B}=\"1\"" ∷ codes "KERNELS==\"h\", ATTRS{p/x}==\"2\", ENV{B}=\"1\"" ∷ codes "ATTRS{p/x}==\"1\", ENV{A}=\"1\"" ∷ []))
        (codes "C: add\nP: /h/d\nU: m\nA: a=1\nP: /h\nU: u\nA: p/x=1")
        ≡ text (
        codes "event add /h/d" ∷ codes "env A=1" ∷ codes "env ACTION=add" ∷ codes "env DEVPATH=/h/d" ∷ codes "env SUBSYSTEM=m"
        ∷ codes "note r.rules:1: attribute not read: q/x" ∷ codes "" ∷ []) }
    ensures udev { answered_as_udev
        (text (
        codes "ENV{A}=\"$attr{a}$attr{../x}$attr{[u/g]b}|\", SYMLINK+=\"$attr{[u/g]l}\"" ∷ codes "KERNEL==\"none\", ENV{B}=\"$attr{[u/g]c}\""
        ∷ codes "RUN+=\"r$attr{[u/g]d}\", CONST{virt}!=\"kvm\"" ∷ []))
        (codes "C: add\nP: /d\nU: m\nA: a=1")
        ≡ text (
        codes "event add /d" ∷ codes "env A=1|" ∷ codes "env ACTION=add" ∷ codes "env DEVPATH=/d" ∷ codes "env SUBSYSTEM=m" ∷ codes "run program r"
        ∷ codes "note r.rules:1: no device number: SYMLINK" ∷ codes "note r.rules:3: constant not given: virt"
        ∷ codes "note r.rules:1: attribute not read: ../x" ∷ codes "note r.rules:3: attribute not read: [u/g]d" ∷ codes "" ∷ []) }
    ensures sourced { sourced_as_udev (codes "TAG+=\"t$attr{[u/g]b}\"") (codes "C: add\nP: /d\nU: m")
        ≡ text (
        codes "event add /d" ∷ codes "r.rules:1: tag t" ∷ codes "-: env ACTION=add" ∷ codes "-: env DEVPATH=/d" ∷ codes "-: env SUBSYSTEM=m"
        ∷ codes "note r.rules:1: attribute not read: [u/g]b" ∷ codes "" ∷ []) }
    ensures manual { answered (codes "ENV{A}=\"$attr{../x}|\"") (codes "C: add\nP: /d")
        ≡ codes "event add /d\nenv A=|\nenv ACTION=add\nenv DEVPATH=/d\n\n" }
{}
