//! Examples of matches: of the event device, and of one device of the chain.
ghost use Rattle.std.specs.Prelude.{◌≡◌, ◌++◌, ◌∷◌, [], codes};
ghost use Rattle.example_laws.specs.Answered.{answered, text};

/// A rule with a match that holds sets its property, and one with a match that does not hold sets nothing.
pub fn a_match_lets_its_rule_go_on_if_it_holds()
    ensures equal { answered (codes "KERNEL==\"d\", ENV{X}=\"1\"") (codes "C: add\nP: /d")
        ≡ codes "event add /d\nenv ACTION=add\nenv DEVPATH=/d\nenv X=1\n\n" }
    ensures other { answered (codes "KERNEL==\"e\", ENV{X}=\"1\"") (codes "C: add\nP: /d")
        ≡ codes "event add /d\nenv ACTION=add\nenv DEVPATH=/d\n\n" }
    ensures unequal { answered (codes "KERNEL!=\"d\", ENV{X}=\"1\"") (codes "C: add\nP: /d")
        ≡ codes "event add /d\nenv ACTION=add\nenv DEVPATH=/d\n\n" }
    ensures unequal_other { answered (codes "KERNEL!=\"e\", ENV{X}=\"1\"") (codes "C: add\nP: /d")
        ≡ codes "event add /d\nenv ACTION=add\nenv DEVPATH=/d\nenv X=1\n\n" }
{}

/// Each key is compared with its own text, by `==` and by `!=`.
pub fn each_key_of_the_event_is_compared_with_its_own_text()
    ensures equal { answered
        (codes "ACTION==\"a\", DEVPATH==\"/p/k\", KERNEL==\"k\", SUBSYSTEM==\"s\", DRIVER==\"v\", SYMLINK==\"l\", TAG==\"t\", "
        ++ codes "ATTR{b}==\"c\", ENV{e}==\"f\", CONST{arch}==\"g\", ENV{x}=\"1\"")
        (codes "C: a\nP: /p/k\nU: s\nV: v\nS: l\nG: t\nA: b=c\nE: e=f\nK: arch=g")
        ≡ codes "event a /p/k\nlink l\ntag t\nenv ACTION=a\nenv DEVPATH=/p/k\nenv SUBSYSTEM=s\nenv e=f\nenv x=1\n\n" }
    ensures unequal { answered
        (text (
        codes "ACTION!=\"a\", ENV{x}=\"1\"" ∷ codes "DEVPATH!=\"/p/k\", ENV{x}=\"1\"" ∷ codes "KERNEL!=\"k\", ENV{x}=\"1\""
        ∷ codes "SUBSYSTEM!=\"s\", ENV{x}=\"1\"" ∷ codes "DRIVER!=\"v\", ENV{x}=\"1\"" ∷ codes "SYMLINK!=\"l\", ENV{x}=\"1\""
        ∷ codes "TAG!=\"t\", ENV{x}=\"1\"" ∷ codes "ATTR{b}!=\"c\", ENV{x}=\"1\"" ∷ codes "ENV{e}!=\"f\", ENV{x}=\"1\""
        ∷ codes "CONST{arch}!=\"g\", ENV{x}=\"1\"" ∷ []))
        (codes "C: a\nP: /p/k\nU: s\nV: v\nS: l\nG: t\nA: b=c\nE: e=f\nK: arch=g")
        ≡ codes "event a /p/k\nlink l\ntag t\nenv ACTION=a\nenv DEVPATH=/p/k\nenv SUBSYSTEM=s\nenv e=f\n\n" }
    ensures other { answered
        (codes "ACTION!=\"k\", DEVPATH!=\"a\", KERNEL!=\"a\", SUBSYSTEM!=\"v\", DRIVER!=\"s\", SYMLINK!=\"t\", TAG!=\"l\", "
        ++ codes "ATTR{b}!=\"f\", ENV{e}!=\"c\", CONST{arch}!=\"a\", ENV{x}=\"1\"")
        (codes "C: a\nP: /p/k\nU: s\nV: v\nS: l\nG: t\nA: b=c\nE: e=f\nK: arch=g")
        ≡ codes "event a /p/k\nlink l\ntag t\nenv ACTION=a\nenv DEVPATH=/p/k\nenv SUBSYSTEM=s\nenv e=f\nenv x=1\n\n" }
{}

/// NAME is compared with the name that a rule gave, which is empty before.
pub fn a_name_is_compared_once_a_rule_gave_it()
    ensures { answered
        (text (
        codes "NAME==\"\", ENV{A}=\"1\"" ∷ codes "NAME=\"n\"" ∷ codes "NAME==\"n\", ENV{B}=\"1\""
        ∷ codes "NAME!=\"n\", ENV{C}=\"1\"" ∷ []))
        (codes "C: add\nP: /d\nU: net")
        ≡ codes "event add /d\nname n\nenv A=1\nenv ACTION=add\nenv B=1\nenv DEVPATH=/d\nenv SUBSYSTEM=net\n\n" }
{}

/// An attribute, a constant or a parameter that is absent fails `==` and meets `!=`; a constant of an unknown name fails both. A
/// property, a subsystem or a driver that is absent is empty.
pub fn what_is_absent_fails_equal_and_meets_unequal()
    ensures attribute { answered
        (text (codes "ATTR{a}==\"*\", ENV{A}=\"1\"" ∷ codes "ATTR{a}!=\"1\", ENV{B}=\"1\"" ∷ []))
        (codes "C: add\nP: /d")
        ≡ codes "event add /d\nenv ACTION=add\nenv B=1\nenv DEVPATH=/d\n\n" }
    ensures constant { answered
        (text (
        codes "CONST{virt}==\"*\", ENV{A}=\"1\"" ∷ codes "CONST{virt}!=\"kvm\", ENV{B}=\"1\""
        ∷ codes "CONST{x}==\"*\", ENV{C}=\"1\"" ∷ codes "CONST{x}!=\"1\", ENV{D}=\"1\"" ∷ []))
        (codes "C: add\nP: /d")
        ≡ codes "event add /d\nenv ACTION=add\nenv B=1\nenv DEVPATH=/d\n\n" }
    ensures parameter { answered
        (text (codes "SYSCTL{s}==\"*\", ENV{A}=\"1\"" ∷ codes "SYSCTL{s}!=\"1\", ENV{B}=\"1\"" ∷ []))
        (codes "C: add\nP: /d")
        ≡ text (
        codes "event add /d" ∷ codes "env ACTION=add" ∷ codes "env B=1" ∷ codes "env DEVPATH=/d"
        ∷ codes "note r.rules:1: sysctl not read: s" ∷ codes "note r.rules:2: sysctl not read: s" ∷ codes "" ∷ []) }
    ensures empty { answered
        (text (codes "ENV{a}==\"\", SUBSYSTEM==\"\", DRIVER==\"\", ENV{A}=\"1\"" ∷ codes "ENV{a}!=\"\", ENV{B}=\"1\"" ∷ []))
        (codes "C: add\nP: /d")
        ≡ codes "event add /d\nenv A=1\nenv ACTION=add\nenv DEVPATH=/d\n\n" }
{}

/// A match of links or tags holds by `==` if one of them fits, and by `!=` if none does.
pub fn one_link_or_tag_that_fits_is_enough()
    ensures { answered
        (text (
        codes "SYMLINK==\"t*\", ENV{A}=\"1\"" ∷ codes "SYMLINK!=\"t*\", ENV{B}=\"1\"" ∷ codes "SYMLINK!=\"x\", ENV{C}=\"1\""
        ∷ codes "TAG==\"t*\", ENV{D}=\"1\"" ∷ codes "TAG!=\"t*\", ENV{E}=\"1\"" ∷ codes "TAG!=\"x\", ENV{F}=\"1\"" ∷ []))
        (codes "C: add\nP: /d\nS: one\nS: two\nG: to\nG: of")
        ≡ text (
        codes "event add /d" ∷ codes "link one" ∷ codes "link two" ∷ codes "tag to" ∷ codes "tag of" ∷ codes "env A=1"
        ∷ codes "env ACTION=add" ∷ codes "env C=1" ∷ codes "env D=1" ∷ codes "env DEVPATH=/d" ∷ codes "env F=1" ∷ codes "" ∷ []) }
{}

/// Whitespace at the end of an attribute counts only if the last pattern ends in whitespace.
pub fn blanks_at_the_end_of_an_attribute_count_if_the_pattern_has_some()
    ensures { answered
        (text (
        codes "ATTR{m}==\"Disk\", ENV{A}=\"1\"" ∷ codes "ATTR{m}==\"Disk \", ENV{B}=\"1\""
        ∷ codes "ATTR{m}==\"Disk  \", ENV{C}=\"1\"" ∷ codes "ATTR{m}!=\"Disk\", ENV{D}=\"1\"" ∷ []))
        (codes "C: add\nP: /d\nA: m=Disk  ")
        ≡ codes "event add /d\nenv A=1\nenv ACTION=add\nenv C=1\nenv DEVPATH=/d\n\n" }
{}

/// Patterns are those of the shell, with bars between them, and `i` ignores case.
pub fn patterns_fit_as_in_the_shell()
    ensures { answered
        (text (
        codes "KERNEL==\"x|s[a-c]?\", ENV{A}=\"1\"" ∷ codes "KERNEL==\"s[!a-c]*\", ENV{B}=\"1\""
        ∷ codes "KERNEL==\"s?\", ENV{C}=\"1\"" ∷ codes "KERNEL==\"*7\", ENV{D}=\"1\"" ∷ codes "KERNEL==i\"SB7\", ENV{E}=\"1\""
        ∷ codes "KERNEL==\"SB7\", ENV{F}=\"1\"" ∷ []))
        (codes "C: add\nP: /sb7")
        ≡ codes "event add /sb7\nenv A=1\nenv ACTION=add\nenv D=1\nenv DEVPATH=/sb7\nenv E=1\n\n" }
{}

/// The matches along the chain hold together at one device, the nearest such one, which `$id` names from then on; a RUN keeps
/// the device of its rule.
pub fn a_search_selects_the_nearest_device_that_meets_all_matches()
    ensures all { answered
        (text (codes "SUBSYSTEMS==\"pci\", ATTRS{s}==\"7\", ENV{A}=\"$id\", RUN+=\"r $id\"" ∷ codes "ENV{B}=\"$id\"" ∷ []))
        (codes "C: add\nP: /h/d/t\nU: tty\nP: /h/d\nU: usb\nP: /h\nU: pci\nA: s=7")
        ≡ codes "event add /h/d/t\nenv A=h\nenv ACTION=add\nenv B=h\nenv DEVPATH=/h/d/t\nenv SUBSYSTEM=tty\nrun program r h\n\n" }
    ensures nearest { answered
        (text (codes "KERNELS==\"*\", ENV{A}=\"$id\"" ∷ codes "SUBSYSTEMS==\"usb|pci\", ENV{B}=\"$id\"" ∷ []))
        (codes "C: add\nP: /h/d/t\nU: tty\nP: /h/d\nU: usb\nP: /h\nU: pci\nA: s=7")
        ≡ codes "event add /h/d/t\nenv A=t\nenv ACTION=add\nenv B=d\nenv DEVPATH=/h/d/t\nenv SUBSYSTEM=tty\n\n" }
    ensures later { answered
        (text (codes "SUBSYSTEMS==\"pci\", RUN+=\"r $id\"" ∷ codes "SUBSYSTEMS==\"usb\", RUN+=\"q $id\"" ∷ []))
        (codes "C: add\nP: /h/d/t\nU: tty\nP: /h/d\nU: usb\nP: /h\nU: pci\nA: s=7")
        ≡ codes "event add /h/d/t\nenv ACTION=add\nenv DEVPATH=/h/d/t\nenv SUBSYSTEM=tty\nrun program r h\nrun program q d\n\n" }
{}

/// If no device meets all matches, the rule stops and no device is selected.
pub fn a_search_that_finds_no_device_stops_its_rule()
    ensures { answered
        (text (
        codes "SUBSYSTEMS==\"pci\", ENV{A}=\"$id\"" ∷ codes "SUBSYSTEMS==\"usb\", ATTRS{s}==\"7\", ENV{B}=\"1\""
        ∷ codes "ENV{C}=\"[$id]\"" ∷ []))
        (codes "C: add\nP: /h/d/t\nU: tty\nP: /h/d\nU: usb\nP: /h\nU: pci\nA: s=7")
        ≡ codes "event add /h/d/t\nenv A=h\nenv ACTION=add\nenv C=[]\nenv DEVPATH=/h/d/t\nenv SUBSYSTEM=tty\n\n" }
{}

/// Each key that looks along the chain is compared with its own text of a device, by `==` and by `!=`.
pub fn each_key_of_the_chain_is_compared_with_its_own_text()
    ensures equal { answered
        (text (
        codes "KERNELS==\"h\", ENV{A}=\"$id\"" ∷ codes "SUBSYSTEMS==\"u\", ENV{B}=\"$id\""
        ∷ codes "DRIVERS==\"w\", ENV{C}=\"$id\"" ∷ codes "TAGS==\"o\", ENV{D}=\"$id\""
        ∷ codes "ATTRS{a}==\"2\", ENV{E}=\"$id\"" ∷ []))
        (codes "C: add\nP: /h/d\nU: s\nV: v\nG: t\nA: a=1\nP: /h\nU: u\nV: w\nG: o\nA: a=2")
        ≡ text (
        codes "event add /h/d" ∷ codes "tag t" ∷ codes "env A=h" ∷ codes "env ACTION=add" ∷ codes "env B=h" ∷ codes "env C=h"
        ∷ codes "env D=h" ∷ codes "env DEVPATH=/h/d" ∷ codes "env E=h" ∷ codes "env SUBSYSTEM=s" ∷ codes "" ∷ []) }
    ensures unequal { answered
        (text (
        codes "KERNELS!=\"d\", ENV{A}=\"$id\"" ∷ codes "SUBSYSTEMS!=\"s\", ENV{B}=\"$id\""
        ∷ codes "DRIVERS!=\"v\", ENV{C}=\"$id\"" ∷ codes "TAGS!=\"t\", ENV{D}=\"$id\""
        ∷ codes "ATTRS{a}!=\"1\", ENV{E}=\"$id\"" ∷ []))
        (codes "C: add\nP: /h/d\nU: s\nV: v\nG: t\nA: a=1\nP: /h\nU: u\nV: w\nG: o\nA: a=2")
        ≡ text (
        codes "event add /h/d" ∷ codes "tag t" ∷ codes "env A=h" ∷ codes "env ACTION=add" ∷ codes "env B=h" ∷ codes "env C=h"
        ∷ codes "env D=h" ∷ codes "env DEVPATH=/h/d" ∷ codes "env E=h" ∷ codes "env SUBSYSTEM=s" ∷ codes "" ∷ []) }
    ensures together { answered
        (codes "KERNELS==\"h\", SUBSYSTEMS==\"u\", DRIVERS==\"w\", TAGS==\"o\", ATTRS{a}==\"2\", ENV{A}=\"$driver\"")
        (codes "C: add\nP: /h/d\nU: s\nV: v\nG: t\nA: a=1\nP: /h\nU: u\nV: w\nG: o\nA: a=2")
        ≡ codes "event add /h/d\ntag t\nenv A=w\nenv ACTION=add\nenv DEVPATH=/h/d\nenv SUBSYSTEM=s\n\n" }
{}
