//! Examples of `--sources`, `--why`, `--questions` and `--format=json`.
ghost use Rattle.std.specs.Prelude.{◌≡◌, ◌∷◌, ◌++◌, [], None, Some, codes, false, true};
ghost use Rattle.example_laws.specs.Answered.{answered, text};
ghost use Rattle.example_laws.specs.Reported.{asked, asked_in_vain, explained, explained_as_udev, sourced, sourced_as_udev, told_as_object};

/// With `--sources` each line has the rule that it comes from, or none if it was there from the start.
pub fn each_line_comes_from_the_rule_that_last_changed_it()
    ensures changed { sourced
        (text (codes "ENV{A}=\"1\", SYMLINK+=\"l\"" ∷ codes "ENV{A}=\"2\", RUN+=\"r\"" ∷ codes "ENV{A}=\"2\", ENV{B}=\"\"" ∷ []))
        (codes "C: add\nP: /d\nE: B=1\nS: k")
        ≡ text (
        codes "event add /d" ∷ codes "-: link k" ∷ codes "r.rules:1: link l" ∷ codes "r.rules:2: env A=2"
        ∷ codes "-: env ACTION=add" ∷ codes "-: env DEVPATH=/d" ∷ codes "r.rules:2: run program r" ∷ codes "" ∷ []) }
    ensures device { sourced
        (text (
        codes "NAME=\"n\"" ∷ codes "OWNER=\"o\"" ∷ codes "GROUP=\"g\"" ∷ codes "MODE=\"0660\""
        ∷ codes "OPTIONS=\"link_priority=5\"" ∷ codes "OPTIONS=\"nowatch\"" ∷ codes "OPTIONS=\"db_persist\"" ∷ []))
        (codes "C: add\nP: /d\nU: net")
        ≡ text (
        codes "event add /d" ∷ codes "r.rules:1: name n" ∷ codes "r.rules:2: owner o" ∷ codes "r.rules:3: group g"
        ∷ codes "r.rules:4: mode 0660" ∷ codes "r.rules:5: priority 5" ∷ codes "r.rules:6: nowatch"
        ∷ codes "r.rules:7: persist" ∷ codes "-: env ACTION=add" ∷ codes "-: env DEVPATH=/d" ∷ codes "-: env SUBSYSTEM=net"
        ∷ codes "" ∷ []) }
    ensures lists { sourced
        (text (
        codes "SECLABEL{m}=\"l\"" ∷ codes "SYMLINK+=\"s\"" ∷ codes "TAG+=\"t\"" ∷ codes "ENV{E}=\"f\"" ∷ codes "ATTR{a}=\"b\""
        ∷ codes "SYSCTL{c}=\"d\"" ∷ codes "RUN+=\"r\"" ∷ codes "IMPORT{db}=\"i\"" ∷ []))
        (codes "C: add\nP: /d")
        ≡ text (
        codes "event add /d" ∷ codes "r.rules:1: label m=l" ∷ codes "r.rules:2: link s" ∷ codes "r.rules:3: tag t"
        ∷ codes "-: env ACTION=add" ∷ codes "-: env DEVPATH=/d" ∷ codes "r.rules:4: env E=f" ∷ codes "r.rules:5: attr a=b"
        ∷ codes "r.rules:6: sysctl c=d" ∷ codes "r.rules:7: run program r" ∷ codes "note r.rules:8: import not run: db"
        ∷ codes "" ∷ []) }
    ensures commands { sourced
        (text (codes "RUN+=\"a\"" ∷ codes "RUN+=\"b\", RUN{builtin}+=\"kmod c\"" ∷ codes "RUN+=\"a\"" ∷ []))
        (codes "C: add\nP: /d")
        ≡ text (
        codes "event add /d" ∷ codes "-: env ACTION=add" ∷ codes "-: env DEVPATH=/d" ∷ codes "r.rules:1: run program a"
        ∷ codes "r.rules:2: run program b" ∷ codes "r.rules:2: run builtin kmod c" ∷ codes "" ∷ []) }
    ensures made { sourced_as_udev
        (text (codes "RUN+=\"a\"" ∷ codes "RUN+=\"b\", RUN{builtin}+=\"kmod c\"" ∷ codes "RUN+=\"a\"" ∷ []))
        (codes "C: add\nP: /d\nU: m")
        ≡ text (
        codes "event add /d" ∷ codes "-: env ACTION=add" ∷ codes "-: env DEVPATH=/d" ∷ codes "-: env SUBSYSTEM=m" ∷ codes "r.rules:1: run program a"
        ∷ codes "r.rules:2: run builtin kmod c" ∷ codes "r.rules:2: run program b" ∷ codes "r.rules:3: run program a" ∷ codes "" ∷ []) }
{}

/// With `--format=json` an answer is one object on one line, in which with `--sources` each value has the rule that it comes from, unless
/// it was there from the start. Without `--sources` none has.
pub fn an_object_has_the_rules_that_it_is_asked_for()
    ensures sources { told_as_object true
        (text (codes "TAG+=\"t\"" ∷ codes "SYMLINK+=\"l\"" ∷ codes "ENV{A}=\"1\"" ∷ []))
        (codes "C: add\nP: /d\nS: k")
        ≡ codes "{\"event\":\"add\",\"path\":\"/d\",\"labels\":[],\"links\":[{\"value\":\"k\"},{\"value\":\"l\",\"file\":\"r.rules\",\"line\":2}],"
        ++ codes "\"tags\":[{\"value\":\"t\",\"file\":\"r.rules\",\"line\":1}],"
        ++ codes "\"env\":{\"A\":{\"value\":\"1\",\"file\":\"r.rules\",\"line\":3},\"ACTION\":{\"value\":\"add\"},\"DEVPATH\":{\"value\":\"/d\"}},"
        ++ codes "\"attr\":{},\"sysctl\":{},\"run\":[],\"notes\":[],\"why\":[]}\n" }
    ensures plain { told_as_object false
        (text (codes "TAG+=\"t\"" ∷ codes "SYMLINK+=\"l\"" ∷ codes "ENV{A}=\"1\"" ∷ []))
        (codes "C: add\nP: /d\nS: k")
        ≡ codes "{\"event\":\"add\",\"path\":\"/d\",\"labels\":[],\"links\":[\"k\",\"l\"],\"tags\":[\"t\"],"
        ++ codes "\"env\":{\"A\":\"1\",\"ACTION\":\"add\",\"DEVPATH\":\"/d\"},\"attr\":{},\"sysctl\":{},\"run\":[],\"notes\":[],\"why\":[]}\n" }
{}

/// With `--why` each rule says what its keys met up to the one that fails, and then where it stops or what it changed; a rule that is
/// passed over says by which, and a line that was not read why.
pub fn each_rule_says_what_its_keys_met_and_how_it_ended()
    ensures ends { explained
        (text (
        codes "KERNEL==\"e\", ENV{A}=\"1\"" ∷ codes "KERNEL==\"d\", ENV{A}=\"1\", GOTO=\"x\"" ∷ codes "ENV{B}=\"1\""
        ∷ codes "LABEL=\"x\", OWNER:=\"o\", TAG=\"u\"" ∷ codes "NONE=\"1\"" ∷ codes "OWNER=\"p\", ENV{A}=\"1\"" ∷ []))
        (codes "C: add\nP: /d\nG: t")
        ≡ text (
        codes "event add /d" ∷ codes "owner o" ∷ codes "tag u" ∷ codes "env A=1" ∷ codes "env ACTION=add"
        ∷ codes "env DEVPATH=/d" ∷ codes "why r.rules:5: not read: V2 unknown key: NONE"
        ∷ codes "why r.rules:1: KERNEL==\"e\": fails, d" ∷ codes "why r.rules:1: stops there"
        ∷ codes "why r.rules:2: KERNEL==\"d\": holds, d" ∷ codes "why r.rules:2: reached its end: env A=1 set"
        ∷ codes "why r.rules:3: passed over by GOTO of r.rules:2"
        ∷ codes "why r.rules:4: reached its end: owner=o set, tag t removed, tag u added"
        ∷ codes "why r.rules:6: reached its end: OWNER is final since r.rules:4, ENV{A} changes nothing" ∷ codes "" ∷ []) }
    ensures chain { explained
        (text (codes "ATTRS{v}==\"0421\", ATTRS{n}==\"00\", ENV{A}=\"1\"" ∷ codes "ATTRS{v}==\"0421\", ENV{B}=\"1\"" ∷ []))
        (codes "C: add\nP: /u/v/w\nA: n=00\nP: /u/v\nA: v=0421\nP: /u\nA: v=1d6b")
        ≡ text (
        codes "event add /u/v/w" ∷ codes "env ACTION=add" ∷ codes "env B=1" ∷ codes "env DEVPATH=/u/v/w"
        ∷ codes "why r.rules:1: ATTRS{v}==\"0421\": w has none, v holds, u fails, 1d6b"
        ∷ codes "why r.rules:1: ATTRS{n}==\"00\": w holds, v has none, u has none"
        ∷ codes "why r.rules:1: no device meets all: v meets 1 of 2, w meets 1 of 2" ∷ codes "why r.rules:1: stops there"
        ∷ codes "why r.rules:2: ATTRS{v}==\"0421\": w has none, v holds, u fails, 1d6b" ∷ codes "why r.rules:2: v meets all"
        ∷ codes "why r.rules:2: reached its end: env B=1 set" ∷ codes "" ∷ []) }
    ensures acts { explained
        (text (codes "TEST==\"a\", PROGRAM=\"p\", RESULT==\"b\", IMPORT{parent}=\"A*\"" ∷ codes "TEST!=\"a\"" ∷ []))
        (codes "C: add\nP: /h/d\nA: a=1\nQ: p\nR: 0 b\nP: /h\nE: A=1")
        ≡ text (
        codes "event add /h/d" ∷ codes "env A=1" ∷ codes "env ACTION=add" ∷ codes "env DEVPATH=/h/d"
        ∷ codes "why r.rules:1: TEST==\"a\": holds, a" ∷ codes "why r.rules:1: PROGRAM==\"p\": holds, p answers 0 b"
        ∷ codes "why r.rules:1: IMPORT{parent}==\"A*\": holds, sets A=1" ∷ codes "why r.rules:1: RESULT==\"b\": holds, b"
        ∷ codes "why r.rules:1: reached its end" ∷ codes "why r.rules:2: TEST!=\"a\": fails, a"
        ∷ codes "why r.rules:2: stops there" ∷ codes "" ∷ []) }
{}

/// What is no longer there is told before what is added, and a blank at the end of a text is between quotes.
pub fn what_goes_is_told_first_and_the_ends_of_texts_are_seen()
    ensures replaced { explained
        (text (
        codes "RUN+=\"a\", SYMLINK+=\"l\", TAG+=\"t\"" ∷ codes "RUN=\"b\", SYMLINK=\"m\", TAG=\"u\"" ∷ codes "RUN=\"\"" ∷ []))
        (codes "C: add\nP: /d")
        ≡ text (
        codes "event add /d" ∷ codes "link m" ∷ codes "tag u" ∷ codes "env ACTION=add" ∷ codes "env DEVPATH=/d"
        ∷ codes "why r.rules:1: reached its end: tag t added, link l added, run program a added"
        ∷ codes "why r.rules:2: reached its end: tag t removed, tag u added, link l removed, link m added, run program a removed, run program b added"
        ∷ codes "why r.rules:3: reached its end: all runs removed" ∷ codes "" ∷ []) }
    ensures blanks { explained
        (text (
        codes "ENV{A}==\"x\"" ∷ codes "ATTR{m}==\"x \"" ∷ codes "ENV{B}==\"q\"" ∷ codes "TAG==\"t\"" ∷ codes "ENV{C}=\"z \", TAG+=\"u \"" ∷ []))
        (codes "C: add\nP: /d\nA: m=x  \nE: A= x\nE: B=\"q\"\nG: t ")
        ≡ text (
        codes "event add /d" ∷ codes "tag t " ∷ codes "tag u " ∷ codes "env A= x" ∷ codes "env ACTION=add" ∷ codes "env B=\"q\""
        ∷ codes "env C=z " ∷ codes "env DEVPATH=/d" ∷ codes "why r.rules:1: ENV{A}==\"x\": fails, \" x\"" ∷ codes "why r.rules:1: stops there"
        ∷ codes "why r.rules:2: ATTR{m}==\"x \": fails, \"x  \"" ∷ codes "why r.rules:2: stops there"
        ∷ codes "why r.rules:3: ENV{B}==\"q\": fails, \"\"q\"\"" ∷ codes "why r.rules:3: stops there"
        ∷ codes "why r.rules:4: TAG==\"t\": fails, \"t \"" ∷ codes "why r.rules:4: stops there"
        ∷ codes "why r.rules:5: reached its end: tag \"u \" added, env C=\"z \" set" ∷ codes "" ∷ []) }
{}

/// With `--why` each assignment says what became of the items of its key, or of the RUNs: what was there already is not told.
pub fn each_assignment_says_what_became_of_its_own_items()
    ensures lists { explained
        (text (
        codes "SYMLINK+=\"a b\", TAG+=\"t\"" ∷ codes "SYMLINK+=\"b c\", TAG+=\"u\", TAG+=\"t\"" ∷ codes "SYMLINK-=\"a\", TAG-=\"t\""
        ∷ codes "TAG+=\"t\", SYMLINK=\"a\"" ∷ codes "SYSCTL{a.b}=\"4\"" ∷ []))
        (codes "C: add\nP: /d\nG: k\nS: i")
        ≡ text (
        codes "event add /d" ∷ codes "link a" ∷ codes "tag k" ∷ codes "tag u" ∷ codes "tag t" ∷ codes "env ACTION=add" ∷ codes "env DEVPATH=/d"
        ∷ codes "sysctl a.b=4" ∷ codes "why r.rules:1: reached its end: tag t added, link a added, link b added"
        ∷ codes "why r.rules:2: reached its end: tag u added, TAG changes nothing, link c added"
        ∷ codes "why r.rules:3: reached its end: tag t removed, link a removed"
        ∷ codes "why r.rules:4: reached its end: tag t added, link i removed, link b removed, link c removed, link a added"
        ∷ codes "why r.rules:5: reached its end: sysctl a.b=4 set" ∷ codes "" ∷ []) }
    ensures lists_as_udev { explained_as_udev
        (text (
        codes "SYMLINK+=\"a b\", TAG+=\"t\"" ∷ codes "SYMLINK+=\"b c\", TAG+=\"u\", TAG+=\"t\"" ∷ codes "SYMLINK-=\"a\", TAG-=\"t\""
        ∷ codes "TAG+=\"t\", SYMLINK=\"a\"" ∷ codes "SYSCTL{a.b}=\"4\"" ∷ []))
        (codes "C: add\nP: /d\nU: m\nD: 8:0\nG: k\nA: x=y\nS: i")
        ≡ text (
        codes "event add /d" ∷ codes "link a" ∷ codes "tag k" ∷ codes "tag t" ∷ codes "tag u" ∷ codes "env ACTION=add" ∷ codes "env DEVPATH=/d"
        ∷ codes "env MAJOR=8" ∷ codes "env MINOR=0" ∷ codes "env SUBSYSTEM=m" ∷ codes "sysctl a/b=4"
        ∷ codes "why r.rules:1: reached its end: tag t added, link a added, link b added"
        ∷ codes "why r.rules:2: reached its end: tag u added, TAG changes nothing, link c added"
        ∷ codes "why r.rules:3: reached its end: tag t removed, link a removed"
        ∷ codes "why r.rules:4: reached its end: tag t added, link i removed, link b removed, link c removed, link a added"
        ∷ codes "why r.rules:5: reached its end: sysctl a/b=4 set" ∷ codes "" ∷ []) }
    ensures keys { explained
        (text (
        codes "NAME=\"n\", OWNER=\"o\", GROUP=\"g\", MODE=\"0660\"" ∷ codes "NAME=\"m\", OWNER=\"\", OPTIONS=\"link_priority=5\", OPTIONS=\"watch\""
        ∷ codes "OPTIONS=\"nowatch\", OPTIONS=\"db_persist\", SECLABEL{m}=\"l\", ATTR{a}=\"b\"" ∷ codes "SYSCTL{c}=\"d\", ENV{E}=\"f\", RUN+=\"r\""
        ∷ codes "SECLABEL{k}+=\"n\", ATTR{a}=\"b\", ATTR{x}=\"y\", SYSCTL{c}=\"e\"" ∷ codes "ENV{E}=\"\", ENV{F}=\"g\", RUN+=\"r\", RUN+=\"s\""
        ∷ codes "SECLABEL{k}=\"n\", ENV{E}=\"h\"" ∷ codes "RUN=\"s\"" ∷ []))
        (codes "C: add\nP: /d\nU: net\nE: F=g")
        ≡ text (
        codes "event add /d" ∷ codes "name m" ∷ codes "group g" ∷ codes "mode 0660" ∷ codes "priority 5" ∷ codes "nowatch" ∷ codes "persist"
        ∷ codes "label k=n" ∷ codes "env ACTION=add" ∷ codes "env DEVPATH=/d" ∷ codes "env E=h" ∷ codes "env F=g" ∷ codes "env SUBSYSTEM=net"
        ∷ codes "attr a=b" ∷ codes "attr x=y" ∷ codes "sysctl c=e" ∷ codes "run program s"
        ∷ codes "why r.rules:1: reached its end: owner=o set, group=g set, mode=0660 set, name=n set"
        ∷ codes "why r.rules:2: reached its end: priority=5 set, watch added, owner removed, name=m set"
        ∷ codes "why r.rules:3: reached its end: watch removed, nowatch added, persist added, label m=l set, attr a=b set"
        ∷ codes "why r.rules:4: reached its end: env E=f set, sysctl c=d set, run program r added"
        ∷ codes "why r.rules:5: reached its end: label k=n set, ATTR{a} changes nothing, attr x=y set, sysctl c=e set"
        ∷ codes "why r.rules:6: reached its end: env E removed, ENV{F} changes nothing, RUN changes nothing, run program s added"
        ∷ codes "why r.rules:7: reached its end: label m removed, env E=h set" ∷ codes "why r.rules:8: reached its end: run program r removed"
        ∷ codes "" ∷ []) }
    ensures keys_as_udev { explained_as_udev
        (text (
        codes "NAME=\"n\", OWNER=\"o\", GROUP=\"g\", MODE=\"0660\"" ∷ codes "NAME=\"m\", OWNER=\"\", OPTIONS=\"link_priority=5\", OPTIONS=\"watch\""
        ∷ codes "OPTIONS=\"nowatch\", OPTIONS=\"db_persist\", SECLABEL{m}=\"l\", ATTR{a}=\"b\"" ∷ codes "SYSCTL{c}=\"d\", ENV{E}=\"f\", RUN+=\"r\""
        ∷ codes "SECLABEL{k}+=\"n\", ATTR{a}=\"b\", ATTR{x}=\"y\", SYSCTL{c}=\"e\"" ∷ codes "ENV{E}=\"\", ENV{F}=\"g\", RUN+=\"r\", RUN+=\"s\""
        ∷ codes "SECLABEL{k}=\"n\", ENV{E}=\"h\"" ∷ codes "RUN=\"s\"" ∷ []))
        (codes "C: add\nP: /d\nU: m\nD: 8:0\nG: k\nA: x=y\nS: i")
        ≡ text (
        codes "event add /d" ∷ codes "owner o" ∷ codes "group g" ∷ codes "mode 0660" ∷ codes "priority 5" ∷ codes "nowatch" ∷ codes "persist"
        ∷ codes "label k=n" ∷ codes "link i" ∷ codes "tag k" ∷ codes "env ACTION=add" ∷ codes "env DEVPATH=/d" ∷ codes "env E=h" ∷ codes "env F=g"
        ∷ codes "env MAJOR=8" ∷ codes "env MINOR=0" ∷ codes "env SUBSYSTEM=m" ∷ codes "attr a=b" ∷ codes "attr x=y" ∷ codes "sysctl c=e" ∷ codes "run program s"
        ∷ codes "note r.rules:1: name ignored: n" ∷ codes "note r.rules:2: no value: OWNER" ∷ codes "note r.rules:2: name ignored: m"
        ∷ codes "why r.rules:1: reached its end: owner=o set, group=g set, mode=0660 set, NAME ignored, no network device"
        ∷ codes "why r.rules:2: reached its end: watch added, priority=5 set, OWNER ignored, no value, NAME ignored, no network device"
        ∷ codes "why r.rules:3: reached its end: persist added, watch removed, nowatch added, label m=l added, attr a=b set"
        ∷ codes "why r.rules:4: reached its end: env E=f set, sysctl c=d set, run program r added"
        ∷ codes "why r.rules:5: reached its end: label k=n added, ATTR{a} changes nothing, attr x=y set, sysctl c=e set"
        ∷ codes "why r.rules:6: reached its end: env E removed, env F=g set, run program r added, run program s added"
        ∷ codes "why r.rules:7: reached its end: label m=l removed, env E=h set"
        ∷ codes "why r.rules:8: reached its end: run program r removed, run program r removed, run program s removed, run program s added" ∷ codes "" ∷ []) }
{}

/// With `--udev --why` a rule that is skipped says which of its keys do nothing and why, an import what it removes, and NAME of a network
/// device that it is no interface.
pub fn what_udev_leaves_out_says_why()
    ensures number { explained_as_udev
        (text (
        codes "SUBSYSTEMS==\"u\", SYMLINK+=\"l\", OWNER=\"o\"" ∷ codes "NAME=\"n\"" ∷ codes "OPTIONS=\"static_node=x\"" ∷ codes "LABEL=\"x\""
        ∷ codes "KERNEL==\"d\", LABEL=\"y\"" ∷ []))
        (codes "C: add\nP: /h/d\nU: m\nP: /h\nU: u")
        ≡ text (
        codes "event add /h/d" ∷ codes "env ACTION=add" ∷ codes "env DEVPATH=/h/d" ∷ codes "env SUBSYSTEM=m" ∷ codes "note r.rules:1: no device number: OWNER"
        ∷ codes "note r.rules:1: no device number: SYMLINK" ∷ codes "note r.rules:2: name ignored: n"
        ∷ codes "why r.rules:1: SUBSYSTEMS==\"u\": d fails, m, h holds" ∷ codes "why r.rules:1: h would meet all"
        ∷ codes "why r.rules:1: skipped: OWNER does nothing without a device number, SYMLINK does nothing without a device number"
        ∷ codes "why r.rules:2: skipped: NAME does nothing without an interface (IFINDEX)"
        ∷ codes "why r.rules:3: skipped: OPTIONS does nothing at an event" ∷ codes "why r.rules:4: reached its end"
        ∷ codes "why r.rules:5: KERNEL==\"d\": holds, d" ∷ codes "why r.rules:5: skipped: nothing is assigned" ∷ codes "" ∷ []) }
    ensures removed { explained_as_udev (codes "SYMLINK+=\"l\", MODE=\"0660\"") (codes "C: remove\nP: /d\nD: 8:1")
        ≡ text (
        codes "event remove /d" ∷ codes "env ACTION=remove" ∷ codes "env DEVPATH=/d" ∷ codes "env MAJOR=8" ∷ codes "env MINOR=1"
        ∷ codes "why r.rules:1: skipped: MODE does nothing when the device is removed, SYMLINK does nothing when the device is removed"
        ∷ codes "" ∷ []) }
    ensures interface { explained_as_udev (codes "NAME=\"n\", ENV{A}=\"1\"") (codes "C: add\nP: /d\nU: net")
        ≡ text (
        codes "event add /d" ∷ codes "env A=1" ∷ codes "env ACTION=add" ∷ codes "env DEVPATH=/d" ∷ codes "env SUBSYSTEM=net"
        ∷ codes "note r.rules:1: name ignored: n"
        ∷ codes "why r.rules:1: reached its end: env A=1 set, NAME ignored, no interface (IFINDEX)" ∷ codes "" ∷ []) }
    ensures imported { explained_as_udev
        (text (codes "IMPORT{program}=\"/p\", ENV{C}=\"1\"" ∷ codes "IMPORT{program}=\"/q\", ENV{C}=\"2\"" ∷ []))
        (codes "C: add\nP: /d\nU: m\nE: A=1\nQ: /p\nR: 0 A=\"\"\rB=2\nQ: /q\nR: 0 B=\"\"")
        ≡ text (
        codes "event add /d" ∷ codes "env ACTION=add" ∷ codes "env C=2" ∷ codes "env DEVPATH=/d" ∷ codes "env SUBSYSTEM=m"
        ∷ codes "why r.rules:1: IMPORT{program}==\"/p\": holds, /p answers 0 A=\"\"\\x0DB=2, removes A, sets B=2"
        ∷ codes "why r.rules:1: reached its end: env C=1 set"
        ∷ codes "why r.rules:2: IMPORT{program}==\"/q\": holds, /q answers 0 B=\"\", removes B"
        ∷ codes "why r.rules:2: reached its end: env C=2 set" ∷ codes "" ∷ []) }
{}

/// If `--why` asks for a line without a rule, the nearest rule of the file is named, and of two as near the one above; if
/// it asks for a file that is not there, the file with the nearest name is named, if one is near.
pub fn the_nearest_rule_is_named()
    ensures above { asked_in_vain (codes "r.rules:3") (codes "\nTAG+=\"a\"\n\n\nTAG+=\"b\"\n\n\n\nTAG+=\"c\"")
        ≡ Some (codes "devdry: --why r.rules:3: no such rule, the nearest is r.rules:2\n") }
    ensures below { asked_in_vain (codes "r.rules:8") (codes "\nTAG+=\"a\"\n\n\nTAG+=\"b\"\n\n\n\nTAG+=\"c\"")
        ≡ Some (codes "devdry: --why r.rules:8: no such rule, the nearest is r.rules:9\n") }
    ensures as_near { asked_in_vain (codes "r.rules:7") (codes "\nTAG+=\"a\"\n\n\nTAG+=\"b\"\n\n\n\nTAG+=\"c\"")
        ≡ Some (codes "devdry: --why r.rules:7: no such rule, the nearest is r.rules:5\n") }
    ensures file { asked_in_vain (codes "other.rules:5") (codes "\nTAG+=\"a\"") ≡ Some (codes "devdry: --why other.rules:5: no such rules file\n") }
    ensures near { asked_in_vain (codes "x/s.rule:5") (codes "\nTAG+=\"a\"")
        ≡ Some (codes "devdry: --why x/s.rule:5: no such rules file, the nearest is r.rules\n") }
    ensures known { asked_in_vain (codes "r.rules:2") (codes "\nTAG+=\"a\"") ≡ None }
{}

/// With `--questions` an answer is the commands that are looked up and that the block does not answer, each once.
pub fn what_the_block_does_not_answer_is_asked_once()
    ensures asked { asked
        (text (codes "PROGRAM==\"b %k\"" ∷ codes "PROGRAM==\"a\"" ∷ codes "PROGRAM==\"b %k\"" ∷ []))
        (codes "C: add\nP: /d")
        ≡ codes "event add /d\nQ: b d\nQ: a\n\n" }
    ensures answered { asked
        (text (codes "PROGRAM==\"a\", ENV{A}=\"%c\"" ∷ codes "ENV{A}==\"one\", PROGRAM==\"b $env{A}\"" ∷ []))
        (codes "C: add\nP: /d\nQ: a\nR: 0 one")
        ≡ codes "event add /d\nQ: b one\n\n" }
    ensures stopped { asked
        (text (
        codes "PROGRAM==\"a\", PROGRAM==\"b\"" ∷ codes "KERNEL==\"x\", PROGRAM==\"c\"" ∷ codes "TEST==\"x\", PROGRAM==\"e\""
        ∷ codes "PROGRAM!=\"f\", PROGRAM==\"g\"" ∷ []))
        (codes "C: add\nP: /d")
        ≡ codes "event add /d\nQ: a\nQ: f\nQ: g\n\n" }
{}
