//! Examples of assignments.
ghost use Rattle.std.specs.Prelude.{◌≡◌, ◌++◌, ◌∷◌, [], codes};
ghost use Rattle.example_laws.specs.Answered.{answered, text};

/// Each key that is assigned has its own line in the answer.
pub fn each_key_changes_its_own_line_of_the_answer()
    ensures device { answered
        (codes "NAME=\"n\", OWNER=\"o\", GROUP=\"g\", MODE=\"0600\", OPTIONS=\"link_priority=-5\", OPTIONS=\"watch\", "
        ++ codes "OPTIONS=\"db_persist\"")
        (codes "C: add\nP: /d\nU: net")
        ≡ text (
        codes "event add /d" ∷ codes "name n" ∷ codes "owner o" ∷ codes "group g" ∷ codes "mode 0600" ∷ codes "priority -5"
        ∷ codes "watch" ∷ codes "persist" ∷ codes "env ACTION=add" ∷ codes "env DEVPATH=/d" ∷ codes "env SUBSYSTEM=net"
        ∷ codes "" ∷ []) }
    ensures lists { answered
        (codes "SECLABEL{m}=\"l\", SYMLINK+=\"s\", TAG+=\"t\", ENV{e}=\"f\", ATTR{a}=\"b\", SYSCTL{c/d}=\"h\", RUN+=\"/r x\", "
        ++ codes "RUN{builtin}+=\"kmod y\"")
        (codes "C: add\nP: /d")
        ≡ text (
        codes "event add /d" ∷ codes "label m=l" ∷ codes "link s" ∷ codes "tag t" ∷ codes "env ACTION=add"
        ∷ codes "env DEVPATH=/d" ∷ codes "env e=f" ∷ codes "attr a=b" ∷ codes "sysctl c/d=h" ∷ codes "run program /r x"
        ∷ codes "run builtin kmod y" ∷ codes "" ∷ []) }
{}

/// A NAME of any other device is ignored, with a note.
pub fn a_name_is_for_network_devices()
    ensures { answered (codes "NAME=\"n\"") (codes "C: add\nP: /d\nU: tty")
        ≡ codes "event add /d\nenv ACTION=add\nenv DEVPATH=/d\nenv SUBSYSTEM=tty\nnote r.rules:1: name ignored: n\n\n" }
{}

/// `+=` adds links and tags that are not there, `-=` removes some, and `=` leaves no others.
pub fn links_and_tags_are_added_removed_and_replaced()
    ensures added { answered
        (text (codes "SYMLINK+=\"two three one\", TAG+=\"u\"" ∷ codes "TAG+=\"t\"" ∷ []))
        (codes "C: add\nP: /d\nS: one\nG: t")
        ≡ codes "event add /d\nlink one\nlink two\nlink three\ntag t\ntag u\nenv ACTION=add\nenv DEVPATH=/d\n\n" }
    ensures removed { answered (codes "SYMLINK-=\"one x\", TAG-=\"t\"") (codes "C: add\nP: /d\nS: one\nS: two\nG: t\nG: u")
        ≡ codes "event add /d\nlink two\ntag u\nenv ACTION=add\nenv DEVPATH=/d\n\n" }
    ensures replaced { answered (codes "SYMLINK=\"a b\", TAG=\"c\"") (codes "C: add\nP: /d\nS: one\nG: t")
        ≡ codes "event add /d\nlink a\nlink b\ntag c\nenv ACTION=add\nenv DEVPATH=/d\n\n" }
{}

/// `=` sets a property, and removes it by an empty text; `+=` adds a blank and a text. A property whose name begins with a dot is
/// not shown.
pub fn a_property_is_set_extended_and_removed()
    ensures { answered
        (text (
        codes "ENV{A}=\"1\", ENV{B}=\"\", ENV{C}+=\"3\", ENV{D}+=\"4\", ENV{E}+=\"\", ENV{.F}=\"6\""
        ∷ codes "ENV{.F}==\"6\", ENV{G}=\"7\"" ∷ []))
        (codes "C: add\nP: /d\nE: A=0\nE: B=2\nE: C=2\nE: E=5")
        ≡ codes "event add /d\nenv A=1\nenv ACTION=add\nenv C=2 3\nenv D=4\nenv DEVPATH=/d\nenv E=5\nenv G=7\n\n" }
{}

/// A later text for an attribute, a parameter or a label takes the place of an earlier one; `=` makes a label the only one.
pub fn what_is_written_is_kept_by_name()
    ensures written { answered
        (text (codes "ATTR{a}=\"1\", ATTR{b}=\"2\", SYSCTL{c}=\"3\"" ∷ codes "ATTR{a}=\"4\", SYSCTL{c}=\"5\"" ∷ []))
        (codes "C: add\nP: /d")
        ≡ codes "event add /d\nenv ACTION=add\nenv DEVPATH=/d\nattr a=4\nattr b=2\nsysctl c=5\n\n" }
    ensures labels { answered (text (codes "SECLABEL{a}=\"1\"" ∷ codes "SECLABEL{b}+=\"2\"" ∷ [])) (codes "C: add\nP: /d")
        ≡ codes "event add /d\nlabel a=1\nlabel b=2\nenv ACTION=add\nenv DEVPATH=/d\n\n" }
    ensures label { answered (text (codes "SECLABEL{a}=\"1\"" ∷ codes "SECLABEL{b}=\"2\"" ∷ [])) (codes "C: add\nP: /d")
        ≡ codes "event add /d\nlabel b=2\nenv ACTION=add\nenv DEVPATH=/d\n\n" }
{}

/// `+=` adds a command that is not there, `=` leaves no others; a command is rendered when all rules have run.
pub fn commands_are_made_when_all_rules_have_run()
    ensures added { answered
        (text (codes "RUN+=\"a $env{X}\", RUN{builtin}+=\"a $env{X}\", RUN+=\"a $env{X}\", RUN+=\"\"" ∷ codes "ENV{X}=\"1\"" ∷ []))
        (codes "C: add\nP: /d")
        ≡ codes "event add /d\nenv ACTION=add\nenv DEVPATH=/d\nenv X=1\nrun program a 1\nrun builtin a 1\n\n" }
    ensures replaced { answered
        (text (codes "RUN+=\"a\", RUN{builtin}+=\"b\"" ∷ codes "RUN=\"c\"" ∷ codes "RUN{program}+=\"d\"" ∷ []))
        (codes "C: add\nP: /d")
        ≡ codes "event add /d\nenv ACTION=add\nenv DEVPATH=/d\nrun program c\nrun program d\n\n" }
{}

/// Of `watch` and `nowatch`, and of priorities, the last counts; other options change nothing.
pub fn options_are_those_given_last()
    ensures last { answered
        (text (
        codes "OPTIONS=\"watch\", OPTIONS+=\"nowatch\", OPTIONS=\"link_priority=1\", OPTIONS+=\"link_priority=2\""
        ∷ codes "OPTIONS=\"log_level=debug\", OPTIONS+=\"static_node=x\"" ∷ []))
        (codes "C: add\nP: /d")
        ≡ codes "event add /d\npriority 2\nnowatch\nenv ACTION=add\nenv DEVPATH=/d\n\n" }
    ensures watch { answered (text (codes "OPTIONS=\"nowatch\"" ∷ codes "OPTIONS=\"watch\"" ∷ [])) (codes "C: add\nP: /d")
        ≡ codes "event add /d\nwatch\nenv ACTION=add\nenv DEVPATH=/d\n\n" }
{}

/// After `:=` a key no longer changes; properties and tags have no such operator and change.
pub fn a_final_key_no_longer_changes()
    ensures device { answered
        (text (
        codes "NAME:=\"n\", OWNER:=\"o\", GROUP:=\"g\", MODE:=\"1\", OPTIONS:=\"link_priority=1\", OPTIONS:=\"watch\""
        ∷ codes "NAME=\"m\", OWNER=\"p\", GROUP=\"h\", MODE=\"2\", OPTIONS=\"link_priority=2\", OPTIONS=\"nowatch\"" ∷ []))
        (codes "C: add\nP: /d\nU: net")
        ≡ text (
        codes "event add /d" ∷ codes "name n" ∷ codes "owner o" ∷ codes "group g" ∷ codes "mode 1" ∷ codes "priority 1"
        ∷ codes "watch" ∷ codes "env ACTION=add" ∷ codes "env DEVPATH=/d" ∷ codes "env SUBSYSTEM=net" ∷ codes "" ∷ []) }
    ensures lists { answered
        (text (codes "SYMLINK:=\"l\", RUN:=\"r\"" ∷ codes "SYMLINK+=\"k\", RUN+=\"q\"" ∷ []))
        (codes "C: add\nP: /d")
        ≡ codes "event add /d\nlink l\nenv ACTION=add\nenv DEVPATH=/d\nrun program r\n\n" }
    ensures others { answered
        (text (codes "ENV{A}:=\"1\", TAG:=\"t\", ATTR{a}:=\"1\"" ∷ codes "ENV{A}=\"2\", TAG+=\"u\", ATTR{a}=\"2\"" ∷ []))
        (codes "C: add\nP: /d")
        ≡ codes "event add /d\ntag t\ntag u\nenv A=2\nenv ACTION=add\nenv DEVPATH=/d\nattr a=2\n\n" }
{}

/// OWNER, GROUP, MODE, TAG and SECLABEL are assigned before ENV; NAME, SYMLINK, ATTR and SYSCTL after it, in this order.
pub fn the_assignments_of_a_rule_are_made_by_kind()
    ensures { answered
        (codes "RUN+=\"r$env{X}\", SYSCTL{s}=\"$env{X}\", ATTR{a}=\"$links$env{X}\", SYMLINK+=\"l$name\", NAME=\"n$env{X}\", "
        ++ codes "ENV{X}=\"1\", SECLABEL{m}=\"s$env{X}\", TAG+=\"t$env{X}\", MODE=\"$env{X}\", GROUP=\"g$env{X}\", OWNER=\"o$env{X}\"")
        (codes "C: add\nP: /d\nU: net\nE: X=0")
        ≡ text (
        codes "event add /d" ∷ codes "name n1" ∷ codes "owner o0" ∷ codes "group g0" ∷ codes "mode 0" ∷ codes "label m=s0"
        ∷ codes "link ln1" ∷ codes "tag t0" ∷ codes "env ACTION=add" ∷ codes "env DEVPATH=/d" ∷ codes "env SUBSYSTEM=net"
        ∷ codes "env X=1" ∷ codes "attr a=ln11" ∷ codes "sysctl s=1" ∷ codes "run program r1" ∷ codes "" ∷ []) }
{}

/// In a link each substitution is one word and other bytes are replaced, unless `string_escape=none` is given; with
/// `string_escape=replace` the text is one link.
pub fn links_are_made_safe()
    ensures usual { answered (codes "SYMLINK+=\"a<b $env{E}\"") (codes "C: add\nP: /d\nE: E= c  d ")
        ≡ codes "event add /d\nlink a_b\nlink c_d\nenv ACTION=add\nenv DEVPATH=/d\nenv E= c  d \n\n" }
    ensures none { answered (codes "SYMLINK+=\"a<b $env{E}\", OPTIONS=\"string_escape=none\"") (codes "C: add\nP: /d\nE: E=c d")
        ≡ codes "event add /d\nlink a<b\nlink c\nlink d\nenv ACTION=add\nenv DEVPATH=/d\nenv E=c d\n\n" }
    ensures replace { answered (codes "SYMLINK+=\"a<b c\", OPTIONS=\"string_escape=replace\"") (codes "C: add\nP: /d")
        ≡ codes "event add /d\nlink a_b_c\nenv ACTION=add\nenv DEVPATH=/d\n\n" }
{}
