//! Examples of TEST, PROGRAM and IMPORT.
ghost use Rattle.std.specs.Prelude.{◌≡◌, ◌++◌, ◌∷◌, [], codes};
ghost use Rattle.example_laws.specs.Answered.{answered, answered_with_database, text};

/// A PROGRAM is answered by the block: with status 0 its result is known from then on, and its rule goes on.
pub fn a_program_gives_its_result()
    ensures { answered
        (text (codes "PROGRAM==\"p %k\", RESULT==\"ab*\", ENV{A}=\"%c{2}\"" ∷ codes "RESULT==\"ab cd\", ENV{B}=\"$result\"" ∷ []))
        (codes "C: add\nP: /d\nQ: p d\nR: 0 ab cd")
        ≡ codes "event add /d\nenv A=cd\nenv ACTION=add\nenv B=ab cd\nenv DEVPATH=/d\n\n" }
{}

/// A RESULT that does not hold stops its rule, by `==` and by `!=`; the result stays.
pub fn a_result_that_does_not_fit_stops_its_rule()
    ensures { answered
        (text (
        codes "PROGRAM==\"p\", RESULT==\"z\", ENV{A}=\"1\"" ∷ codes "PROGRAM==\"p\", RESULT!=\"ab\", ENV{B}=\"1\""
        ∷ codes "RESULT==\"z\", ENV{C}=\"1\"" ∷ codes "RESULT==\"ab\", ENV{D}=\"1\"" ∷ codes "RESULT!=\"z\", ENV{E}=\"1\"" ∷ []))
        (codes "C: add\nP: /d\nQ: p\nR: 0 ab")
        ≡ codes "event add /d\nenv ACTION=add\nenv D=1\nenv DEVPATH=/d\nenv E=1\n\n" }
{}

/// A PROGRAM of another status than 0, or without an answer, stops its rule by `==` and lets it go on by `!=`, and the result is
/// empty.
pub fn a_program_that_fails_stops_its_rule()
    ensures failed { answered
        (text (codes "PROGRAM==\"p\", ENV{A}=\"1\"" ∷ codes "PROGRAM!=\"p\", ENV{B}=\"[$result]\"" ∷ []))
        (codes "C: add\nP: /d\nQ: p\nR: 1 ab")
        ≡ codes "event add /d\nenv ACTION=add\nenv B=[]\nenv DEVPATH=/d\n\n" }
    ensures unanswered { answered
        (text (codes "PROGRAM==\"p\", ENV{A}=\"1\"" ∷ codes "PROGRAM!=\"p\", ENV{B}=\"1\"" ∷ []))
        (codes "C: add\nP: /d")
        ≡ text (
        codes "event add /d" ∷ codes "env ACTION=add" ∷ codes "env B=1" ∷ codes "env DEVPATH=/d"
        ∷ codes "note r.rules:1: no answer for program: p" ∷ codes "note r.rules:2: no answer for program: p" ∷ codes "" ∷ []) }
    ensures negated { answered (codes "PROGRAM!=\"p\", ENV{A}=\"1\"") (codes "C: add\nP: /d\nQ: p\nR: 0 ab")
        ≡ codes "event add /d\nenv ACTION=add\nenv DEVPATH=/d\n\n" }
{}

/// TEST holds if the event device has an attribute of this path; an absolute path or a mask is not looked at.
pub fn a_test_asks_for_an_attribute()
    ensures made { answered
        (text (
        codes "TEST==\"a\", ENV{A}=\"1\"" ∷ codes "TEST==\"b\", ENV{B}=\"1\"" ∷ codes "TEST!=\"a\", ENV{C}=\"1\""
        ∷ codes "TEST!=\"b\", ENV{D}=\"1\"" ∷ []))
        (codes "C: add\nP: /d\nA: a=1")
        ≡ codes "event add /d\nenv A=1\nenv ACTION=add\nenv D=1\nenv DEVPATH=/d\n\n" }
    ensures unmade { answered
        (text (codes "TEST==\"/a\", ENV{A}=\"1\"" ∷ codes "TEST{0444}!=\"a\", ENV{B}=\"1\"" ∷ []))
        (codes "C: add\nP: /d\nA: a=1")
        ≡ text (
        codes "event add /d" ∷ codes "env ACTION=add" ∷ codes "env B=1" ∷ codes "env DEVPATH=/d"
        ∷ codes "note r.rules:1: test not made: /a" ∷ codes "note r.rules:2: test not made: a" ∷ codes "" ∷ []) }
{}

/// IMPORT{parent} sets the properties of the next device above whose names fit; without such a device it is not done.
pub fn the_properties_of_the_parent_are_imported_by_name()
    ensures fitting { answered (codes "IMPORT{parent}=\"A*\", ENV{X}=\"1\"") (codes "C: add\nP: /h/d\nP: /h\nE: A1=2\nE: B=3")
        ≡ codes "event add /h/d\nenv A1=2\nenv ACTION=add\nenv DEVPATH=/h/d\nenv X=1\n\n" }
    ensures none { answered
        (text (codes "IMPORT{parent}==\"A*\", ENV{X}=\"1\"" ∷ codes "IMPORT{parent}!=\"A*\", ENV{Y}=\"1\"" ∷ []))
        (codes "C: add\nP: /d")
        ≡ codes "event add /d\nenv ACTION=add\nenv DEVPATH=/d\nenv Y=1\n\n" }
    ensures negated { answered (codes "IMPORT{parent}!=\"A*\", ENV{X}=\"1\"") (codes "C: add\nP: /h/d\nP: /h\nE: A1=2")
        ≡ codes "event add /h/d\nenv A1=2\nenv ACTION=add\nenv DEVPATH=/h/d\n\n" }
{}

/// IMPORT{builtin} of `hwdb` sets what the database has for the nearest device; of two values of a key the later counts. A
/// filter passes the keys that fit it, and words of the command ask for another subsystem, prefix or modalias.
pub fn the_properties_that_the_database_has_are_imported()
    ensures nearest { answered_with_database
        (codes "IMPORT{builtin}=\"hwdb\", ENV{X}=\"1\"")
        (text (
        codes "m:*" ∷ codes " A=1" ∷ codes " B=2" ∷ codes "" ∷ codes "m:x*" ∷ codes " A=3" ∷ codes "" ∷ codes "n:*"
        ∷ codes " C=4" ∷ []))
        (codes "C: add\nP: /h/d\nU: s\nE: MODALIAS=m:x\nP: /h\nU: u\nE: MODALIAS=n:y")
        ≡ codes "event add /h/d\nenv A=3\nenv ACTION=add\nenv B=2\nenv DEVPATH=/h/d\nenv MODALIAS=m:x\nenv SUBSYSTEM=s\nenv X=1\n\n" }
    ensures filter { answered_with_database
        (codes "IMPORT{builtin}=\"hwdb --filter=B*\", ENV{X}=\"1\"")
        (text (
        codes "m:*" ∷ codes " A=1" ∷ codes " B=2" ∷ codes "" ∷ codes "m:x*" ∷ codes " A=3" ∷ codes "" ∷ codes "n:*"
        ∷ codes " C=4" ∷ []))
        (codes "C: add\nP: /h/d\nU: s\nE: MODALIAS=m:x\nP: /h\nU: u\nE: MODALIAS=n:y")
        ≡ codes "event add /h/d\nenv ACTION=add\nenv B=2\nenv DEVPATH=/h/d\nenv MODALIAS=m:x\nenv SUBSYSTEM=s\nenv X=1\n\n" }
    ensures subsystem { answered_with_database
        (codes "IMPORT{builtin}=\"hwdb --subsystem=u\"")
        (text (
        codes "m:*" ∷ codes " A=1" ∷ codes " B=2" ∷ codes "" ∷ codes "m:x*" ∷ codes " A=3" ∷ codes "" ∷ codes "n:*"
        ∷ codes " C=4" ∷ []))
        (codes "C: add\nP: /h/d\nU: s\nE: MODALIAS=m:x\nP: /h\nU: u\nE: MODALIAS=n:y")
        ≡ codes "event add /h/d\nenv ACTION=add\nenv C=4\nenv DEVPATH=/h/d\nenv MODALIAS=m:x\nenv SUBSYSTEM=s\n\n" }
    ensures prefix { answered_with_database
        (codes "IMPORT{builtin}=\"hwdb --subsystem=u --lookup-prefix=m:\"")
        (text (
        codes "m:*" ∷ codes " A=1" ∷ codes " B=2" ∷ codes "" ∷ codes "m:x*" ∷ codes " A=3" ∷ codes "" ∷ codes "n:*"
        ∷ codes " C=4" ∷ []))
        (codes "C: add\nP: /h/d\nU: s\nE: MODALIAS=m:x\nP: /h\nU: u\nE: MODALIAS=n:y")
        ≡ codes "event add /h/d\nenv A=1\nenv ACTION=add\nenv B=2\nenv DEVPATH=/h/d\nenv MODALIAS=m:x\nenv SUBSYSTEM=s\n\n" }
    ensures modalias { answered_with_database
        (codes "IMPORT{builtin}=\"hwdb n:1\"")
        (text (
        codes "m:*" ∷ codes " A=1" ∷ codes " B=2" ∷ codes "" ∷ codes "m:x*" ∷ codes " A=3" ∷ codes "" ∷ codes "n:*"
        ∷ codes " C=4" ∷ []))
        (codes "C: add\nP: /h/d\nU: s\nE: MODALIAS=m:x\nP: /h\nU: u\nE: MODALIAS=n:y")
        ≡ codes "event add /h/d\nenv ACTION=add\nenv C=4\nenv DEVPATH=/h/d\nenv MODALIAS=m:x\nenv SUBSYSTEM=s\n\n" }
    ensures none { answered_with_database
        (text (codes "IMPORT{builtin}=\"hwdb o:1\", ENV{X}=\"1\"" ∷ codes "IMPORT{builtin}!=\"hwdb o:1\", ENV{Y}=\"1\"" ∷ []))
        (text (
        codes "m:*" ∷ codes " A=1" ∷ codes " B=2" ∷ codes "" ∷ codes "m:x*" ∷ codes " A=3" ∷ codes "" ∷ codes "n:*"
        ∷ codes " C=4" ∷ []))
        (codes "C: add\nP: /h/d\nU: s\nE: MODALIAS=m:x\nP: /h\nU: u\nE: MODALIAS=n:y")
        ≡ codes "event add /h/d\nenv ACTION=add\nenv DEVPATH=/h/d\nenv MODALIAS=m:x\nenv SUBSYSTEM=s\nenv Y=1\n\n" }
{}

/// What a dry run does not do is not done and leaves a note, in the order of evaluation: tests, programs, then imports by type.
pub fn what_a_dry_run_does_not_do_is_noted()
    ensures { answered
        (codes "IMPORT{parent}!=\"*\", IMPORT{cmdline}!=\"c\", IMPORT{db}!=\"d\", IMPORT{builtin}!=\"kmod x\", "
        ++ codes "IMPORT{program}!=\"i\", IMPORT{file}!=\"f\", PROGRAM!=\"p\", TEST!=\"/t\", ENV{X}=\"1\"")
        (codes "C: add\nP: /d")
        ≡ text (
        codes "event add /d" ∷ codes "env ACTION=add" ∷ codes "env DEVPATH=/d" ∷ codes "env X=1"
        ∷ codes "note r.rules:1: test not made: /t" ∷ codes "note r.rules:1: no answer for program: p"
        ∷ codes "note r.rules:1: import not run: file" ∷ codes "note r.rules:1: import not run: program"
        ∷ codes "note r.rules:1: builtin not run: kmod" ∷ codes "note r.rules:1: import not run: db"
        ∷ codes "note r.rules:1: import not run: cmdline" ∷ codes "" ∷ []) }
{}

/// First the matches of the event device, then those along the chain, then tests, programs and imports, then the result, and the
/// assignments last: what was changed before a rule stops stays.
pub fn the_keys_of_a_rule_are_taken_by_kind_in_whatever_order_they_are_written()
    ensures whole { answered
        (codes "RUN+=\"r\", IMPORT{parent}=\"x\", PROGRAM==\"p\", RESULT==\"q\", TEST==\"f\", ENV{B}=\"1\", ATTRS{a}==\"b\", "
        ++ codes "ENV{C}==\"2\"")
        (codes "C: add\nP: /p/d\nE: C=2\nA: a=b\nA: f=\nQ: p\nR: 0 q\nP: /p\nE: x=1")
        ≡ codes "event add /p/d\nenv ACTION=add\nenv B=1\nenv C=2\nenv DEVPATH=/p/d\nenv x=1\nrun program r\n\n" }
    ensures result { answered
        (codes "RUN+=\"r\", IMPORT{parent}=\"x\", PROGRAM==\"p\", RESULT==\"q\", TEST==\"f\", ENV{B}=\"1\", ATTRS{a}==\"b\", "
        ++ codes "ENV{C}==\"2\"")
        (codes "C: add\nP: /p/d\nE: C=2\nA: a=b\nA: f=\nQ: p\nR: 0 z\nP: /p\nE: x=1")
        ≡ codes "event add /p/d\nenv ACTION=add\nenv C=2\nenv DEVPATH=/p/d\nenv x=1\n\n" }
    ensures program { answered
        (codes "RUN+=\"r\", IMPORT{parent}=\"x\", PROGRAM==\"p\", RESULT==\"q\", TEST==\"f\", ENV{B}=\"1\", ATTRS{a}==\"b\", "
        ++ codes "ENV{C}==\"2\"")
        (codes "C: add\nP: /p/d\nE: C=2\nA: a=b\nA: f=\nP: /p\nE: x=1")
        ≡ codes "event add /p/d\nenv ACTION=add\nenv C=2\nenv DEVPATH=/p/d\nnote r.rules:1: no answer for program: p\n\n" }
    ensures test { answered
        (codes "RUN+=\"r\", IMPORT{parent}=\"x\", PROGRAM==\"p\", RESULT==\"q\", TEST==\"f\", ENV{B}=\"1\", ATTRS{a}==\"b\", "
        ++ codes "ENV{C}==\"2\"")
        (codes "C: add\nP: /p/d\nE: C=2\nA: a=b\nP: /p\nE: x=1")
        ≡ codes "event add /p/d\nenv ACTION=add\nenv C=2\nenv DEVPATH=/p/d\n\n" }
{}
