//! Examples of what a block says of what udev had stored, and of answers of several lines.
ghost use Rattle.std.specs.Prelude.{◌≡◌, ◌∷◌, [], codes};
ghost use Rattle.example_laws.specs.Answered.{answered, answered_as_udev, text};

/// For udev a block gives what was stored before the event, so that IMPORT{db} finds it, or finds that it was not. By the
/// manual it is not run, and neither is it for udev if the block says nothing of what was stored.
pub fn a_block_gives_what_udev_had_stored()
    ensures given { answered_as_udev
        (text (codes "IMPORT{db}=\"A\", ENV{X}=\"1\"" ∷ codes "IMPORT{db}=\"B\", ENV{Y}=\"1\"" ∷ codes "IMPORT{db}!=\"E\", ENV{Z}=\"$env{A}\"" ∷ []))
        (codes "C: add\nP: /a/d\nU: m\nE: E=1\nB: A=2\nP: /a\nB: B=3")
        ≡ text (
        codes "event add /a/d" ∷ codes "env A=2" ∷ codes "env ACTION=add" ∷ codes "env DEVPATH=/a/d" ∷ codes "env E=1"
        ∷ codes "env SUBSYSTEM=m" ∷ codes "env X=1"
        ∷ codes "env Z=2" ∷ codes "" ∷ []) }
    ensures removed { answered_as_udev (codes "IMPORT{db}!=\"A\", ENV{X}=\"1\"") (codes "C: remove\nP: /d\nB: A=2")
        ≡ codes "event remove /d\nenv ACTION=remove\nenv DEVPATH=/d\nenv X=1\n\n" }
    ensures missing { answered_as_udev (codes "IMPORT{db}!=\"A\", ENV{X}=\"1\"") (codes "C: add\nP: /d\nU: m")
        ≡ codes "event add /d\nenv ACTION=add\nenv DEVPATH=/d\nenv SUBSYSTEM=m\nenv X=1\nnote r.rules:1: import not run: db\n\n" }
    ensures manual { answered (codes "IMPORT{db}!=\"A\", ENV{X}=\"1\"") (codes "C: add\nP: /d\nB: A=2")
        ≡ codes "event add /d\nenv ACTION=add\nenv DEVPATH=/d\nenv X=1\nnote r.rules:1: import not run: db\n\n" }
{}

/// For udev each line of an answer may set a property, whether it is in a line of its own or behind a carriage return.
pub fn an_answer_may_have_several_lines()
    ensures { answered_as_udev (codes "IMPORT{program}=\"/p\"") (codes "C: add\nP: /d\nU: m\nQ: /p\nR: 0 A=1\nO: B=2\rC=3\nO: \nO: D=4")
        ≡ text (
        codes "event add /d" ∷ codes "env A=1" ∷ codes "env ACTION=add" ∷ codes "env B=2" ∷ codes "env C=3" ∷ codes "env D=4"
        ∷ codes "env DEVPATH=/d" ∷ codes "env SUBSYSTEM=m" ∷ codes "" ∷ []) }
{}
