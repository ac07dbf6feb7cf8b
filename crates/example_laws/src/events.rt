//! Examples of what rules and blocks say: what an event begins with, jumps, lines that are read and lines that are not.
ghost use Rattle.std.specs.Prelude.{◌≡◌, ◌++◌, ◌∷◌, [], codes, false, true};
ghost use Rattle.example_laws.specs.Answered.{answered, text};
ghost use Rattle.example_laws.specs.Reported.{told_people};

/// With no rule an answer has the links, the tags and the properties of the block, and over these what the event itself says.
pub fn an_event_begins_with_what_its_block_says()
    ensures whole { answered [] (codes "C: add\nP: /d\nU: b\nV: v\nN: n\nD: 8:1\nE: E=2\nE: ACTION=x\nG: t\nG: s\nS: l\nS: k")
        ≡ text (
        codes "event add /d" ∷ codes "link l" ∷ codes "link k" ∷ codes "tag t" ∷ codes "tag s" ∷ codes "env ACTION=add"
        ∷ codes "env DEVNAME=/dev/n" ∷ codes "env DEVPATH=/d" ∷ codes "env E=2" ∷ codes "env MAJOR=8" ∷ codes "env MINOR=1"
        ∷ codes "env SUBSYSTEM=b" ∷ codes "" ∷ []) }
    ensures least { answered [] (codes "C: add\nP: /d")
        ≡ codes "event add /d\nenv ACTION=add\nenv DEVPATH=/d\n\n" }
{}

/// A GOTO of a rule whose end is reached jumps to the next rule with its label; a rule that stops does not jump.
pub fn a_jump_passes_over_rules()
    ensures reached { answered
        (text (
        codes "LABEL=\"x\", ENV{A}=\"1\"" ∷ codes "GOTO=\"x\"" ∷ codes "ENV{B}=\"1\"" ∷ codes "LABEL=\"x\", ENV{C}=\"1\""
        ∷ codes "ENV{D}=\"1\"" ∷ []))
        (codes "C: add\nP: /d")
        ≡ codes "event add /d\nenv A=1\nenv ACTION=add\nenv C=1\nenv D=1\nenv DEVPATH=/d\n\n" }
    ensures stopped { answered
        (text (codes "KERNEL==\"e\", GOTO=\"x\"" ∷ codes "ENV{B}=\"1\"" ∷ codes "LABEL=\"x\", ENV{C}=\"1\"" ∷ []))
        (codes "C: add\nP: /d")
        ≡ codes "event add /d\nenv ACTION=add\nenv B=1\nenv C=1\nenv DEVPATH=/d\n\n" }
{}

/// Rules are evaluated one after another, each on what those before it left.
pub fn rules_are_evaluated_on_what_those_before_left()
    ensures { answered
        (text (
        codes "ENV{A}=\"1\"" ∷ codes "ENV{A}==\"1\", ENV{A}=\"2\"" ∷ codes "ENV{A}==\"1\", ENV{B}=\"1\""
        ∷ codes "ENV{A}==\"2\", ENV{C}=\"1\"" ∷ []))
        (codes "C: add\nP: /d")
        ≡ codes "event add /d\nenv A=2\nenv ACTION=add\nenv C=1\nenv DEVPATH=/d\n\n" }
{}

/// A line that ends in a backslash goes on in the next that is no comment. A line that is no rule is left out, and the rules around
/// it stay.
pub fn lines_of_rules_are_joined_and_comments_are_skipped()
    ensures joined { answered
        (text (codes "# c" ∷ codes "  ENV{A}=\"1\", \\" ∷ codes "# d" ∷ codes "  ENV{B}=\"2\"" ∷ []))
        (codes "C: add\nP: /d")
        ≡ codes "event add /d\nenv A=1\nenv ACTION=add\nenv B=2\nenv DEVPATH=/d\n\n" }
    ensures left_out { answered
        (text (codes "ENV{A}=\"1\"" ∷ codes "ENV{B}=\"1\", NONE=\"1\"" ∷ codes "ENV{C}=\"$none\"" ∷ codes "ENV{D}=\"1\"" ∷ []))
        (codes "C: add\nP: /d")
        ≡ codes "event add /d\nenv A=1\nenv ACTION=add\nenv D=1\nenv DEVPATH=/d\n\n" }
{}

/// `\"` is a quote, and `e` before a value reads escapes; bytes that an answer can not show are written in hexadecimal digits.
pub fn values_are_read_with_their_escapes()
    ensures { answered (codes "ENV{A}=\"a\\\"b\\n\", ENV{B}=e\"a\\tb\\x41\\s\"") (codes "C: add\nP: /d")
        ≡ codes "event add /d\nenv A=a\"b\\x5Cn\nenv ACTION=add\nenv B=a\\x09bA \nenv DEVPATH=/d\n\n" }
{}

/// A block with a fault has no answer: the first fault is told with its line.
pub fn the_first_fault_of_a_block_is_told()
    ensures action { answered [] (codes "P: /d")
        ≡ codes "line 1: no action" }
    ensures device { answered [] (codes "C: add\nU: b")
        ≡ codes "line 2: no device" }
    ensures letter { answered [] (codes "C: add\nP: /d\nX: y")
        ≡ codes "line 3: unknown line" }
    ensures twice { answered [] (codes "C: add\nP: /d\nU: a\nU: b")
        ≡ codes "line 4: given twice" }
    ensures path { answered [] (codes "C: add\nP: /a\nP: /b")
        ≡ codes "line 3: path" }
    ensures number { answered [] (codes "C: add\nP: /d\nD: 8")
        ≡ codes "line 3: number" }
    ensures pair { answered [] (codes "C: add\nP: /d\nE: A")
        ≡ codes "line 3: pair" }
    ensures answer { answered [] (codes "C: add\nP: /d\nQ: p")
        ≡ codes "line 3: pair" }
{}

/// Below the line on a faulty block people are told what is wrong and what to do, after the messages and the answers before it. That there
/// is no block is told in a line, if that is asked for, and changes no status.
pub fn people_are_told_what_is_wrong_with_a_block()
    ensures none { told_people true (codes "m\n") (codes "\n\n")
        ≡ record { output = []; messages = codes "m\ndevdry: no event block in the input\n"; status = 0 } }
    ensures unasked { told_people false (codes "m\n") (codes "\n\n") ≡ record { output = []; messages = codes "m\n"; status = 0 } }
    ensures some { told_people true (codes "m\n") (codes "C: add\nP: /d\n") ≡ record { output = codes "a\n"; messages = codes "m\n"; status = 0 } }
    ensures faulty { told_people true (codes "m\n") (codes "C: add\nP: /d\n\nC: add\nP: d\n")
        ≡ record {
          output = codes "a\n";
          messages = codes "m\nblock 2, line 2: path\n"
              ++ codes "  The path does not begin with a slash, or is not that of a parent of the device above.\n"
              ++ codes "  = Write paths as below /sys, such as P: /devices/virtual/mem/null, each parent below its child.\n";
          status = 1;
        } }
{}
