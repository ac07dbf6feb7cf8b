//! Examples of `--unused`.
ghost use Rattle.std.specs.Prelude.{◌≡◌, ◌∷◌, [], codes};
ghost use Rattle.text_bytes.specs.declared.profile.Profile.TheVariants.{Manual, Udev};
ghost use Rattle.example_laws.specs.Answered.{text};
ghost use Rattle.example_laws.specs.Reported.{unused_by, unused_with_added};

/// A rule that no event met is told with the key that stopped most of the events that reached it, or as not reached.
pub fn rules_that_no_event_met_are_told()
    ensures met { unused_by Manual
        (text (codes "KERNEL==\"a\", ENV{A}=\"1\"" ∷ codes "LABEL=\"l\"" ∷ codes "KERNEL==\"b\"" ∷ []))
        (codes "C: add\nP: /c\n\nC: add\nP: /a\n\nC: add\nP: /b")
        ≡ [] }
    ensures failed { unused_by Manual
        (text (codes "ENV{A}==\"1\", ENV{B}==\"1\", ENV{C}==\"1\"" ∷ codes "SUBSYSTEMS==\"s\", ATTRS{x}!=i\"1\"" ∷ []))
        (codes "C: add\nP: /d\nE: A=1\n\nC: add\nP: /d\n\nC: add\nP: /d\nE: A=1")
        ≡ codes "unused r.rules:1: ENV{B}==\"1\" failed 2 of 3\nunused r.rules:2: SUBSYSTEMS==\"s\", ATTRS{x}!=i\"1\" failed 3 of 3\n" }
    ensures passed { unused_by Manual
        (text (codes "GOTO=\"x\"" ∷ codes "ENV{B}=\"1\"" ∷ codes "LABEL=\"x\", KERNEL==\"e\"" ∷ []))
        (codes "C: add\nP: /d")
        ≡ codes "unused r.rules:2: not reached\nunused r.rules:3: KERNEL==\"e\" failed 1 of 1\n" }
    ensures none { unused_by Manual (codes "ENV{A}=\"1\"\n") []
        ≡ codes "unused r.rules:1: not reached\n" }
    ensures skipped { unused_by Udev (text (codes "KERNEL==\"d\", OPTIONS=\"static_node=x\"" ∷ codes "KERNEL==\"e\", OPTIONS=\"static_node=x\"" ∷ []))
        (codes "C: add\nP: /d\nU: m")
        ≡ codes "unused r.rules:2: KERNEL==\"e\" failed 1 of 1\n" }
{}

/// If `--with` adds a file to those of the folders, `--unused` tells of its rules alone.
pub fn of_files_that_are_added_alone_rules_are_told()
    ensures added { unused_with_added (codes "KERNEL==\"a\"") (codes "KERNEL==\"b\"") (codes "C: add\nP: /c")
        ≡ codes "unused a.rules:1: KERNEL==\"a\" failed 1 of 1\n" }
    ensures met { unused_with_added (codes "KERNEL==\"c\"") (codes "KERNEL==\"b\"") (codes "C: add\nP: /c") ≡ [] }
{}
