//! Examples of the tokens of rules, with the pairs that are reported.
ghost use Rattle.std.specs.Prelude.{◌≡◌, ◌∷◌, [], codes};
ghost use Rattle.rule_remarks.specs.PairLaws.{asks, asks_not, asks_not_of, asks_of, gives, gives_of, reported};
ghost use Rattle.rule_remarks.specs.declared.pair_finding.PairKind.TheVariants.{Same, Against};

/// Matches, of which some exclude each other.
pub fn some_matches()
    ensures tags { reported (asks (codes "TAG") (codes "a") ∷ asks (codes "TAG") (codes "b") ∷ []) ≡ record { kind = Against; token = 1 } ∷ [] }
    ensures trimmed { reported (asks_of (codes "ATTR") (codes "a") (codes "1") ∷ asks_of (codes "ATTR") (codes "a") (codes "2") ∷ []) ≡ [] }
    ensures blank { reported (asks_of (codes "ATTR") (codes "a") (codes "1 ") ∷ asks_of (codes "ATTR") (codes "a") (codes "2 ") ∷ [])
        ≡ record { kind = Against; token = 1 } ∷ [] }
    ensures blank_first { reported (asks_of (codes "ATTR") (codes "a") (codes "x |1") ∷ asks_of (codes "ATTR") (codes "a") (codes "y |2") ∷ [])
        ≡ record { kind = Against; token = 1 } ∷ [] }
    ensures blank_last { reported (asks_of (codes "ATTR") (codes "a") (codes "x|1 ") ∷ asks_of (codes "ATTR") (codes "a") (codes "y|2 ") ∷ []) ≡ [] }
    ensures bar_first { reported (asks_of (codes "ATTR") (codes "a") (codes "|1") ∷ asks_of (codes "ATTR") (codes "a") (codes "1|") ∷ [])
        ≡ record { kind = Same; token = 1 } ∷ [] }
    ensures bars_first { reported (asks_of (codes "ATTR") (codes "a") (codes "|1|2 ") ∷ asks_of (codes "ATTR") (codes "a") (codes "|2 |1") ∷ []) ≡ [] }
    ensures unequal { reported (asks_of (codes "ATTR") (codes "a") (codes "1") ∷ asks_not_of (codes "ATTR") (codes "a") (codes "1") ∷ [])
        ≡ record { kind = Against; token = 1 } ∷ [] }
    ensures opposite { reported (asks (codes "KERNEL") (codes "") ∷ asks (codes "KERNEL") (codes "?*") ∷ []) ≡ record { kind = Against; token = 1 } ∷ [] }
    ensures order { reported (asks (codes "KERNEL") (codes "a|b") ∷ asks (codes "KERNEL") (codes "b|a") ∷ []) ≡ record { kind = Same; token = 1 } ∷ [] }
    ensures empty { reported (asks (codes "KERNEL") (codes "a|") ∷ asks (codes "KERNEL") (codes "b") ∷ []) ≡ [] }
    ensures patterns { reported (asks (codes "KERNEL") (codes "ab|c*") ∷ asks (codes "KERNEL") (codes "abc|d*") ∷ []) ≡ [] }
    ensures apart { reported (asks (codes "KERNEL") (codes "ab*") ∷ asks (codes "KERNEL") (codes "cd*") ∷ []) ≡ record { kind = Against; token = 1 } ∷ [] }
    ensures mixed { reported (asks (codes "KERNEL") (codes "a") ∷ asks (codes "KERNEL") (codes "b*") ∷ []) ≡ [] }
    ensures far { reported (asks (codes "KERNEL") (codes "a") ∷ asks (codes "SUBSYSTEM") (codes "b") ∷ asks (codes "KERNEL") (codes "c") ∷ [])
        ≡ record { kind = Against; token = 2 } ∷ [] }
    ensures three { reported (asks (codes "SUBSYSTEM") (codes "bus") ∷ asks_not (codes "SUBSYSTEM") (codes "class") ∷ [])
        ≡ record { kind = Against; token = 1 } ∷ [] }
{}

/// Assignments and what is done while a rule is matched, of which some say the same.
pub fn some_act_kinds()
    ensures modes { reported (gives (codes "MODE") (codes "0660") ∷ gives (codes "MODE") (codes "660") ∷ []) ≡ record { kind = Same; token = 1 } ∷ [] }
    ensures owners { reported (gives (codes "OWNER") (codes "root") ∷ gives (codes "OWNER") (codes "0") ∷ []) ≡ record { kind = Same; token = 1 } ∷ [] }
    ensures names { reported (gives (codes "NAME") (codes "a") ∷ gives (codes "NAME") (codes "b") ∷ []) ≡ [] }
    ensures tests { reported (asks_of (codes "TEST") (codes "644") (codes "a") ∷ asks_of (codes "TEST") (codes "0644") (codes "a") ∷ [])
        ≡ record { kind = Same; token = 1 } ∷ [] }
    ensures runs { reported (gives (codes "RUN") (codes "a") ∷ gives_of (codes "RUN") (codes "program") (codes "a") ∷ [])
        ≡ record { kind = Same; token = 1 } ∷ [] }
    ensures programs { reported (asks (codes "PROGRAM") (codes "a") ∷ gives (codes "PROGRAM") (codes "a") ∷ []) ≡ record { kind = Same; token = 1 } ∷ [] }
    ensures imports { reported (gives_of (codes "IMPORT") (codes "program") (codes "u") ∷ gives_of (codes "IMPORT") (codes "builtin") (codes "u") ∷ [])
        ≡ record { kind = Same; token = 1 } ∷ [] }
    ensures options { reported (gives (codes "OPTIONS") (codes "watch") ∷ gives (codes "OPTIONS") (codes "nowatch") ∷ []) ≡ [] }
    ensures numbers { reported (gives (codes "OPTIONS") (codes "link_priority=16") ∷ gives (codes "OPTIONS") (codes "link_priority=0x10") ∷ [])
        ≡ record { kind = Same; token = 1 } ∷ [] }
    ensures labels { reported (gives (codes "LABEL") (codes "a") ∷ gives (codes "LABEL") (codes "a") ∷ []) ≡ [] }
{}
