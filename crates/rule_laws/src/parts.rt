//! What is true of parts, whatever the tokens are.
//!
//! Each function here is empty: its contract is the law.
ghost use Rattle.std.specs.Prelude.{◌≡◌, Ok, Some};
ghost use Rattle.text_bytes.specs.declared.profile.Profile.TheVariants.{Manual};
ghost use Rattle.rule_tokens.specs.Grammar.{Placed};
ghost use Rattle.rule_types.specs.Names.{key_of};
ghost use Rattle.rule_types.specs.declared.keys.Key.{Key};
ghost use Rattle.rule_types.specs.declared.part.Part.{Part};
ghost use Rattle.rule_parts.specs.Parts.{part_of};
ghost use Rattle.rule_laws.specs.Conditions.{FirstFaultCounts};
ghost use Rattle.rule_laws.specs.Operators.{counted_as, operator_of};

/// A token is a part of a rule if none of a list of conditions holds for it; otherwise its fault is that of the
/// first condition that holds.
pub fn the_first_fault_counts()
    ensures { FirstFaultCounts }
{}

/// By the manual a part has the operator of its token, or `=` where its key reads it so. PROGRAM and IMPORT are compared by
/// `!=`, or by `==` where another operator is written.
pub fn a_part_has_the_operator_of_its_token()
    ensures { (token : Placed) (key : Key) (part : Part) → key_of token.parts.head.key ≡ Some key → part_of Manual token ≡ Ok part
        → operator_of part ≡ counted_as key token.parts.head.operator }
{}
