//! Values and attributes, and how udev of systemd 257 compares them.
ghost use Rattle.std.specs.Prelude.{◌≡◌, ◌++◌, ◌∷◌, [], codes, true, false, replicate};
ghost use Rattle.text_bytes.specs.Names.{form_feed, newline, tab, vertical_tab};
ghost use Rattle.eval_rendering.specs.Udev.{as_spelled, compared_with, means_each, trims};

/// Values of ATTR, some of which are compared with an attribute without the white space at its end.
pub fn some_values()
    ensures word { trims (codes "a") ≡ true }
    ensures blank { trims (codes "a ") ≡ false }
    ensures feed { trims (codes "a" ++ form_feed ∷ []) ≡ false }
    ensures empty { trims (codes "") ≡ false }
    ensures first { trims (codes "a |b") ≡ false }
    ensures last { trims (codes "a|b ") ≡ true }
    ensures after_bars { trims (codes "||x|y ") ≡ true }
    ensures bars { trims (codes "||") ≡ false }
{}

/// Attributes as they are compared with a value.
pub fn some_attributes()
    ensures cut { compared_with (codes "a") (codes "b  " ++ tab ∷ newline ∷ []) ≡ codes "b" }
    ensures kept { compared_with (codes "a") (codes "b" ++ vertical_tab ∷ []) ≡ codes "b" ++ vertical_tab ∷ [] }
    ensures blanks { compared_with (codes "") (codes "  ") ≡ codes "  " }
    ensures no_blanks { compared_with (codes "|x") (codes "  ") ≡ [] }
    ensures long { compared_with (codes "a") (replicate 600 98) ≡ replicate 511 98 }
    ensures whole { compared_with (codes "a ") (replicate 600 98) ≡ replicate 600 98 }
{}

/// Texts that are one of the three words, and some that are not.
pub fn some_subsystems()
    ensures subsystem { means_each (codes "subsystem") ≡ true }
    ensures bus { means_each (codes "bus") ≡ true }
    ensures class { means_each (codes "class") ≡ true }
    ensures pattern { means_each (codes "bus|x") ≡ false }
    ensures capitals { means_each (codes "Bus") ≡ false }
    ensures in_any_case { means_each (as_spelled true (codes "Bus")) ≡ true }
{}
