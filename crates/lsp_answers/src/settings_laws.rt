//! What is true of settings. Each law is the contract of a function that does nothing.
ghost use Rattle.std.specs.Prelude.{◌≡◌, ◌∷◌, [], false, true, Err, Ok, codes};
ghost use Rattle.text_bytes.specs.declared.profile.Profile.TheVariants.{Udev};
ghost use Rattle.lsp_answers.specs.Options.{settings_of};
ghost use Rattle.lsp_answers.specs.Settings.{plain, strict};

/// Examples: without words settings are those of `verify`, with `--strict` those of `verify --strict`; codes and classes are
/// ignored in their order; what is about outputs asks for nothing; and what is no option or no code is refused.
pub fn options_ask_for_settings()
    ensures none { settings_of [] ≡ Ok plain }
    ensures strict { settings_of (codes "--strict" ∷ []) ≡ Ok strict }
    ensures flags { settings_of (codes "--lint" ∷ codes "--no-style" ∷ codes "--format=json" ∷ [])
        ≡ Ok (record plain { lint = true; style = false }) }
    ensures ignored { settings_of (codes "--udev" ∷ codes "--ignore=V6,I" ∷ codes "--ignore=comments" ∷ [])
        ≡ Ok (record plain { profile = Udev; ignored = codes "V6" ∷ codes "I1" ∷ codes "I2" ∷ codes "comments" ∷ [] }) }
    ensures option { settings_of (codes "--lint" ∷ codes "lint" ∷ []) ≡ Err (codes "no such option: lint") }
    ensures code { settings_of (codes "--ignore=V6,X1" ∷ []) ≡ Err (codes "no such code: X1") }
{}
