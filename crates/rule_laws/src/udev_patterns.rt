//! Laws of patterns as udev reads them, by fnmatch(3).
ghost use Rattle.std.specs.Prelude.{◌≡◌, ◌↔◌, ◌<◌, ℕ, false, [], ◌∷◌, ◌++◌, IsTrue, codes};
ghost use Rattle.text_bytes.specs.Text.{Text};
ghost use Rattle.text_bytes.specs.Names.{backslash};
ghost use Rattle.text_core.specs.Classes.{class_has, class_name};
ghost use Rattle.text_core.specs.Fits.{fits};
ghost use Rattle.text_core.specs.Fnmatch.{fnmatch_items, fnmatch_part};
ghost use Rattle.text_core.specs.Spell.{itself};
ghost use Rattle.text_core.specs.declared.byte_class.ByteClass.{ByteClass};
ghost use Rattle.text_core.specs.declared.reading.Reading.{Reading};
ghost use Rattle.text_core.specs.declared.reading.Reading.TheVariants.{Exact};

/// A part of a choice without special bytes fits its own text alone.
pub fn plain_part_fits_its_text_alone()
    ensures { (t u : Text) → IsTrue (fits (fnmatch_part Exact false t) u) ↔ (u ≡ t) }
{}

/// A byte after a backslash means itself, whichever it is.
pub fn quoted_byte_means_itself()
    ensures { (reading : Reading) (b : ℕ) (t : Text) → fnmatch_items reading (backslash ∷ b ∷ t) 0 ≡ itself reading b ∷ fnmatch_items reading t 0 }
{}

/// A class between brackets takes just its bytes, in both readings.
pub fn class_takes_its_bytes()
    ensures { (reading : Reading) (class : ByteClass) (b : ℕ) → b < 256
        → fits (fnmatch_items reading (codes "[[:" ++ class_name class ++ codes ":]]") 0) (b ∷ []) ≡ class_has class b }
{}
