//! What is true of bitmaps and of the kinds of input devices, without saying how they are computed.
//!
//! Each function here is empty: its contract is the law.
ghost use Rattle.std.specs.Prelude.{◌≡◌, ℕ, suc, ◌∷◌, ◌++◌, [], true, false};
ghost use Rattle.std.specs.List.{list_any};
ghost use Rattle.text_bytes.specs.Names.{digit_zero, space};
ghost use Rattle.text_bytes.specs.Text.{Text};
ghost use Rattle.builtin_input.specs.Bitmaps.{bitmap, has, is_space, word};
ghost use Rattle.builtin_input.specs.Capabilities.{CapabilitiesValue, nothing};
ghost use Rattle.builtin_input.specs.Kinds.{is_of, is_plain_mouse, kinds};
ghost use Rattle.builtin_input.specs.declared.kinds.Kind.TheVariants as kind;

/// The last word of a bitmap is its lowest, and what comes before it is the bitmap of the others.
pub fn the_last_word_is_the_lowest()
    ensures one { (most : ℕ) (last : Text) → list_any is_space last ≡ false → bitmap (suc most) last ≡ word last ∷ [] }
    ensures more { (most : ℕ) (text last : Text) → list_any is_space last ≡ false → bitmap (suc most) (text ++ space ∷ last) ≡ word last ∷ bitmap most text }
{}

/// A word that is 0 in front of a bitmap changes nothing.
pub fn leading_zeros_change_nothing()
    ensures { (most : ℕ) (text : Text) (number : ℕ) → has (bitmap most (digit_zero ∷ space ∷ text)) number ≡ has (bitmap most text) number }
{}

/// A mouse is not a joystick.
pub fn mice_are_not_joysticks()
    ensures { (c : CapabilitiesValue) → is_of kind.Mouse c ≡ true → is_of kind.Joystick c ≡ false }
{}

/// A touchpad is not a touchscreen, and not a mouse by its buttons.
pub fn touchpads_are_not_touchscreens()
    ensures screen { (c : CapabilitiesValue) → is_of kind.Touchpad c ≡ true → is_of kind.Touchscreen c ≡ false }
    ensures buttons { (c : CapabilitiesValue) → is_of kind.Touchpad c ≡ true → is_plain_mouse c ≡ false }
{}

/// The buttons of a tablet are a tablet, and a keyboard is a key.
pub fn some_kinds_imply_others()
    ensures tablet { (c : CapabilitiesValue) → is_of kind.TabletPad c ≡ true → is_of kind.Tablet c ≡ true }
    ensures keyboard { (c : CapabilitiesValue) → is_of kind.Keyboard c ≡ true → is_of kind.Key c ≡ true }
{}

/// An accelerometer is of no other kind that points.
pub fn accelerometers_are_nothing_else()
    ensures { (c : CapabilitiesValue) → is_of kind.Accelerometer c ≡ true
        → list_any (λ k. is_of k c) (kind.PointingStick ∷ kind.Mouse ∷ kind.Touchpad ∷ kind.Touchscreen ∷ kind.Joystick ∷ kind.Tablet ∷ kind.TabletPad
        ∷ []) ≡ false }
{}

/// A device whose bitmaps are empty is of no kind.
pub fn devices_with_nothing_have_no_kind()
    ensures { (bus : ℕ) → kinds (nothing bus) ≡ [] }
{}
